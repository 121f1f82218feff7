//! Names that stand twice in a list.
ghost use Rattle.std.specs.Prelude.{◌<◌, ◌^◌, length, IfOk, IfSome, IfNone};
ghost use Rattle.jo_order.specs.Orders.{IsLeast, IsRepeated, AreDistinct};

use jo_ids::Memory;
use jo_text::Name;
use std::alloc::Global;
use std::collections::BTreeSet;

/// The first place of a name that stands at an earlier place, too.
pub fn first_repeated(alloc: Global, names: &[Name]) -> Result<Option<u32>, Memory>
    requires { length names.now < 2 ^ 32 }
    ensures found { IfOk result (λ place. IfSome place (IsLeast (IsRepeated names.now))) }
    ensures none { IfOk result (λ place. IfNone place (AreDistinct names.now)) }
{
    let mut seen = BTreeSet::new(alloc);
    for (place, name) in names.iter().enumerate() {
        if !seen.insert(name.as_slice())? {
            return Ok(Some(place as u32));
        }
    }
    Ok(None)
}
