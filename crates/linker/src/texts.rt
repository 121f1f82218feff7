//! Texts of a pool.
ghost use Rattle.std.specs.Prelude.{◌≡◌, IfOk};
ghost use Rattle.linker.specs.Linking.{text_at};

use class_pool::{PoolEntry, utf8_at};
use jo_ids::Memory;
use jo_text::Name;
use std::alloc::Global;

/// These bytes.
pub(crate) fn named(alloc: Global, bytes: &[u8]) -> Result<Name, Memory>
    ensures { IfOk result (λ name. name ≡ bytes.now) }
{
    let mut name = Name::new(alloc);
    name.append(bytes)?;
    Ok(name)
}

/// The text of the Utf8 entry with that index, or none.
pub(crate) fn text_at(alloc: Global, pool: &[PoolEntry], index: u16) -> Result<Name, Memory>
    ensures { IfOk result (λ name. name ≡ text_at pool.now index) }
{
    match utf8_at(pool, index) {
        Some(text) => named(alloc, text),
        None => Ok(Name::new(alloc)),
    }
}
