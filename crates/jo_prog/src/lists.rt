//! Lists that grow.
ghost use Rattle.std.specs.Prelude.{◌≡◌, ◌++◌, ◌∷◌, [], OnOk};

use jo_ids::{List, Memory};

/// Adds an item, or drops it where memory is wanting.
pub fn add<T: Drop>(list: &mut List<T>, item: T) -> Result<(), Memory>
    ensures { OnOk result (list.new ≡ list.old ++ item ∷ []) }
{
    match list.push(item) {
        Ok(()) => Ok(()),
        Err((_item, memory)) => Err(memory),
    }
}
