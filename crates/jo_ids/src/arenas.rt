//! Lists whose items have numbers of one kind.
ghost use Rattle.std.specs.Prelude.{◌≡◌, ◌<◌, ◌↔◌, ◌++◌, ◌∷◌, [], length, IfOk, IfErr, OnErr, OnOk, Some, slice_get};
ghost use Rattle.std.specs.Borrow.{sem};

use crate::Id;
use std::alloc::Global;
use std::marker::{Model, PhantomData};

/// A list that grows at its end, whose items have the numbers of the kind `K` in order.
#[derive(Drop)]
pub struct Arena<K, T> {
    items: Vec<T>,
    kind: PhantomData<K>,
}

impl<K, T> Model for Arena<K, T> {
    ghost use Rattle.std.specs.Prelude.{List as Items, ◌<◌, ◌^◌};
    ghost use Rattle.std.specs.Coded.{coded_list};

    ghost Value = { Items T };

    ghost coded = { coded_list T.code };

    ghost view = { λ a. a.items.items };

    ghost invariant = { λ a. a.items.len < 2 ^ 32 };
}

/// Why an arena took no further item.
#[derive(Clone, Copy, PartialEq, Eq, Debug)]
pub enum ArenaCause {
    /// It has an item for each number but the last.
    Full,
    Memory,
}

/// An item that an arena didn't take, and why.
#[derive(Drop)]
pub struct ArenaRefusal<T> {
    pub item: T,
    pub cause: ArenaCause,
}

impl<K, T> Arena<K, T> {
    ghost use Rattle.jo_ids.specs.Lends.{LendsItem};

    /// The empty list. It takes no memory.
    pub fn new(alloc: Global) -> Arena<K, T>
        ensures { result ≡ [] }
    {
        Arena {
            items: Vec::new(alloc),
            kind: PhantomData,
        }
    }

    /// Adds the item at the end, or gives it back.
    pub fn push(&mut self, item: T) -> Result<Id<K>, ArenaRefusal<T>>
        ensures ok { OnOk result (self.new ≡ self.old ++ item ∷ []) }
        ensures id { IfOk result (λ id. id ≡ length self.old) }
        ensures room { OnOk result (length self.old < u32.MAX) }
        ensures err { OnErr result (self.new ≡ self.old) }
        ensures given_back { IfErr result (λ e. e.item ≡ item) }
        ensures full { IfErr result (λ e. (e.cause ≡ ArenaCause.Full) ↔ (length self.old ≡ u32.MAX)) }
    {
        let number = self.len();
        if number == u32::MAX {
            return Err(ArenaRefusal {
                item,
                cause: ArenaCause::Full,
            });
        }
        match self.items.push(item) {
            Ok(()) => Ok(Id::of(number)),
            Err(failed) => Err(ArenaRefusal {
                item: failed.value,
                cause: ArenaCause::Memory,
            }),
        }
    }

    /// The item with that number.
    pub fn get(&self, id: Id<K>) -> &T
        requires { id < length self.now }
        ensures { slice_get self.now id ≡ Some result.now }
    {
        &self.items[id.number() as usize]
    }

    /// The item with that number, for writing.
    pub fn get_mut(&mut self, id: Id<K>) -> &mut T
        requires { id < length self.old }
        ensures* writes_back { sem 𝓛 (LendsItem K.row T.row self.entry id result) }
        ensures value { slice_get self.old id ≡ Some result.now }
    {
        &mut self.items[id.number() as usize]
    }

    /// How many items there are.
    pub fn len(&self) -> u32
        ensures { result ≡ length self.now }
    {
        self.items.len() as u32
    }
}

#[cfg(test)]
mod tests {
    use super::*;
    use crate::{ObjectId, Objects};
    use std::test::Fail;

    #[test]
    fn items_have_numbers_in_order(rt: HostRuntime) -> Result<(), Fail> {
        let mut sizes: Arena<Objects, u64> = Arena::new(rt.alloc());
        assert_eq!(rt; sizes.len(), 0);
        let mut last: Option<ObjectId> = None;
        for size in [5, 7, 9] {
            match sizes.push(size) {
                Ok(id) => last = Some(id),
                Err(refusal) => assert_eq!(rt; refusal.item, size),
            }
        }
        let last = last.ok_or("no room")?;
        assert_eq!(rt; last.number(), 2);
        assert_eq!(rt; sizes.len(), 3);
        *sizes.get_mut(last) = 8;
        assert_eq!(rt; *sizes.get(last), 8);
        assert_eq!(rt; *sizes.get(Id::of(1)), 7);
        Ok(())
    }
}
