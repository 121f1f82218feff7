//! Lists that contracts see as lists, numbers of things of one kind and lists of such things, and sets of numbers.
#![tactic(auto)]

mod arenas;
mod rows;
pub mod words;

ghost use Rattle.std.specs.Prelude.{◌≡◌, ◌++◌, ◌∷◌, [], IfErr, OnErr, OnOk};

pub use arenas::{Arena, ArenaCause, ArenaRefusal};
pub use rows::BitRow;
pub use std::alloc::AllocError as Memory;
use std::alloc::{AllocError, Global};
use std::marker::{Model, PhantomData};

/// A list that grows at its end.
#[derive(Drop)]
pub struct List<T> {
    items: Vec<T>,
}

impl<T> Model for List<T> {
    ghost use Rattle.std.specs.Prelude.{List as Items};
    ghost use Rattle.std.specs.Coded.{coded_list};

    ghost Value = { Items T };

    ghost coded = { coded_list T.code };

    ghost view = { λ l. l.items.items };
}

impl<T> List<T> {
    /// The empty list. It takes no memory.
    pub fn new(alloc: Global) -> List<T>
        ensures { result ≡ [] }
    {
        List {
            items: Vec::new(alloc),
        }
    }

    /// Adds the item at the end, or gives it back where memory is wanted.
    pub fn push(&mut self, item: T) -> Result<(), (T, Memory)>
        ensures ok { OnOk result (self.new ≡ self.old ++ item ∷ []) }
        ensures err { OnErr result (self.new ≡ self.old) }
        ensures given_back { IfErr result (λ e. e.0 ≡ item) }
    {
        match self.items.push(item) {
            Ok(()) => Ok(()),
            Err(failed) => Err((failed.value, AllocError)),
        }
    }

    /// The items.
    pub fn as_slice(&self) -> &[T]
        ensures { result.now ≡ self.now }
    {
        self.items.as_slice()
    }
}

/// The number of a thing of the kind `K`, counted from 0.
#[derive(Clone, Copy, PartialEq, Eq)]
pub struct Id<K> {
    number: u32,
    kind: PhantomData<K>,
}

impl<K> Model for Id<K> {
    ghost use Rattle.std.specs.Prelude.{ℕ};

    ghost Value = { ℕ };

    ghost view = { λ i. i.number };

    ghost inverse = { λ n. record { number = n; kind = record {} } };
}

impl<K> Id<K> {
    /// The id with that number.
    pub fn of(number: u32) -> Id<K>
        ensures { result ≡ number }
    {
        Id {
            number,
            kind: PhantomData,
        }
    }

    /// The id's number.
    pub fn number(self) -> u32
        ensures { result ≡ self }
    {
        self.number
    }
}

/// The kinds of things that have numbers.
#[derive(Clone, Copy, PartialEq, Eq)]
pub struct Classes;

#[derive(Clone, Copy, PartialEq, Eq)]
pub struct Fields;

#[derive(Clone, Copy, PartialEq, Eq)]
pub struct Methods;

#[derive(Clone, Copy, PartialEq, Eq)]
pub struct Sites;

#[derive(Clone, Copy, PartialEq, Eq)]
pub struct Levels;

#[derive(Clone, Copy, PartialEq, Eq)]
pub struct Nodes;

#[derive(Clone, Copy, PartialEq, Eq)]
pub struct Instances;

#[derive(Clone, Copy, PartialEq, Eq)]
pub struct Objects;

pub type ClassId = Id<Classes>;

pub type FieldId = Id<Fields>;

pub type MethodId = Id<Methods>;

pub type SiteId = Id<Sites>;

pub type LevelId = Id<Levels>;

pub type NodeId = Id<Nodes>;

pub type InstanceId = Id<Instances>;

pub type ObjectId = Id<Objects>;

/// A context: at most two sites, the first `len` of the two.
#[derive(Clone, Copy, PartialEq, Eq)]
pub struct SiteList {
    pub len: u8,
    pub first: SiteId,
    pub second: SiteId,
}

/// An object of the analysis: the site that makes it, and the context in which the site is passed.
#[derive(Clone, Copy, PartialEq, Eq)]
pub struct ObjKey<C> {
    pub site: SiteId,
    pub context: C,
}

/// The quantity that is greater than its limit.
#[derive(Clone, Copy, PartialEq, Eq, Debug)]
pub enum LimitKind {
    M1,
    M2,
    M3,
    M4,
    M5,
    M6,
    M7,
}

#[cfg(test)]
mod tests {
    use super::*;
    use std::test::Fail;

    #[test]
    fn a_list_grows_at_its_end(rt: HostRuntime) -> Result<(), Fail> {
        let mut words = List::new(rt.alloc());
        assert!(rt; words.as_slice().is_empty());
        for word in ["one", "two", "three"] {
            let word = String::from_str(rt.alloc(), word)?;
            words.push(word).map_err(|(_, refusal)| refusal)?;
        }
        let mut lengths = [0; 3];
        for (length, word) in lengths.iter_mut().zip(words.as_slice()) {
            *length = word.len();
        }
        assert_eq!(rt; words.as_slice().len(), 3);
        assert_eq!(rt; lengths, [3, 3, 5]);
        Ok(())
    }

    #[test]
    fn an_id_has_its_number(rt: HostRuntime) {
        for number in [0, 7, u32::MAX] {
            let class: ClassId = Id::of(number);
            assert_eq!(rt; class.number(), number);
        }
    }
}
