//! Methods or sites, each in a context, with the numbers that they get at their first naming.
ghost use Rattle.std.specs.Prelude.{◌≡◌, ◌<◌, [], length, take, slice_get, Contains, Some, IfNone, IfOk, IfSome, OnErr, OnOk};
ghost use Rattle.std.specs.Bool.{Decides};
ghost use Rattle.dep_nodes.specs.OnceLists.{IsOnceEach};
ghost use Rattle.dep_nodes.specs.GrowingGraphs.{AppendsNew};

use indexmap::IndexSet;
use jo_ids::Memory;
use std::alloc::Global;
use std::hash::Hash;
use std::marker::Model;

/// Pairs of a number and a context, each once, which contracts see as the list of them.
#[derive(Drop)]
pub struct Numbering<C: Copy + Ord + Hash> {
    pairs: IndexSet<(u32, C)>,
}

impl<C: Copy + Ord + Hash> Model for Numbering<C> {
    ghost use Rattle.std.specs.Prelude.{◌≡◌, List as Items, ℕ};
    ghost use Rattle.std.specs.Bool.{Decides};
    ghost use Rattle.std.specs.Coded.{coded_list, coded×, coded_ℕ};

    ghost Value = { Items (ℕ × C) };

    ghost coded = { coded_list (coded× coded_ℕ C.code) };

    ghost view = { λ n. n.pairs.keys };

    ghost invariant = { λ n. (a b : C) → Decides (C.eq a b) (a ≡ b) };
}

impl<C: Copy + Ord + Hash> Numbering<C> {
    /// No pairs. It takes no memory.
    pub(crate) fn new(alloc: Global) -> Numbering<C>
        requires { (a b : C) → Decides (C.eq a b) (a ≡ b) }
        ensures { result ≡ [] }
    {
        Numbering {
            pairs: IndexSet::new(alloc),
        }
    }

    pub(crate) fn len(&self) -> usize
        ensures count { result ≡ length self.now }
        ensures once { IsOnceEach self.now }
    {
        self.pairs.len()
    }

    /// The place of the pair.
    pub(crate) fn find(&self, number: u32, context: C) -> Option<usize>
        ensures found { IfSome result (λ place. slice_get self.now place ≡ Some (number, context)) }
        ensures absent { IfNone result (Contains self.now (number, context) → ⊥) }
    {
        self.pairs.get_index_of(&(number, context))
    }

    /// The pair at a place.
    pub(crate) fn at(&self, place: usize) -> (u32, C)
        requires { place < length self.now }
        ensures { slice_get self.now place ≡ Some result }
    {
        self.pairs.as_slice()[place]
    }

    /// Adds the pair, unless it is there, and gives its place.
    pub(crate) fn name(&mut self, number: u32, context: C) -> Result<usize, Memory>
        ensures place { IfOk result (λ place. slice_get self.new place ≡ Some (number, context)) }
        ensures ok { OnOk result (AppendsNew self.old (number, context) self.new) }
        ensures err { OnErr result (self.new ≡ self.old) }
    {
        match self.pairs.insert_full((number, context)) {
            Ok((place, _)) => Ok(place),
            Err(_) => Err(Memory),
        }
    }

    /// Keeps the first pairs.
    pub(crate) fn cut(&mut self, len: usize)
        ensures { self.new ≡ take len self.old }
    {
        self.pairs.truncate(len);
    }
}
