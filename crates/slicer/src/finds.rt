//! What a search has found: places in order, each once, with how a chain leads on from each.
ghost use Rattle.std.specs.Prelude.{◌≡◌, ◌+◌, ◌<◌, ◌≤◌, ◌↔◌, [], length, not, IfOk, IfSome, IfNone, IsTrue, Some, slice_get};
ghost use Rattle.slicer.specs.declared.finds.Found.{Found as AFound};
ghost use Rattle.jo_ids.specs.Rows.{has_number};
ghost use Rattle.slicer.specs.Finds.{place_at, AddsFound, HasNode, with_node, row_of_phase};

use dep_nodes::Word;
use jo_ids::{BitRow, Id, Memory, NodeId};
use std::alloc::Global;
use std::marker::Model;

/// What may be open where a chain goes on from a node: any calls in the first phase, none in the second.
#[derive(Clone, Copy, PartialEq, Eq)]
pub enum Phase {
    First,
    Second,
}

/// A node in a phase.
#[derive(Clone, Copy)]
pub struct Place {
    pub node: NodeId,
    pub phase: Phase,
}

/// How a chain leads on from a place: at a criterion not at all, else by a step to what was found before, by number.
#[derive(Clone, Copy)]
pub enum Way {
    Criterion,
    Step(Word, usize),
}

/// A place that was found.
#[derive(Clone, Copy)]
pub struct Found {
    pub place: Place,
    pub way: Way,
}

/// What was found in a graph so far, which contracts see as the list of it beside the graph's count of nodes.
#[derive(Drop)]
pub struct Finds {
    first: BitRow,
    second: BitRow,
    /// Room for each node in each phase, of which the places before the end are taken.
    places: Vec<Found>,
    end: usize,
}

impl Model for Finds {
    ghost use Rattle.std.specs.Prelude.{length, take};
    ghost use Rattle.slicer.specs.Finds.{Search, IsKept};

    ghost Value = { Search };

    ghost view = { λ f. record { count = length f.first; found = take f.end f.places.items } };

    ghost invariant = { λ f. IsKept f.first f.second f.places.items f.end };
}

impl Finds {
    /// Nothing is found, and there is room for the nodes of a graph with that count.
    pub fn with_len(alloc: Global, count: u32) -> Result<Finds, Memory>
        ensures count { IfOk result (λ finds. finds.count ≡ count) }
        ensures none { IfOk result (λ finds. finds.found ≡ []) }
    {
        let nothing = Found {
            place: Place {
                node: Id::of(0),
                phase: Phase::First,
            },
            way: Way::Criterion,
        };
        let first = BitRow::with_len(alloc, count)?;
        let second = BitRow::with_len(alloc, count)?;
        let places = vec![in alloc; nothing; count as usize * 2]?;
        Ok(Finds {
            first,
            second,
            places,
            end: 0,
        })
    }

    /// Forgets what was found.
    pub fn clear(&mut self)
        ensures count { self.new.count ≡ self.old.count }
        ensures none { self.new.found ≡ [] }
    {
        self.first.clear();
        self.second.clear();
        self.end = 0;
    }

    /// Adds the item behind what was found, unless its place is among it.
    pub fn add(&mut self, found: Found)
        requires { found.place.node < self.old.count }
        ensures count { self.new.count ≡ self.old.count }
        ensures added { AddsFound self.old.found found self.new.found }
    {
        if mark(&mut self.first, &mut self.second, &found.place) {
            let places = self.places.as_mut_slice();
            places[self.end] = found;
            self.end += 1;
        }
    }

    /// How many places were found.
    pub fn len(&self) -> usize
        ensures is { result ≡ length self.now.found }
        ensures most { result ≤ self.now.count + self.now.count }
    {
        self.end
    }

    /// What was found with that number.
    pub fn get(&self, number: usize) -> Found
        requires { number < length self.now.found }
        ensures is { slice_get self.now.found number ≡ Some result }
        ensures below { result.place.node < self.now.count }
        ensures most { length self.now.found ≤ self.now.count + self.now.count }
    {
        self.places[number]
    }

    /// The number of a place of the node.
    pub fn find(&self, node: NodeId) -> Option<usize>
        ensures some { IfSome result (λ k. k < length self.now.found) }
        ensures node { IfSome result (λ k. (d : AFound) → (place_at self.now.found k d).node ≡ node) }
        ensures none { IfNone result (HasNode self.now.found node → ⊥) }
    {
        for number in 0..self.end {
            if self.places[number].place.node.number() == node.number() {
                return Some(number);
            }
        }
        None
    }

    /// Whether the node was found in one of the phases.
    pub fn has(&self, node: NodeId) -> bool
        requires { node < self.now.count }
        ensures { IsTrue result ↔ HasNode self.now.found node }
    {
        self.first.has(node.number()) || self.second.has(node.number())
    }
}

/// Adds the node to the set of its phase, and says whether it was new there.
fn mark(first: &mut BitRow, second: &mut BitRow, place: &Place) -> bool
    requires first { place.now.node < length first.old }
    requires second { place.now.node < length second.old }
    ensures first { first.new ≡ with_node Phase.First place.now first.old }
    ensures second { second.new ≡ with_node Phase.Second place.now second.old }
    ensures new { result ≡ not (has_number (row_of_phase place.now.phase first.old second.old) place.now.node) }
{
    match place.phase {
        Phase::First => first.set(place.node.number()),
        Phase::Second => second.set(place.node.number()),
    }
}
