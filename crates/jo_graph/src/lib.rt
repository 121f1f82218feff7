//! Directed graphs over numbers, and what can be reached in them.
#![tactic(auto)]

ghost use Rattle.std.specs.Prelude.{◌≡◌, ℕ, ◌<◌, [], length, replicate, slice_index, IfOk, OnErr, OnOk, Contains};
ghost use Rattle.jo_graph.specs.Graphs.{AddsEdge, IsReach};
ghost use Rattle.jo_graph.specs.Queues.{IsQueueOf, Follows, LeadsInside};

pub use jo_ids::Memory;
use jo_ids::{BitRow, List};
use std::alloc::Global;
use std::marker::Model;

/// A directed graph over the numbers below a count, which contracts see as the list of each number's successors.
#[derive(Drop)]
pub struct Digraph {
    successors: Vec<List<u32>>,
}

impl Model for Digraph {
    ghost use Rattle.std.specs.Prelude.{List as Items, ℕ};
    ghost use Rattle.jo_graph.specs.Queues.{LeadsInside};

    ghost Value = { Items (Items ℕ) };

    ghost view = { λ g. g.successors.items };

    ghost invariant = { λ g. LeadsInside g.successors.items };
}

/// The room for a search in a graph, which contracts see as the greatest count of nodes that it is enough for.
#[derive(Drop)]
pub struct Work {
    places: Vec<u32>,
}

impl Model for Work {
    ghost use Rattle.std.specs.Prelude.{ℕ};

    ghost Value = { ℕ };

    ghost view = { λ w. w.places.len };
}

impl Work {
    /// Room for a graph over the numbers below `len`.
    pub fn with_len(alloc: Global, len: u32) -> Result<Work, Memory>
        ensures { IfOk result (λ work. work ≡ len) }
    {
        let places = vec![in alloc; 0; len as usize]?;
        Ok(Work { places })
    }
}

impl Digraph {
    /// The graph over the numbers below `len` that has no edge.
    pub fn new(alloc: Global, len: u32) -> Result<Digraph, Memory>
        ensures { IfOk result (λ graph. graph ≡ replicate len []) }
    {
        let mut successors = Vec::new(alloc);
        for _ in 0..len {
            successors.push(List::new(alloc))?;
        }
        Ok(Digraph { successors })
    }

    /// Adds the edge from `a` to `b`. A refusal leaves the graph as it was.
    pub fn add(&mut self, a: u32, b: u32) -> Result<(), Memory>
        requires from { a < length self.old }
        requires to { b < length self.old }
        ensures ok { OnOk result (AddsEdge self.old self.new a b) }
        ensures err { OnErr result (self.new ≡ self.old) }
    {
        match self.successors[a as usize].push(b) {
            Ok(()) => Ok(()),
            Err((_, memory)) => Err(memory),
        }
    }

    /// Makes `found` the set of the numbers to which a path leads from `start`. Each edge that is reached is looked at once,
    /// and each word of `found` once more.
    pub fn reach(&self, start: u32, found: &mut BitRow, work: &mut Work)
        requires start { start < length self.now }
        requires found { length found.old ≡ length self.now }
        requires work { work.old ≡ length self.now }
        ensures reached { IsReach self.now start found.new }
        ensures work { work.new ≡ work.old }
    {
        found.clear();
        found.set(start);
        let queue = work.places.as_mut_slice();
        queue[0] = start;
        spread(self.successors.as_slice(), found, queue);
    }
}

/// Follows the edges from the first node of the queue, and on from each node that they lead to.
fn spread(graph: &[List<u32>], found: &mut BitRow, queue: &mut [u32])
    requires inside { LeadsInside graph.now }
    requires room { length queue.old ≡ length graph.now }
    requires first { IsQueueOf found.old queue.old 1 }
    ensures { IsReach graph.now (slice_index queue.old 0) found.new }
{
    let mut done = 0;
    let mut end = 1;
    while done < end {
        let node = queue[done];
        end = follow(graph[node as usize].as_slice(), found, queue, end);
        done += 1;
    }
}

/// Adds the numbers that are new to the set and behind the queue's end, and gives its new end.
fn follow(numbers: &[u32], found: &mut BitRow, queue: &mut [u32], end: usize) -> usize
    requires inside { (n : ℕ) → Contains numbers.now n → n < length found.old }
    requires queue { IsQueueOf found.old queue.old end }
    ensures { Follows numbers.now found.old queue.old end found.new queue.new result }
{
    let mut end = end;
    for number in numbers {
        if found.set(*number) {
            queue[end] = *number;
            end += 1;
        }
    }
    end
}

#[cfg(test)]
mod tests;
