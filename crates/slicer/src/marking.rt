//! Slices of one graph after another list of criteria.
ghost use Rattle.std.specs.Prelude.{◌≡◌, ◌↔◌, ℕ, ◌<◌, [], length, All, Contains, IfOk, IsTrue};
ghost use Rattle.dep_nodes.specs.NumberedChains.{AreSummaries};
ghost use Rattle.slicer.specs.declared.finds.Found.{Found as AFound};
ghost use Rattle.slicer.specs.Finds.{place_at, HasNode};
ghost use Rattle.slicer.specs.Slices.{IsCriterion, IsSearch, IsSlice, IsSlicerOf, IsChainToCriterion, AreStepsToCriterion};

use crate::finds::{Finds, Way};
use crate::search::{begin, spread};
use dep_nodes::{Chain, DependenceGraph, Step};
use jo_ids::{List, Memory, NodeId};
use std::alloc::Global;
use std::marker::Model;
use summary_edges::Summaries;

/// Marks the nodes of a graph from which a valid chain leads to a criterion. Contracts see its summary edges, the
/// graph's count of nodes, and what the last search found.
#[derive(Drop)]
pub struct Slicer {
    summaries: Summaries,
    finds: Finds,
    alloc: Global,
}

impl Model for Slicer {
    ghost use Rattle.slicer.specs.Slices.{Slices};

    ghost Value = { Slices };

    ghost view = { λ s. record { summaries = s.summaries; count = s.finds.count; found = s.finds.found } };
}

impl Slicer {
    /// A slicer of the graph with these summary edges, with no node marked. It takes all its memory here.
    pub fn new(
        alloc: Global,
        graph: &DependenceGraph,
        summaries: Summaries,
    ) -> Result<Slicer, Memory>
        requires { AreSummaries graph.now summaries }
        ensures made { IfOk result (λ slicer. IsSlicerOf graph.now slicer) }
        ensures none { IfOk result (λ slicer. slicer.found ≡ []) }
    {
        let finds = Finds::with_len(alloc, graph.len())?;
        Ok(Slicer {
            summaries,
            finds,
            alloc,
        })
    }

    /// Marks exactly the nodes from which a valid chain leads to a criterion. Each edge and each summary edge is looked
    /// at twice at most.
    pub fn mark(&mut self, graph: &DependenceGraph, criteria: &[NodeId])
        requires made { IsSlicerOf graph.now self.old }
        requires below { All (λ c. c < length graph.now) criteria.now }
        ensures made { IsSlicerOf graph.now self.new }
        ensures marked { IsSlice graph.now criteria.now self.new.found }
        ensures criteria { (n : ℕ) → IsCriterion self.new.found n ↔ Contains criteria.now n }
    {
        self.finds.clear();
        begin(&mut self.finds, criteria);
        spread(graph, &self.summaries, &mut self.finds);
    }

    /// Whether the node is marked.
    pub fn marked(&self, node: NodeId) -> bool
        requires { node < self.now.count }
        ensures { IsTrue result ↔ HasNode self.now.found node }
    {
        self.finds.has(node)
    }

    /// A valid chain from a marked node to a criterion, which passes calls by summary edges.
    pub fn chain(&self, graph: &DependenceGraph, from: NodeId) -> Result<Chain, Memory>
        requires made { IsSlicerOf graph.now self.now }
        requires marked { HasNode self.now.found from }
        ensures { IfOk result (λ chain. IsChainToCriterion graph.now self.now.found from chain) }
    {
        match self.finds.find(from) {
            Some(number) => {
                let steps = steps_from(self.alloc, graph, &self.finds, number)?;
                Ok(Chain { start: from, steps })
            }
            // never, as the node is marked
            None => Ok(Chain {
                start: from,
                steps: List::new(self.alloc),
            }),
        }
    }
}

/// The steps from what was found with that number to a criterion.
fn steps_from(
    alloc: Global,
    graph: &DependenceGraph,
    finds: &Finds,
    number: usize,
) -> Result<List<Step>, Memory>
    requires search { IsSearch graph.now finds.now.found }
    requires count { finds.now.count ≡ length graph.now }
    requires number { number < length finds.now.found }
    ensures { (d : AFound) → IfOk result
        (AreStepsToCriterion graph.now finds.now.found (place_at finds.now.found number d).node) }
{
    let mut number = number;
    let mut steps = List::new(alloc);
    while let Way::Step(word, next) = finds.get(number).way {
        let to = finds.get(next).place.node;
        match steps.push(Step { word, to }) {
            Ok(()) => number = next,
            Err((_, memory)) => return Err(memory),
        }
    }
    Ok(steps)
}
