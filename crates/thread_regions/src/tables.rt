//! The child and the after region of each fork.
ghost use Rattle.std.specs.Prelude.{◌≡◌, ◌↔◌, List as Items, IsTrue};
ghost use Rattle.jo_ids.specs.Rows.{has_number};
ghost use Rattle.dep_nodes.specs.declared.dependence_graph.GraphNode.{GraphNode};
ghost use Rattle.dep_nodes.specs.Regions.{ParallelAt};
ghost use Rattle.thread_regions.specs.Regions.{AreRegions, IsLeastFork};

use jo_ids::{BitRow, List, NodeId};
use std::marker::Model;

/// What the thread that a fork starts may run, what it starts in turn included, and what may run behind the fork.
#[derive(Drop)]
pub struct ForkRegions {
    pub fork: NodeId,
    pub child: BitRow,
    pub after: BitRow,
}

impl ForkRegions {
    /// Whether the node is in the child region. No memory, constant time.
    pub fn in_child(&self, node: NodeId) -> bool
        ensures { result ≡ has_number self.now.child node }
    {
        node.number() < self.child.len() && self.child.has(node.number())
    }

    /// Whether the node is in the after region. No memory, constant time.
    pub fn in_after(&self, node: NodeId) -> bool
        ensures { result ≡ has_number self.now.after node }
    {
        node.number() < self.after.len() && self.after.has(node.number())
    }
}

/// The regions of all forks of a graph, which contracts see as the list of them, by the numbers of the forks.
#[derive(Drop)]
pub struct Regions {
    forks: List<ForkRegions>,
}

impl Model for Regions {
    ghost use Rattle.std.specs.Prelude.{List as Items};
    ghost use Rattle.thread_regions.specs.declared.tables.ForkRegions.{ForkRegions};

    ghost Value = { Items ForkRegions };

    ghost view = { λ r. r.forks };
}

impl Regions {
    /// The regions in this list.
    pub(crate) fn of(forks: List<ForkRegions>) -> Regions
        ensures { result ≡ forks }
    {
        Regions { forks }
    }

    /// The regions of each fork, by the numbers of the forks. No memory.
    pub fn as_slice(&self) -> &[ForkRegions]
        ensures { result.now ≡ self.now }
    {
        self.forks.as_slice()
    }

    /// The fork with the least number that has `a` in its child region and `b` in its after region. No memory, constant
    /// time a fork.
    pub fn parallel(&self, a: NodeId, b: NodeId) -> Option<NodeId>
        ensures { (nodes : Items GraphNode) → AreRegions nodes self.now → IsLeastFork nodes a b result }
    {
        for regions in self.forks.as_slice() {
            if regions.in_child(a) && regions.in_after(b) {
                return Some(regions.fork);
            }
        }
        None
    }

    /// Whether that node is a fork that has `a` in its child region and `b` in its after region. No memory.
    pub fn parallel_at(&self, fork: NodeId, a: NodeId, b: NodeId) -> bool
        ensures { (nodes : Items GraphNode) → AreRegions nodes self.now → IsTrue result ↔ ParallelAt nodes fork a b }
    {
        for regions in self.forks.as_slice() {
            if regions.fork == fork {
                return regions.in_child(a) && regions.in_after(b);
            }
        }
        false
    }
}
