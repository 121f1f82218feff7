//! Chains of steps through a graph.

use crate::kinds::EdgeKind;
use jo_ids::{List, NodeId};

/// What a printed step says: an edge, or a matched path through a call.
#[derive(Clone, Copy)]
pub enum Word {
    Edge(EdgeKind),
    Pass,
}

/// A step of a chain to the next node.
#[derive(Clone, Copy)]
pub struct Step {
    pub word: Word,
    pub to: NodeId,
}

/// A chain of steps from a first node.
#[derive(Drop)]
pub struct Chain {
    pub start: NodeId,
    pub steps: List<Step>,
}
