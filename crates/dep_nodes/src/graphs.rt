//! The graph itself: nodes and edges.

use crate::kinds::{EdgeKind, NodeKind};
use jo_ids::{List, MethodId, NodeId, SiteList};

/// A node: the method and context of its instance, its kind, and for a `Call`, an `Arg` or a `RetVal` the method that its
/// instruction resolves to.
#[derive(Clone, Copy)]
pub struct NodeName {
    pub method: MethodId,
    pub sites: SiteList,
    pub kind: NodeKind,
    pub resolved: Option<MethodId>,
}

/// A dependence edge between two nodes of a graph.
#[derive(Clone, Copy)]
pub struct Edge {
    pub from: NodeId,
    pub kind: EdgeKind,
    pub to: NodeId,
}

/// A dependence graph: its nodes in order, and its edges.
#[derive(Drop)]
pub struct Graph {
    pub nodes: List<NodeName>,
    pub edges: List<Edge>,
}
