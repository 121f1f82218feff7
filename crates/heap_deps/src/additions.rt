//! What is added to a growing graph.
ghost use Rattle.std.specs.Prelude.{◌≡◌, ◌<◌, length};
ghost use Rattle.dep_nodes.specs.OneForm.{plain_cell};
ghost use Rattle.heap_deps.specs.Items.{access, edge, GrowsOrStops};

use dep_nodes::{Cell, DependenceGraph, EdgeKind, GraphFault};
use jo_ids::NodeId;

/// Adds an access of a node, unless it is there.
pub(crate) fn add_access(
    graph: &mut DependenceGraph,
    node: NodeId,
    cell: Cell,
    write: bool,
) -> Result<(), GraphFault>
    requires { node < length graph.old }
    ensures { GrowsOrStops result graph.old graph.new (λ x. x ≡ access node (record { cell = plain_cell cell; write = write })) }
{
    graph.add_access(node, cell, write)
}

/// Adds a heap edge, unless it is there.
pub(crate) fn add_heap_edge(
    graph: &mut DependenceGraph,
    from: NodeId,
    to: NodeId,
) -> Result<(), GraphFault>
    requires begins { from < length graph.old }
    requires ends { to < length graph.old }
    ensures { GrowsOrStops result graph.old graph.new (λ x. x ≡ edge from EdgeKind.Heap to) }
{
    graph.add_edge(from, EdgeKind::Heap, to)
}
