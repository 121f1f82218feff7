//! The forks of a dependence graph.
ghost use Rattle.std.specs.Prelude.{◌≡◌, ◌<◌, length, All, IfOk};
ghost use Rattle.dep_nodes.specs.Regions.{AreForks};
ghost use Rattle.thread_regions.specs.Forks.{starts_thread, MarksForks, AreNumbersOf};

use dep_nodes::{DependenceGraph, EdgeKind, NodeKind};
use jo_ids::{BitRow, Id, List, Memory, NodeId};
use std::alloc::Global;

/// The forks of a graph, by their numbers.
pub fn forks_of(alloc: Global, graph: &DependenceGraph) -> Result<List<NodeId>, Memory>
    ensures { IfOk result (λ forks. AreForks graph.now forks) }
{
    let mut forks = BitRow::with_len(alloc, graph.len())?;
    for n in 0..graph.len() {
        mark_forks(graph, graph.edges_into(Id::of(n)), &mut forks);
    }
    numbers_of(alloc, &forks)
}

/// Marks the Calls from which one of these edges leads as a fork edge.
fn mark_forks(graph: &DependenceGraph, edges: &[(NodeId, EdgeKind)], forks: &mut BitRow)
    requires size { length forks.old ≡ length graph.now }
    requires inside { All (λ edge. edge.0 < length graph.now) edges.now }
    ensures { MarksForks graph.now edges.now forks.old forks.new }
{
    for (from, kind) in edges {
        if starts_a_thread(*kind, graph.node(*from).kind) {
            forks.set(from.number());
        }
    }
}

/// Whether the edge is a fork edge and begins at a Call.
fn starts_a_thread(edge: EdgeKind, from: NodeKind) -> bool
    ensures { result ≡ starts_thread edge from }
{
    match edge {
        EdgeKind::Fork => match from {
            NodeKind::Call(_) => true,
            _ => false,
        },
        _ => false,
    }
}

/// The numbers of a set, in order.
fn numbers_of(alloc: Global, row: &BitRow) -> Result<List<NodeId>, Memory>
    ensures { IfOk result (λ numbers. AreNumbersOf row.now numbers) }
{
    let mut numbers = List::new(alloc);
    for n in 0..row.len() {
        if row.has(n) {
            match numbers.push(Id::of(n)) {
                Ok(()) => {}
                Err((_, memory)) => return Err(memory),
            }
        }
    }
    Ok(numbers)
}
