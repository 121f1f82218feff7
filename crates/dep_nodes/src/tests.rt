//! Small graphs, and chains by hand.
ghost use Rattle.std.specs.Prelude.{◌≡◌, ◌<◌, length, IfOk};
ghost use Rattle.dep_nodes.specs.Chains.{IsValidChain};
ghost use Rattle.dep_nodes.specs.ChainExamples.{AnyEdge, call_node, in_and_back_to};

use crate::{Access, Cell, DependenceGraph, EdgeKind, GraphFault, NodeKind, NodeName, SiteList};
use jo_ids::{Id, LimitKind, MethodId, NodeId};
use std::alloc::Global;
use std::test::Fail;

/// A chain into a method and back to its call is valid; one back to another call isn't.
fn chains_by_hand()
    ensures back { IsValidChain AnyEdge (call_node 3) (in_and_back_to 3) }
    ensures elsewhere { IsValidChain AnyEdge (call_node 3) (in_and_back_to 7) → ⊥ }
{}

fn name(kind: NodeKind) -> NodeName {
    NodeName {
        method: Id::of(4),
        sites: SiteList {
            len: 0,
            first: Id::of(0),
            second: Id::of(0),
        },
        kind,
        resolved: None,
    }
}

/// The graph of an entry and an exit.
fn two_nodes(alloc: Global) -> Result<DependenceGraph, GraphFault>
    ensures { IfOk result (λ graph. length graph ≡ 2) }
{
    let mut graph = DependenceGraph::new(alloc);
    graph.add_node(name(NodeKind::Entry))?;
    graph.add_node(name(NodeKind::Exit))?;
    Ok(graph)
}

/// How many edges end at the exit, flow edges begin at it, and accesses it has.
fn counts(graph: &DependenceGraph) -> (usize, usize, usize)
    requires { length graph.now ≡ 2 }
{
    let exit: NodeId = Id::of(1);
    (
        graph.edges_into(exit).len(),
        graph.flows_from(exit).len(),
        graph.accesses(exit).len(),
    )
}

/// How many cells there are, and how many accesses the first has.
fn listed(graph: &DependenceGraph) -> (usize, usize) {
    let cells = graph.cells();
    let accessors = match cells.first() {
        Some(first) => first.accessors.as_slice().len(),
        None => 0,
    };
    (cells.len(), accessors)
}

/// Two edges, a flow edge and two accesses, each added twice.
fn filled(alloc: Global) -> Result<DependenceGraph, GraphFault>
    ensures { IfOk result (λ graph. length graph ≡ 2) }
{
    let mut graph = two_nodes(alloc)?;
    let entry: NodeId = Id::of(0);
    let exit: NodeId = Id::of(1);
    let method: MethodId = Id::of(4);
    graph.add_edge(entry, EdgeKind::Data, exit)?;
    graph.add_edge(entry, EdgeKind::Data, exit)?;
    graph.add_edge(entry, EdgeKind::Control, exit)?;
    graph.add_access(exit, Cell::Cursor(method), true)?;
    graph.add_access(exit, Cell::Cursor(method), true)?;
    graph.add_access(exit, Cell::Cursor(method), false)?;
    Ok(graph)
}

#[test]
fn what_is_added_twice_is_there_once(rt: HostRuntime) -> Result<(), Fail> {
    chains_by_hand();
    let Ok(mut graph) = filled(rt.alloc()) else {
        return Err(Fail::from("no room"));
    };
    let entry: NodeId = Id::of(0);
    let exit: NodeId = Id::of(1);
    graph.add_flow(exit, entry)?;
    graph.add_flow(exit, entry)?;
    assert_eq!(rt; counts(&graph), (2, 1, 2));
    assert_eq!(rt; listed(&graph), (1, 2));
    assert_eq!(rt; graph.edges_into(entry).len(), 0);
    assert!(rt; graph.node(exit).kind == NodeKind::Exit);
    Ok(())
}

/// A node with that many edges from nodes of their own, each added twice.
fn star(alloc: Global, count: u32) -> Result<DependenceGraph, GraphFault>
    ensures { IfOk result (λ graph. 0 < length graph) }
{
    let mut graph = DependenceGraph::new(alloc);
    let end = graph.add_node(name(NodeKind::Exit))?;
    'edges: for _ in 0..count {
        let begin = graph.add_node(name(NodeKind::Entry))?;
        graph.add_edge(begin, EdgeKind::Data, end)?;
        graph.add_edge(begin, EdgeKind::Data, end)?;
    }
    Ok(graph)
}

#[test]
fn many_edges_end_at_one_node(rt: HostRuntime) -> Result<(), Fail> {
    let Ok(graph) = star(rt.alloc(), 50_000) else {
        return Err(Fail::from("no room"));
    };
    assert_eq!(rt; graph.edges_into(Id::of(0)).len(), 50_000);
    Ok(())
}

/// A graph of that many nodes.
fn nodes(alloc: Global, count: u32) -> Result<DependenceGraph, GraphFault> {
    let mut graph = DependenceGraph::new(alloc);
    'nodes: for _ in 0..count {
        graph.add_node(name(NodeKind::Kind))?;
    }
    Ok(graph)
}

#[test]
fn a_full_graph_takes_no_node(rt: HostRuntime) -> Result<(), Fail> {
    let Ok(mut graph) = nodes(rt.alloc(), 400_000) else {
        return Err(Fail::from("no room"));
    };
    let refused = match graph.add_node(name(NodeKind::Value)) {
        Ok(_) => None,
        Err(fault) => Some(fault),
    };
    assert!(rt; refused == Some(GraphFault::Limit(LimitKind::M5)));
    assert_eq!(rt; graph.len(), 400_000);
    Ok(())
}
