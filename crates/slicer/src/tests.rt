//! Slices of graphs by hand.
ghost use Rattle.std.specs.Prelude.{◌≡◌, ◌<◌, length, IfOk};

use super::*;
use dep_nodes::{DependenceGraph, EdgeKind, GraphFault, NodeKind};
use jo_ids::{Id, Memory, NodeId};
use sample_graphs::name_in;
use std::alloc::Global;
use std::test::Fail;
use summary_edges::summaries;

/// The graph of these nodes, each a method and a kind, and edges between them.
fn graph_of(
    alloc: Global,
    nodes: &[(u32, NodeKind)],
    edges: &[(u32, EdgeKind, u32)],
) -> Result<DependenceGraph, GraphFault> {
    let mut graph = DependenceGraph::new(alloc);
    for (method, kind) in nodes {
        graph.add_node(name_in(*method, *kind))?;
    }
    for (from, kind, to) in edges {
        if *from < graph.len() && *to < graph.len() {
            graph.add_edge(Id::of(*from), *kind, Id::of(*to))?;
        }
    }
    Ok(graph)
}

/// The nodes from which a valid chain leads to the criterion, and how many steps the chain from each has.
fn slice(
    alloc: Global,
    graph: &DependenceGraph,
    criterion: u32,
) -> Result<Vec<(u32, usize)>, Memory> {
    let mut marked = Vec::new(alloc);
    if criterion >= graph.len() {
        return Ok(marked);
    }
    let mut slicer = Slicer::new(alloc, graph, summaries(alloc, graph)?)?;
    let criteria: [NodeId; 1] = [Id::of(criterion)];
    slicer.mark(graph, criteria.as_slice());
    for number in 0..graph.len() {
        if slicer.marked(Id::of(number)) {
            let chain = slicer.chain(graph, Id::of(number))?;
            marked.push((number, chain.steps.as_slice().len()))?;
        }
    }
    Ok(marked)
}

/// Two calls of a method at pcs 3 and 7, which gives its argument back, and hands it on to itself at pc 5.
fn calls(alloc: Global) -> Result<DependenceGraph, GraphFault> {
    let nodes = [
        (1, NodeKind::Arg(3, 0)),
        (1, NodeKind::RetVal(3)),
        (1, NodeKind::Arg(7, 0)),
        (1, NodeKind::RetVal(7)),
        (2, NodeKind::Param(0)),
        (2, NodeKind::Value),
        (2, NodeKind::Arg(5, 0)),
        (2, NodeKind::RetVal(5)),
    ];
    let edges = [
        (0, EdgeKind::Arg, 4),
        (2, EdgeKind::Arg, 4),
        (4, EdgeKind::Data, 5),
        (5, EdgeKind::Ret, 1),
        (5, EdgeKind::Ret, 3),
        (4, EdgeKind::Data, 6),
        (6, EdgeKind::Arg, 4),
        (5, EdgeKind::Ret, 7),
        (7, EdgeKind::Data, 5),
    ];
    graph_of(alloc, &nodes, &edges)
}

/// From a method's value to its caller's return at pc 3, on to the argument of a call at pc 7, into a method, and by an
/// edge of that kind to its value, which returns at pc 9.
fn up_and_down(alloc: Global, kind: EdgeKind) -> Result<DependenceGraph, GraphFault> {
    let nodes = [
        (2, NodeKind::Value),
        (1, NodeKind::RetVal(3)),
        (1, NodeKind::Arg(7, 0)),
        (3, NodeKind::Param(0)),
        (3, NodeKind::Value),
        (1, NodeKind::RetVal(9)),
    ];
    let edges = [
        (0, EdgeKind::Ret, 1),
        (1, EdgeKind::Data, 2),
        (2, EdgeKind::Arg, 3),
        (3, kind, 4),
        (4, EdgeKind::Ret, 5),
    ];
    graph_of(alloc, &nodes, &edges)
}

#[test]
fn a_call_returns_to_itself(rt: HostRuntime) -> Result<(), Fail> {
    let Ok(graph) = calls(rt.alloc()) else {
        return Err(Fail::from("no room"));
    };
    // not by the other call, and past the call itself in one step
    let first = slice(rt.alloc(), &graph, 1)?;
    assert_eq!(rt;
        first.as_slice(),
        [(0, 1), (1, 0), (4, 2), (5, 1), (6, 3), (7, 2)].as_slice()
    );
    // into the method from both calls
    let inside = slice(rt.alloc(), &graph, 4)?;
    assert_eq!(rt;
        inside.as_slice(),
        [(0, 1), (2, 1), (4, 0), (6, 1)].as_slice()
    );
    Ok(())
}

#[test]
fn up_comes_before_down(rt: HostRuntime) -> Result<(), Fail> {
    let Ok(graph) = up_and_down(rt.alloc(), EdgeKind::Data) else {
        return Err(Fail::from("no room"));
    };
    let down = slice(rt.alloc(), &graph, 4)?;
    assert_eq!(rt;
        down.as_slice(),
        [(0, 4), (1, 3), (2, 2), (3, 1), (4, 0)].as_slice()
    );
    // the call at pc 7 doesn't return at pc 9
    let up = slice(rt.alloc(), &graph, 5)?;
    assert_eq!(rt; up.as_slice(), [(3, 2), (4, 1), (5, 0)].as_slice());
    Ok(())
}

#[test]
fn a_heap_edge_begins_anew(rt: HostRuntime) -> Result<(), Fail> {
    let Ok(graph) = up_and_down(rt.alloc(), EdgeKind::Heap) else {
        return Err(Fail::from("no room"));
    };
    let all = slice(rt.alloc(), &graph, 5)?;
    assert_eq!(rt;
        all.as_slice(),
        [(0, 5), (1, 4), (2, 3), (3, 2), (4, 1), (5, 0)].as_slice()
    );
    Ok(())
}
