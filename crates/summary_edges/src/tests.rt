//! Graphs by hand, each with the pairs that it has.
use crate::{Summaries, summaries};
use dep_nodes::{DependenceGraph, EdgeKind, GraphFault, NodeKind, NodeName, SiteList};
use jo_ids::{Id, Memory};
use std::alloc::Global;
use std::test::Fail;

/// A node: its method and its kind.
type Place = (u32, NodeKind);

/// The ends of an edge by their numbers, and its kind.
type Way = (u32, EdgeKind, u32);

fn add_node(graph: &mut DependenceGraph, place: &Place) -> Result<(), GraphFault> {
    let sites = SiteList {
        len: 0,
        first: Id::of(0),
        second: Id::of(0),
    };
    graph.add_node(NodeName {
        method: Id::of(place.0),
        sites,
        kind: place.1,
        resolved: None,
    })?;
    Ok(())
}

fn add_way(graph: &mut DependenceGraph, way: &Way) -> Result<(), GraphFault> {
    if way.0 < graph.len() && way.2 < graph.len() {
        graph.add_edge(Id::of(way.0), way.1, Id::of(way.2))?;
    }
    Ok(())
}

fn graph_of(alloc: Global, places: &[Place], ways: &[Way]) -> Result<DependenceGraph, GraphFault> {
    let mut graph = DependenceGraph::new(alloc);
    for place in places {
        add_node(&mut graph, place)?;
    }
    for way in ways {
        add_way(&mut graph, way)?;
    }
    Ok(graph)
}

/// The pairs of a graph.
fn pairs_of(alloc: Global, places: &[Place], ways: &[Way]) -> Result<Option<Summaries>, Memory> {
    match graph_of(alloc, places, ways) {
        Ok(graph) => Ok(Some(summaries(alloc, &graph)?)),
        Err(_) => Ok(None),
    }
}

/// Whether these are pairs and those are none.
fn has_just(pairs: &Option<Summaries>, there: &[(u32, u32)], missing: &[(u32, u32)]) -> bool {
    match pairs {
        None => false,
        Some(pairs) => {
            there.iter().all(|(a, b)| pairs.has(Id::of(*a), Id::of(*b)))
                && !missing
                    .iter()
                    .any(|(a, b)| pairs.has(Id::of(*a), Id::of(*b)))
        }
    }
}

/// Two calls of one method, whose parameter is its value.
const CALLED_TWICE: [Place; 6] = [
    (1, NodeKind::Arg(3, 0)),
    (1, NodeKind::RetVal(3)),
    (1, NodeKind::Arg(9, 0)),
    (1, NodeKind::RetVal(9)),
    (2, NodeKind::Param(0)),
    (2, NodeKind::Value),
];

#[test]
fn a_return_goes_to_its_own_call(rt: HostRuntime) -> Result<(), Fail> {
    let ways = [
        (0, EdgeKind::Arg, 4),
        (2, EdgeKind::Arg, 4),
        (4, EdgeKind::Data, 5),
        (5, EdgeKind::Ret, 1),
        (5, EdgeKind::Ret, 3),
    ];
    let pairs = pairs_of(rt.alloc(), &CALLED_TWICE, &ways)?;
    assert!(rt; has_just(&pairs, &[(0, 1), (2, 3)], &[(0, 3), (2, 1), (4, 5), (1, 0)]));
    Ok(())
}

#[test]
fn what_is_never_left_has_no_pair(rt: HostRuntime) -> Result<(), Fail> {
    let ways = [
        (0, EdgeKind::Arg, 4),
        (4, EdgeKind::Heap, 5),
        (5, EdgeKind::Ret, 1),
        (2, EdgeKind::Data, 3),
    ];
    let pairs = pairs_of(rt.alloc(), &CALLED_TWICE, &ways)?;
    assert!(rt; has_just(&pairs, &[(2, 3)], &[(0, 1), (0, 3), (2, 1)]));
    Ok(())
}

#[test]
fn a_method_that_calls_itself_ends_where_it_can(rt: HostRuntime) -> Result<(), Fail> {
    let places = [
        (1, NodeKind::Arg(3, 0)),
        (1, NodeKind::RetVal(3)),
        (2, NodeKind::Param(0)),
        (2, NodeKind::Value),
        (2, NodeKind::Arg(5, 0)),
        (2, NodeKind::RetVal(5)),
    ];
    let ways = [
        (0, EdgeKind::Arg, 2),
        (3, EdgeKind::Ret, 1),
        (2, EdgeKind::Data, 4),
        (4, EdgeKind::Arg, 2),
        (3, EdgeKind::Ret, 5),
        (5, EdgeKind::Data, 3),
        (2, EdgeKind::Control, 3),
    ];
    let pairs = pairs_of(rt.alloc(), &places, &ways)?;
    assert!(rt; has_just(&pairs, &[(0, 1), (4, 5)], &[(0, 5), (4, 1)]));
    let pairs = pairs_of(rt.alloc(), &places, &ways[..6])?;
    assert!(rt; has_just(&pairs, &[], &[(0, 1), (4, 5), (0, 5), (4, 1)]));
    Ok(())
}

/// Adds the method with that number, which calls the one below twice.
fn add_caller(graph: &mut DependenceGraph, method: u32) -> Result<(), GraphFault> {
    for kind in [
        NodeKind::Param(0),
        NodeKind::Arg(1, 0),
        NodeKind::RetVal(1),
        NodeKind::Arg(4, 0),
        NodeKind::RetVal(4),
        NodeKind::Value,
    ] {
        add_node(graph, &(method, kind))?;
    }
    let base = method.min(1000) * 6;
    let below = base.saturating_sub(6);
    for way in [
        (base, EdgeKind::Data, base + 1),
        (base + 2, EdgeKind::Data, base + 3),
        (base + 4, EdgeKind::Data, base + 5),
        (base + 1, EdgeKind::Arg, below),
        (base + 3, EdgeKind::Arg, below),
        (below + 5, EdgeKind::Ret, base + 2),
        (below + 5, EdgeKind::Ret, base + 4),
    ] {
        add_way(graph, &way)?;
    }
    Ok(())
}

/// So many methods, each of which calls the one below twice; the last one hands its parameter on.
fn nested(alloc: Global, count: u32) -> Result<DependenceGraph, GraphFault> {
    let mut graph = DependenceGraph::new(alloc);
    for method in 0..count {
        add_caller(&mut graph, method)?;
    }
    add_way(&mut graph, &(0, EdgeKind::Data, 5))?;
    Ok(graph)
}

#[test]
fn calls_nest_deep(rt: HostRuntime) -> Result<(), Fail> {
    let Ok(graph) = nested(rt.alloc(), 41) else {
        return Err(Fail::from("no room"));
    };
    let pairs = Some(summaries(rt.alloc(), &graph)?);
    assert!(rt;
        has_just(
            &pairs,
            &[(241, 242), (243, 244), (7, 8)],
            &[(241, 244), (0, 5), (240, 245)]
        )
    );
    Ok(())
}
