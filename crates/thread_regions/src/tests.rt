//! Regions of small graphs.
use crate::{Regions, regions};
use dep_nodes::{DependenceGraph, EdgeKind, GraphFault, NodeKind};
use jo_ids::{Id, LimitKind};
use sample_graphs::{add_flow, name_in};
use std::alloc::Global;
use std::test::Fail;

fn add_edge(
    graph: &mut DependenceGraph,
    from: u32,
    kind: EdgeKind,
    to: u32,
) -> Result<(), GraphFault> {
    if from >= graph.len() || to >= graph.len() {
        return Ok(());
    }
    graph.add_edge(Id::of(from), kind, Id::of(to))
}

/// The regions of a graph with these nodes, each with its method, these flow edges and these dependence edges.
fn regions_by_hand(
    alloc: Global,
    names: &[(u32, NodeKind)],
    flows: &[(u32, u32)],
    edges: &[(u32, EdgeKind, u32)],
) -> Result<Regions, GraphFault> {
    let mut graph = DependenceGraph::new(alloc);
    for (method, kind) in names {
        graph.add_node(name_in(*method, *kind))?;
    }
    for (from, to) in flows {
        add_flow(&mut graph, *from, *to)?;
    }
    for (from, kind, to) in edges {
        add_edge(&mut graph, *from, *kind, *to)?;
    }
    regions(alloc, &graph)
}

/// The fork at which the two nodes are parallel, or 99.
fn fork_of(regions: &Regions, a: u32, b: u32) -> u32 {
    match regions.parallel(Id::of(a), Id::of(b)) {
        Some(fork) => fork.number(),
        None => 99,
    }
}

#[test]
fn a_start_in_a_loop_runs_beside_itself(rt: HostRuntime) -> Result<(), Fail> {
    let names = [
        (0, NodeKind::Call(9)),
        (0, NodeKind::RetKind(9)),
        (1, NodeKind::Entry),
        (1, NodeKind::Instr(1)),
        (1, NodeKind::Exit),
    ];
    let flows = [(0, 1), (1, 0), (2, 3), (3, 4)];
    let Ok(regions) = regions_by_hand(rt.alloc(), &names, &flows, &[(0, EdgeKind::Fork, 2)]) else {
        return Err(Fail::from("no room"));
    };
    assert_eq!(rt; fork_of(&regions, 3, 3), 0);
    assert_eq!(rt; fork_of(&regions, 3, 1), 0);
    assert_eq!(rt; fork_of(&regions, 1, 3), 99);
    assert!(rt; regions.parallel_at(Id::of(0), Id::of(4), Id::of(2)));
    assert!(rt; !regions.parallel_at(Id::of(0), Id::of(1), Id::of(1)));
    assert!(rt; !regions.parallel_at(Id::of(2), Id::of(3), Id::of(3)));
    Ok(())
}

#[test]
fn siblings_run_beside_each_other(rt: HostRuntime) -> Result<(), Fail> {
    let names = [
        (0, NodeKind::Call(1)),
        (0, NodeKind::Call(2)),
        (0, NodeKind::Exit),
        (1, NodeKind::Entry),
        (2, NodeKind::Entry),
    ];
    let edges = [
        (0, EdgeKind::Fork, 3),
        (1, EdgeKind::Fork, 4),
        (2, EdgeKind::Data, 3),
    ];
    let Ok(regions) = regions_by_hand(rt.alloc(), &names, &[(0, 1), (1, 2)], &edges) else {
        return Err(Fail::from("no room"));
    };
    assert_eq!(rt; fork_of(&regions, 3, 4), 0);
    assert_eq!(rt; fork_of(&regions, 4, 3), 99);
    assert_eq!(rt; fork_of(&regions, 3, 2), 0);
    assert_eq!(rt; fork_of(&regions, 4, 2), 1);
    Ok(())
}

#[test]
fn what_a_callee_starts_runs_beside_its_callers(rt: HostRuntime) -> Result<(), Fail> {
    let names = [
        (0, NodeKind::Call(3)),
        (0, NodeKind::RetKind(3)),
        (0, NodeKind::Instr(5)),
        (2, NodeKind::Entry),
        (2, NodeKind::Call(7)),
        (2, NodeKind::RetKind(7)),
        (2, NodeKind::Exit),
        (3, NodeKind::Entry),
        (1, NodeKind::Call(4)),
        (1, NodeKind::RetKind(4)),
        (0, NodeKind::RetKind(6)),
    ];
    let flows = [(1, 2), (3, 4), (4, 5), (5, 6)];
    let edges = [
        (0, EdgeKind::Call, 3),
        (8, EdgeKind::Call, 3),
        (4, EdgeKind::Fork, 7),
    ];
    let Ok(regions) = regions_by_hand(rt.alloc(), &names, &flows, &edges) else {
        return Err(Fail::from("no room"));
    };
    for after in [1, 2, 5, 6, 9] {
        assert_eq!(rt; fork_of(&regions, 7, after), 4);
    }
    for before in [0, 3, 4, 7, 8, 10] {
        assert_eq!(rt; fork_of(&regions, 7, before), 99);
    }
    Ok(())
}

/// Whether a graph with that many forks is refused for its forks.
fn is_too_many(alloc: Global, forks: u32) -> bool {
    let mut graph = DependenceGraph::new(alloc);
    for n in 0..forks {
        let added = graph.add_node(name_in(0, NodeKind::Call(n)));
        if added.is_err() || add_edge(&mut graph, n, EdgeKind::Fork, n).is_err() {
            return false;
        }
    }
    match regions(alloc, &graph) {
        Err(GraphFault::Limit(kind)) => kind == LimitKind::M7,
        _ => false,
    }
}

#[test]
fn there_may_be_256_forks(rt: HostRuntime) -> Result<(), Fail> {
    assert!(rt; !is_too_many(rt.alloc(), 256));
    assert!(rt; is_too_many(rt.alloc(), 257));
    Ok(())
}
