//! Conflicts of small graphs.
ghost use Rattle.std.specs.Prelude.{◌≡◌, length, IfOk};

use crate::find;
use dep_nodes::{Cell, DependenceGraph, EdgeKind, GraphFault, NodeKind};
use jo_ids::{BitRow, Id, Memory};
use sample_graphs::{add_flow, name_in};
use std::alloc::Global;
use std::test::Fail;
use thread_regions::regions;

fn add_access(
    graph: &mut DependenceGraph,
    node: u32,
    field: u32,
    write: bool,
) -> Result<(), GraphFault> {
    if node >= graph.len() {
        return Ok(());
    }
    graph.add_access(Id::of(node), Cell::Static(Id::of(field)), write)
}

/// Node 0 starts the thread of nodes 3 and 4 and goes on to nodes 1 and 2; there may be one more flow edge.
fn graph_of(
    alloc: Global,
    more: (u32, u32),
    accesses: &[(u32, u32, bool)],
) -> Result<DependenceGraph, GraphFault> {
    let mut graph = DependenceGraph::new(alloc);
    let names = [
        (0, NodeKind::Call(1)),
        (0, NodeKind::Instr(4)),
        (0, NodeKind::Call(5)),
        (1, NodeKind::Entry),
        (1, NodeKind::Call(1)),
    ];
    for (method, kind) in &names {
        graph.add_node(name_in(*method, *kind))?;
    }
    for (from, to) in &[(0, 1), (1, 2), (3, 4), more] {
        add_flow(&mut graph, *from, *to)?;
    }
    if graph.len() > 3 {
        graph.add_edge(Id::of(0), EdgeKind::Fork, Id::of(3))?;
    }
    for (node, field, write) in accesses {
        add_access(&mut graph, *node, *field, *write)?;
    }
    Ok(graph)
}

fn row(alloc: Global, len: u32, numbers: &[u32]) -> Result<BitRow, Memory>
    ensures { IfOk result (λ row. length row ≡ len) }
{
    let mut row = BitRow::with_len(alloc, len)?;
    for number in numbers {
        if *number < row.len() {
            row.set(*number);
        }
    }
    Ok(row)
}

/// What is found, as "order" or "data", the node inside and the node after; "none" where nothing is found.
fn found(
    alloc: Global,
    graph: &DependenceGraph,
    visible: &[u32],
    leads: &[u32],
) -> Result<(&'static str, u32, u32), GraphFault> {
    let regions = regions(alloc, graph)?;
    let Ok(visible) = row(alloc, graph.len(), visible) else {
        return Err(GraphFault::Memory);
    };
    let Ok(leads) = row(alloc, graph.len(), leads) else {
        return Err(GraphFault::Memory);
    };
    match find(graph, &regions, &visible, &leads) {
        Some(conflict) => {
            let word = if conflict.order { "order" } else { "data" };
            Ok((word, conflict.inside.number(), conflict.after.number()))
        }
        None => Ok(("none", 0, 0)),
    }
}

/// What is found in the graph with these accesses.
fn with_accesses(
    alloc: Global,
    more: (u32, u32),
    accesses: &[(u32, u32, bool)],
    visible: &[u32],
    leads: &[u32],
) -> (&'static str, u32, u32) {
    match graph_of(alloc, more, accesses) {
        Ok(graph) => match found(alloc, &graph, visible, leads) {
            Ok(found) => found,
            Err(_) => ("no room", 0, 0),
        },
        Err(_) => ("no room", 0, 0),
    }
}

#[test]
fn one_side_writes_what_the_other_accesses(rt: HostRuntime) -> Result<(), Fail> {
    let alloc = rt.alloc();
    let writes = [(4, 7, true), (1, 7, false)];
    assert_eq!(rt;
        with_accesses(alloc, (0, 1), &writes, &[], &[1, 4]),
        ("data", 4, 1)
    );
    assert_eq!(rt;
        with_accesses(alloc, (0, 1), &writes, &[], &[4]),
        ("none", 0, 0)
    );
    let written = [(4, 7, false), (1, 7, true)];
    assert_eq!(rt;
        with_accesses(alloc, (0, 1), &written, &[], &[1, 4]),
        ("data", 4, 1)
    );
    let reads = [(4, 7, false), (1, 7, false)];
    assert_eq!(rt;
        with_accesses(alloc, (0, 1), &reads, &[], &[1, 4]),
        ("none", 0, 0)
    );
    let second_cell = [(4, 8, true), (4, 7, false), (1, 7, true)];
    assert_eq!(rt;
        with_accesses(alloc, (0, 1), &second_cell, &[], &[1, 4]),
        ("data", 4, 1)
    );
    let apart = [(4, 7, true), (1, 8, true)];
    assert_eq!(rt;
        with_accesses(alloc, (0, 1), &apart, &[], &[1, 4]),
        ("none", 0, 0)
    );
    Ok(())
}

#[test]
fn order_comes_before_data(rt: HostRuntime) -> Result<(), Fail> {
    let alloc = rt.alloc();
    let writes = [(4, 7, true), (1, 7, false)];
    assert_eq!(rt;
        with_accesses(alloc, (0, 1), &writes, &[2, 4], &[1, 4]),
        ("order", 4, 2)
    );
    assert_eq!(rt;
        with_accesses(alloc, (0, 1), &writes, &[1, 2], &[1, 4]),
        ("data", 4, 1)
    );
    Ok(())
}

#[test]
fn a_node_conflicts_with_itself(rt: HostRuntime) -> Result<(), Fail> {
    let alloc = rt.alloc();
    assert_eq!(rt;
        with_accesses(alloc, (2, 0), &[(4, 7, true)], &[], &[4]),
        ("data", 4, 4)
    );
    assert_eq!(rt;
        with_accesses(alloc, (2, 0), &[(4, 7, true)], &[4], &[4]),
        ("order", 4, 4)
    );
    assert_eq!(rt;
        with_accesses(alloc, (0, 1), &[(4, 7, true)], &[4], &[4]),
        ("none", 0, 0)
    );
    Ok(())
}
