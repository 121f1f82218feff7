//! Uses of graphs by hand.
use super::*;
use dep_nodes::NodeKind;
use dependence::flow::Place;
use dependence::flows::{Flow, FlowNode, Use};
use jo_ids::Memory;
use std::alloc::Global;
use std::test::Fail;

/// The graph of so many nodes, edges between them, and the places that nodes read and write.
fn flow_of(
    alloc: Global,
    count: u32,
    edges: &[(u32, u32)],
    reads: &[(u32, Place)],
    writes: &[(u32, Place)],
) -> Result<Flow, Memory> {
    let mut flow = Flow::new(alloc);
    for number in 0..count {
        flow.add_node(FlowNode {
            kind: NodeKind::Instr(number),
            insn: None,
            field: None,
            method: None,
        })?;
    }
    for (from, to) in edges {
        if *from < flow.len() && *to < flow.len() {
            flow.add_successor(*from, *to)?;
        }
    }
    for (n, place) in reads {
        if *n < flow.len() {
            flow.add_read(*n, *place)?;
        }
    }
    for (n, place) in writes {
        if *n < flow.len() {
            flow.add_write(*n, *place)?;
        }
    }
    Ok(flow)
}

fn use_at(node: u32, place: Place, from: u32) -> Use {
    Use { node, place, from }
}

/// 2 gives a value, which 3 stores; 4 loads it, 5 branches on it; 6 counts it down, and 7 and 8 go back to 4.
#[test]
fn a_definition_goes_round_its_loop(rt: HostRuntime) -> Result<(), Fail> {
    let local = Place::Local(0);
    let top = Place::Stack(0);
    let edges = [
        (0, 2),
        (0, 1),
        (2, 3),
        (3, 4),
        (4, 5),
        (5, 6),
        (5, 9),
        (6, 7),
        (7, 8),
        (8, 4),
        (8, 1),
        (9, 1),
    ];
    let reads = [(3, top), (4, local), (5, top), (6, local)];
    let writes = [(2, top), (3, local), (4, top), (6, local)];
    let flow = flow_of(rt.alloc(), 10, &edges, &reads, &writes)?;
    let expected = [
        use_at(3, top, 2),
        use_at(4, local, 3),
        use_at(6, local, 3),
        use_at(5, top, 4),
        use_at(4, local, 6),
        use_at(6, local, 6),
    ];
    let uses = sources(rt.alloc(), &flow)?;
    assert!(rt; uses.as_slice() == expected.as_slice());
    Ok(())
}

/// 0 writes a local, and of the two ways to 3 one writes it anew.
#[test]
fn a_definition_is_killed_on_one_of_two_ways(rt: HostRuntime) -> Result<(), Fail> {
    let local = Place::Local(7);
    let edges = [(0, 1), (0, 2), (1, 3), (2, 3), (3, 4)];
    let reads = [(3, local), (4, local), (4, Place::Pending)];
    let writes = [(0, local), (1, local), (3, local)];
    let flow = flow_of(rt.alloc(), 5, &edges, &reads, &writes)?;
    let expected = [
        use_at(3, local, 0),
        use_at(3, local, 1),
        use_at(4, local, 3),
    ];
    let uses = sources(rt.alloc(), &flow)?;
    assert!(rt; uses.as_slice() == expected.as_slice());
    Ok(())
}

/// A line of as many nodes as a method may have, each of which reads and writes one place.
#[test]
fn a_long_line_of_writers_is_done_at_once(rt: HostRuntime) -> Result<(), Fail> {
    let top = Place::Stack(0);
    let mut edges = Vec::new(rt.alloc());
    let mut places = Vec::new(rt.alloc());
    for number in 0..16_384 {
        edges.push((number, number + 1))?;
        places.push((number, top))?;
    }
    let flow = flow_of(
        rt.alloc(),
        16_384,
        edges.as_slice(),
        places.as_slice(),
        places.as_slice(),
    )?;
    let uses = sources(rt.alloc(), &flow)?;
    assert_eq!(rt; uses.as_slice().len(), 16_383);
    Ok(())
}
