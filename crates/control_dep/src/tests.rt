//! Pairs of graphs by hand.
use super::*;
use dep_nodes::NodeKind;
use dependence::flows::{Flow, FlowNode};
use jo_ids::Memory;
use std::alloc::Global;
use std::test::Fail;

/// The graph of so many nodes, of which the second is the exit, and edges between them.
fn flow_of(alloc: Global, count: u32, edges: &[(u32, u32)]) -> Result<Flow, Memory> {
    let mut flow = Flow::new(alloc);
    for number in 0..count {
        let kind = match number {
            0 => NodeKind::Entry,
            1 => NodeKind::Exit,
            _ => NodeKind::Instr(number),
        };
        flow.add_node(FlowNode {
            kind,
            insn: None,
            field: None,
            method: None,
        })?;
    }
    for (from, to) in edges {
        if *from < flow.len() && *to < flow.len() {
            flow.add_successor(*from, *to)?;
        }
    }
    Ok(flow)
}

/// The pairs of a node with each of these.
fn add_pairs(pairs: &mut Vec<(u32, u32)>, b: u32, nodes: &[u32]) -> Result<(), Memory> {
    for n in nodes {
        pairs.push((b, *n))?;
    }
    Ok(())
}

/// A loop: 5 loads, 6 branches on to 10 or into the loop, whose branch back at 8 polls at 9. Behind it 10 to 13 call a sink.
#[test]
fn a_loop_controls_what_is_behind_it(rt: HostRuntime) -> Result<(), Fail> {
    let edges = [
        (0, 2),
        (0, 1),
        (2, 3),
        (3, 4),
        (4, 5),
        (5, 6),
        (6, 7),
        (6, 10),
        (7, 8),
        (8, 9),
        (9, 5),
        (9, 1),
        (10, 11),
        (11, 12),
        (12, 13),
        (13, 1),
    ];
    let flow = flow_of(rt.alloc(), 14, &edges)?;
    let mut expected = Vec::new(rt.alloc());
    add_pairs(&mut expected, 0, &[2, 3, 4, 5, 6, 7, 8, 9, 10, 11, 12, 13])?;
    add_pairs(&mut expected, 6, &[5, 6, 7, 8, 9, 10, 11, 12, 13])?;
    add_pairs(&mut expected, 9, &[5, 6, 7, 8, 9, 10, 11, 12, 13])?;
    let pairs = controllers(rt.alloc(), &flow)?;
    assert_eq!(rt; pairs.as_slice().len(), 30);
    assert!(rt; pairs.as_slice() == expected.as_slice());
    Ok(())
}

#[test]
fn one_successor_twice_is_no_branch(rt: HostRuntime) -> Result<(), Fail> {
    let edges = [(0, 2), (0, 1), (2, 3), (2, 3), (3, 3), (3, 1)];
    let flow = flow_of(rt.alloc(), 4, &edges)?;
    let pairs = controllers(rt.alloc(), &flow)?;
    assert!(rt; pairs.as_slice() == [(0, 2), (0, 3), (3, 3)].as_slice());
    Ok(())
}

/// A line of as many nodes as a method may have.
#[test]
fn a_long_line_has_one_branch(rt: HostRuntime) -> Result<(), Fail> {
    let mut edges = Vec::new(rt.alloc());
    edges.push((0, 1))?;
    edges.push((0, 2))?;
    for number in 2..16_383 {
        edges.push((number, number + 1))?;
    }
    edges.push((16_383, 1))?;
    let flow = flow_of(rt.alloc(), 16_384, edges.as_slice())?;
    let pairs = controllers(rt.alloc(), &flow)?;
    assert_eq!(rt; pairs.as_slice().len(), 16_382);
    Ok(())
}
