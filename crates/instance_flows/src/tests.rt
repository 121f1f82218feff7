//! The part of a small graph.
use crate::parts::part_of;
use dep_nodes::NodeKind;
use dependence::flow::Place;
use dependence::flows::{Flow, FlowNode};
use jo_ids::Memory;
use std::alloc::Global;
use std::test::Fail;

/// The graph of so many nodes and these edges, in which each node writes one place.
fn graph_of(alloc: Global, count: u32, edges: &[(u32, u32)]) -> Result<Flow, Memory> {
    let mut flow = Flow::new(alloc);
    for number in 0..count {
        let n = flow.add_node(FlowNode {
            kind: NodeKind::Instr(number),
            insn: None,
            field: None,
            method: None,
        })?;
        if n < flow.len() {
            flow.add_write(n, Place::Pending)?;
        }
    }
    for (from, to) in edges {
        if *from < flow.len() && *to < flow.len() {
            flow.add_successor(*from, *to)?;
        }
    }
    Ok(flow)
}

/// Of a diamond one side is kept, and an edge back to the start.
#[test]
fn one_side_of_a_diamond_is_left(rt: HostRuntime) -> Result<(), Fail> {
    let alloc = rt.alloc();
    let flow = graph_of(alloc, 4, &[(0, 1), (0, 2), (1, 3), (2, 3), (3, 0)])?;
    let kept = graph_of(alloc, 4, &[(0, 2), (1, 3), (2, 3), (3, 0)])?;
    if flow.len() == 4 && kept.len() == 4 {
        let part = part_of(alloc, &flow, &kept, 0)?;
        assert_eq!(rt; part.len(), 3);
        if part.len() == 3 {
            assert!(rt; part.node(1).kind == NodeKind::Instr(2));
            assert!(rt; part.successors(1) == [2].as_slice());
            assert!(rt; part.successors(2) == [0].as_slice());
        }
        return Ok(());
    }
    assert!(rt; false);
    Ok(())
}
