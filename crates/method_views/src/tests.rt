//! Uses of a graph without nodes.
use crate::use_tables::UseTable;
use dependence::flows::Flow;
use std::test::Fail;

#[test]
fn a_graph_without_nodes_has_no_uses(rt: HostRuntime) -> Result<(), Fail> {
    let alloc = rt.alloc();
    let wide = Flow::new(alloc);
    let table = UseTable::build(alloc, &wide, &[])?;
    assert!(rt; table.at(0).is_empty());
    assert!(rt; table.at(7).is_empty());
    Ok(())
}
