//! What is looked up of methods.
ghost use Rattle.std.specs.Prelude.{◌≡◌, replicate, IfErr, IfOk, None};
ghost use Rattle.hierarchy.specs.Hierarchies.{IsHierarchyOf};
ghost use Rattle.flow_graph.specs.Exploring.{IsLimitOf as IsTooLarge};
ghost use Rattle.method_views.specs.Heights.{AreHeightsOf};
ghost use Rattle.points_to.specs.Tables.{IsTableOf};

use dependence::flows::{Flow, Uses};
use flow_graph::wide::{FlowFault, wide_of};
use hierarchy::Hierarchy;
use jo_ids::{Memory, MethodId};
use jo_prog::program::Program;
use jo_prog::typed::Typed;
use method_views::use_tables::UseTable;
use reach_defs::sources;
use std::alloc::Global;

/// What is looked up of a method: its wide graph with the uses, and these by their nodes.
#[derive(Drop)]
pub struct MethodTable {
    pub wide: Flow,
    pub uses: Uses,
    pub by_node: UseTable,
}

/// Looks up a method.
pub(crate) fn table_of(
    alloc: Global,
    program: &Program,
    hierarchy: &Hierarchy,
    typed: &Typed,
    method: MethodId,
) -> Result<MethodTable, FlowFault>
    requires kept { IsHierarchyOf program.now hierarchy.now }
    requires heights { AreHeightsOf program.now method typed.now }
    ensures table { IfOk result (λ table. IsTableOf program.now method table) }
    ensures limit { IfErr result (λ fault. IsTooLarge program.now method fault) }
{
    let wide = match wide_of(alloc, program, hierarchy, typed, method) {
        Ok(wide) => wide,
        Err(fault) => return Err(fault),
    };
    let uses = sources(alloc, &wide)?;
    let by_node = UseTable::build(alloc, &wide, uses.as_slice())?;
    Ok(MethodTable {
        wide,
        uses,
        by_node,
    })
}

/// No tables yet, for so many methods.
pub(crate) fn no_tables(alloc: Global, count: u32) -> Result<Vec<Option<MethodTable>>, Memory>
    ensures { IfOk result (λ tables. tables.items ≡ replicate count None) }
{
    let mut tables = Vec::new(alloc);
    for _ in 0..count {
        tables.push(None)?;
    }
    Ok(tables)
}
