//! Small dependence graphs by hand, for tests.
#![tactic(auto)]

ghost use Rattle.std.specs.Prelude.{◌≡◌, ◌<◌, length, OnErr, OnOk};
ghost use Rattle.dep_nodes.specs.GrowingGraphs.{AddsFlow};

use dep_nodes::{DependenceGraph, GraphFault, NodeKind, NodeName, SiteList};
use jo_ids::Id;

/// The name of a node of a method in the empty context.
pub fn name_in(method: u32, kind: NodeKind) -> NodeName
    ensures method { result.method ≡ method }
    ensures kind { result.kind ≡ kind }
{
    NodeName {
        method: Id::of(method),
        sites: SiteList {
            len: 0,
            first: Id::of(0),
            second: Id::of(0),
        },
        kind,
        resolved: None,
    }
}

/// Adds the flow edge where both of its nodes are there, unless it is there.
pub fn add_flow(graph: &mut DependenceGraph, from: u32, to: u32) -> Result<(), GraphFault>
    ensures added { OnOk result (from < length graph.old → to < length graph.old → AddsFlow graph.old graph.new from to) }
    ensures count { length graph.new ≡ length graph.old }
    ensures err { OnErr result (graph.new ≡ graph.old) }
{
    if from >= graph.len() || to >= graph.len() {
        return Ok(());
    }
    match graph.add_flow(Id::of(from), Id::of(to)) {
        Ok(()) => Ok(()),
        Err(_) => Err(GraphFault::Memory),
    }
}
