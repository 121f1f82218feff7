//! The nodes of the wide graph of a method, from Entry on.
ghost use Rattle.std.specs.Prelude.{◌≡◌, ◌<◌, ◌≤◌, length, slice_get, Contains, Some, IfErr, IfOk, OnOk};
ghost use Rattle.hierarchy.specs.Hierarchies.{IsHierarchyOf};
ghost use Rattle.dep_nodes.specs.GrowingGraphs.{AppendsNew};
ghost use Rattle.dependence.specs.WideGraph.{WideStep, IsWideNode};
ghost use Rattle.flow_graph.specs.Adding.{HasThose};
ghost use Rattle.flow_graph.specs.Exploring.{AddsAll, AreWideNodes, IsLimitOf};

use crate::spots::Spot;
use crate::steps::steps_from;
use crate::wide::FlowFault;
use dep_nodes::{NodeKind, OnceList};
use hierarchy::Hierarchy;
use jo_ids::{LimitKind, Memory, MethodId};
use jo_prog::program::Program;
use std::alloc::Global;

/// How many nodes a wide graph has at most.
const MOST_NODES: usize = 16_384;

/// The steps from a node that is there.
pub(crate) fn wide_steps(
    alloc: Global,
    program: &Program,
    hierarchy: &Hierarchy,
    method: MethodId,
    kind: NodeKind,
) -> Result<Vec<NodeKind>, Memory>
    requires kept { IsHierarchyOf program.now hierarchy.now }
    requires there { IsWideNode program.now method kind }
    ensures { IfOk result (λ steps. HasThose (WideStep program.now method kind) steps.items) }
{
    let steps = steps_from(alloc, program, hierarchy, method, kind)?;
    Ok(steps)
}

fn add_node(nodes: &mut OnceList<Spot>, kind: NodeKind) -> Result<(), Memory>
    ensures { OnOk result (AppendsNew nodes.old kind nodes.new) }
{
    let spot = Spot::of(kind);
    if nodes.has(&spot) {
        return Ok(());
    }
    nodes.push_new(spot)
}

/// Adds those of the nodes that aren't there.
fn add_all(nodes: &mut OnceList<Spot>, kinds: &[NodeKind]) -> Result<(), Memory>
    ensures { OnOk result (AddsAll kinds.now nodes.old nodes.new) }
{
    for kind in kinds {
        add_node(nodes, *kind)?;
    }
    Ok(())
}

pub(crate) fn kind_at(nodes: &OnceList<Spot>, place: usize) -> NodeKind
    requires { place < length nodes.now }
    ensures { slice_get nodes.now place ≡ Some result }
{
    nodes.as_slice()[place].kind()
}

/// The nodes of the wide graph of a method, Entry first, in the order in which a search breadth first comes to them.
pub(crate) fn wide_nodes(
    alloc: Global,
    program: &Program,
    hierarchy: &Hierarchy,
    method: MethodId,
) -> Result<OnceList<Spot>, FlowFault>
    requires { IsHierarchyOf program.now hierarchy.now }
    ensures nodes { IfOk result (λ nodes. AreWideNodes program.now method nodes) }
    ensures few { IfOk result (λ nodes. length nodes ≤ 16384) }
    ensures limit { IfErr result (λ fault. IsLimitOf program.now method fault) }
{
    let mut nodes = OnceList::new(alloc);
    add_node(&mut nodes, NodeKind::Entry)?;
    let mut done = 0;
    while done < nodes.as_slice().len() {
        let kind = kind_at(&nodes, done);
        let steps = wide_steps(alloc, program, hierarchy, method, kind)?;
        add_all(&mut nodes, steps.as_slice())?;
        if nodes.as_slice().len() > MOST_NODES {
            return Err(FlowFault::Limit(LimitKind::M6));
        }
        done += 1;
    }
    Ok(nodes)
}
