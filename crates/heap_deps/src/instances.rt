//! The accesses of the nodes of an instance.
ghost use Rattle.std.specs.Prelude.{◌≡◌, ◌<◌, ◌^◌, ◌+◌, ◌≤◌, ℕ, length, slice_get, Some};
ghost use Rattle.hierarchy.specs.Hierarchies.{IsHierarchyOf};
ghost use Rattle.dependence.specs.declared.flows.FlowRow.{FlowRow as ARow};
ghost use Rattle.dependence.specs.FlowData.{AreUses};
ghost use Rattle.dependence.specs.GraphsAsData.{node_with, pc_kept};
ghost use Rattle.fact_sets.specs.FactLists.{IsInstance};
ghost use Rattle.fact_sets.specs.Seen.{Known, instance_seen};
ghost use Rattle.heap_deps.specs.Adds.{From, FromBelow};
ghost use Rattle.heap_deps.specs.Items.{GrowsOrStops};
ghost use Rattle.heap_deps.specs.Accesses.{UseMakes, NodeMakes, InstanceMakes, KeepsNodes};

use crate::nodes::add_node_accesses;
use crate::uses::{add_use_accesses, node_at};
use contexts::Contexts;
use dep_nodes::{DependenceGraph, GraphFault};
use dependence::facts::InstKey;
use dependence::flows::{Flow, Use};
use fact_sets::facts::Facts;
use hierarchy::Hierarchy;
use jo_ids::{InstanceId, NodeId};
use jo_prog::labels::Labels;
use jo_prog::program::Program;
use jo_prog::typed::Typed;
use std::alloc::Global;

/// Adds the accesses that nodes make by uses of their bases.
fn add_uses<X: Contexts>(
    contexts: &X,
    facts: &Facts<X::C>,
    instance: InstanceId,
    key: &InstKey<X::C>,
    typed: &Typed,
    flow: &Flow,
    uses: &[Use],
    first: NodeId,
    graph: &mut DependenceGraph,
) -> Result<(), GraphFault>
    requires is { IsInstance facts.now.instances instance key.now }
    requires uses { AreUses flow.now uses.now }
    requires there { first + length flow.now ≤ length graph.old }
    ensures { GrowsOrStops result graph.old graph.new (From uses.now (UseMakes (Known X.list facts.now) (instance_seen X.list key.now) typed.now flow.now first)) }
{
    for u in uses {
        add_use_accesses(contexts, facts, instance, key, typed, flow, first, u, graph)?;
    }
    Ok(())
}

/// Adds the accesses that a node makes by itself.
fn add_node<X: Contexts>(
    alloc: Global,
    program: &Program,
    hierarchy: &Hierarchy,
    labels: &Labels,
    contexts: &X,
    facts: &Facts<X::C>,
    instance: InstanceId,
    key: &InstKey<X::C>,
    flow: &Flow,
    first: NodeId,
    k: u32,
    graph: &mut DependenceGraph,
) -> Result<(), GraphFault>
    requires kept { IsHierarchyOf program.now hierarchy.now }
    requires short { length program.now.classes < 2 ^ 32 }
    requires few { length program.now.sites < 2 ^ 32 }
    requires is { IsInstance facts.now.instances instance key.now }
    requires nodes { KeepsNodes program.now key.now.method flow.now }
    requires below { k < length flow.now }
    requires there { first + length flow.now ≤ length graph.old }
    ensures { GrowsOrStops result graph.old graph.new (NodeMakes program.now labels.now (Known X.list facts.now) (instance_seen X.list key.now) flow.now first k) }
{
    let node = node_at(graph, first, k);
    let flow_node = flow.node(k);
    add_node_accesses(
        alloc, program, hierarchy, labels, contexts, facts, instance, key, flow_node, node, graph,
    )
}

/// Adds the accesses that nodes make by themselves.
fn add_nodes<X: Contexts>(
    alloc: Global,
    program: &Program,
    hierarchy: &Hierarchy,
    labels: &Labels,
    contexts: &X,
    facts: &Facts<X::C>,
    instance: InstanceId,
    key: &InstKey<X::C>,
    flow: &Flow,
    first: NodeId,
    graph: &mut DependenceGraph,
) -> Result<(), GraphFault>
    requires kept { IsHierarchyOf program.now hierarchy.now }
    requires short { length program.now.classes < 2 ^ 32 }
    requires few { length program.now.sites < 2 ^ 32 }
    requires is { IsInstance facts.now.instances instance key.now }
    requires nodes { KeepsNodes program.now key.now.method flow.now }
    requires there { first + length flow.now ≤ length graph.old }
    ensures { GrowsOrStops result graph.old graph.new (FromBelow (length flow.now) (NodeMakes program.now labels.now (Known X.list facts.now) (instance_seen X.list key.now) flow.now first)) }
{
    for k in 0..flow.len() {
        add_node(
            alloc, program, hierarchy, labels, contexts, facts, instance, key, flow, first, k,
            graph,
        )?;
    }
    Ok(())
}

/// Adds the accesses of the nodes of an instance, whose first has that number in the graph.
pub(crate) fn add_instance_accesses<X: Contexts>(
    alloc: Global,
    program: &Program,
    hierarchy: &Hierarchy,
    labels: &Labels,
    contexts: &X,
    facts: &Facts<X::C>,
    instance: InstanceId,
    key: &InstKey<X::C>,
    typed: &Typed,
    flow: &Flow,
    uses: &[Use],
    first: NodeId,
    graph: &mut DependenceGraph,
) -> Result<(), GraphFault>
    requires kept { IsHierarchyOf program.now hierarchy.now }
    requires short { length program.now.classes < 2 ^ 32 }
    requires few { length program.now.sites < 2 ^ 32 }
    requires is { IsInstance facts.now.instances instance key.now }
    requires nodes { KeepsNodes program.now key.now.method flow.now }
    requires uses { AreUses flow.now uses.now }
    requires there { first + length flow.now ≤ length graph.old }
    ensures { GrowsOrStops result graph.old graph.new (InstanceMakes program.now labels.now (Known X.list facts.now) (instance_seen X.list key.now) typed.now flow.now uses.now first) }
{
    add_uses(
        contexts, facts, instance, key, typed, flow, uses, first, graph,
    )?;
    add_nodes(
        alloc, program, hierarchy, labels, contexts, facts, instance, key, flow, first, graph,
    )
}
