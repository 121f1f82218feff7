//! The accesses of the nodes of all instances.
ghost use Rattle.std.specs.Prelude.{◌≡◌, ◌<◌, ◌^◌, length};
ghost use Rattle.hierarchy.specs.Hierarchies.{IsHierarchyOf};
ghost use Rattle.heap_deps.specs.Adds.{FromBelow};
ghost use Rattle.heap_deps.specs.Items.{GrowsOrStops};
ghost use Rattle.heap_deps.specs.FlowSets.{AreInside, NumberMakes};

use crate::flow_sets::FlowSet;
use crate::instances::add_instance_accesses;
use contexts::Contexts;
use dep_nodes::{DependenceGraph, GraphFault};
use fact_sets::facts::Facts;
use hierarchy::Hierarchy;
use jo_ids::InstanceId;
use jo_prog::labels::Labels;
use jo_prog::program::Program;
use jo_prog::typed::Typings;
use std::alloc::Global;

/// Adds the accesses of the nodes of an instance, where it runs.
fn add_accesses_of<X: Contexts>(
    alloc: Global,
    program: &Program,
    hierarchy: &Hierarchy,
    typings: &Typings,
    labels: &Labels,
    contexts: &X,
    facts: &Facts<X::C>,
    flows: &FlowSet,
    instance: InstanceId,
    graph: &mut DependenceGraph,
) -> Result<(), GraphFault>
    requires kept { IsHierarchyOf program.now hierarchy.now }
    requires short { length program.now.classes < 2 ^ 32 }
    requires few { length program.now.sites < 2 ^ 32 }
    requires inside { AreInside program.now facts.now typings.now (length graph.old) flows.now }
    requires named { instance < length facts.now.instances }
    ensures { GrowsOrStops result graph.old graph.new (NumberMakes program.now labels.now X.list facts.now typings.now flows.now instance) }
{
    if !facts.reached(instance) {
        return Ok(());
    }
    let key = facts.instance(instance);
    let own = flows.at(instance.number());
    let typed = typings.get(key.method);
    let uses = own.uses.as_slice();
    add_instance_accesses(
        alloc, program, hierarchy, labels, contexts, facts, instance, &key, typed, &own.flow, uses,
        own.first, graph,
    )
}

/// Adds the accesses of the nodes of all instances that run.
pub fn add_accesses<X: Contexts>(
    alloc: Global,
    program: &Program,
    hierarchy: &Hierarchy,
    typings: &Typings,
    labels: &Labels,
    contexts: &X,
    facts: &Facts<X::C>,
    flows: &FlowSet,
    graph: &mut DependenceGraph,
) -> Result<(), GraphFault>
    requires kept { IsHierarchyOf program.now hierarchy.now }
    requires short { length program.now.classes < 2 ^ 32 }
    requires few { length program.now.sites < 2 ^ 32 }
    requires inside { AreInside program.now facts.now typings.now (length graph.old) flows.now }
    ensures { GrowsOrStops result graph.old graph.new (FromBelow (length facts.now.instances) (NumberMakes program.now labels.now X.list facts.now typings.now flows.now)) }
{
    for n in 0..facts.instances() {
        add_accesses_of(
            alloc,
            program,
            hierarchy,
            typings,
            labels,
            contexts,
            facts,
            flows,
            InstanceId::of(n),
            graph,
        )?;
    }
    Ok(())
}
