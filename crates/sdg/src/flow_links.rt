//! Flow edges of instances.
ghost use Rattle.std.specs.Prelude.{◌≡◌, ◌<◌, ℕ, Some, List as Items, length, slice_get, option_map, All};
ghost use Rattle.jo_prog.specs.declared.program.Program.{Program as AProgram};
ghost use Rattle.jo_prog.specs.declared.labels.Labels.{Labels as SomeLabels};
ghost use Rattle.jo_prog.specs.TypingPaths.{HasHeightAt};
ghost use Rattle.contexts.specs.Policies.{ContextPolicy};
ghost use Rattle.dependence.specs.declared.facts.Fact.TheVariants.{Reached as Runs};
ghost use Rattle.sdg.specs.Links.{Link};
ghost use Rattle.sdg.specs.LinkRules.{LinkByRule};
ghost use Rattle.dependence.specs.declared.facts.InstKey.{InstKey as AnInstance};
ghost use Rattle.dependence.specs.FlowGraph.{EdgeOf};
ghost use Rattle.dependence.specs.GraphsAsData.{kind_at};
ghost use Rattle.fact_sets.specs.FactLists.{IsInstance};
ghost use Rattle.fact_sets.specs.Seen.{TellsApart, Known, instance_seen};
ghost use Rattle.instance_flows.specs.InstanceFlow.{IsFlowOf};
ghost use Rattle.sdg.specs.Growth.{From, FromBelow, LinksAdded};
ghost use Rattle.sdg.specs.FlowLinks.{FlowFrom, FlowStepLink, Within};
ghost use Rattle.sdg.specs.NamedGraphs.{Spot, AreNamed, SeenAdded};

use crate::growing::GrowingProgramGraph;
use crate::instance_nodes::InstanceNode;
use dep_nodes::GraphFault;
use dependence::flows::Flow;
use fact_sets::facts::Facts;
use jo_ids::InstanceId;
use std::hash::Hash;

/// The node of an instance that has a number in its flow graph.
fn node_of(flow: &Flow, instance: InstanceId, n: u32) -> InstanceNode
    requires { n < length flow.now }
    ensures number { result.instance ≡ instance }
    ensures kind { kind_at flow.now n ≡ Some result.kind }
{
    InstanceNode {
        instance,
        kind: flow.node(n).kind,
    }
}

/// Adds the flow edge between two nodes of an instance by their numbers in its flow graph.
fn add_step(
    graph: &mut GrowingProgramGraph,
    flow: &Flow,
    instance: InstanceId,
    from: u32,
    to: u32,
) -> Result<(), GraphFault>
    requires begins { from < length flow.now }
    requires ends { to < length flow.now }
    ensures { LinksAdded result graph.old graph.new (FlowStepLink flow.now instance from to) }
{
    let begin = node_of(flow, instance, from);
    let end = node_of(flow, instance, to);
    graph.add_flow_between(&begin, &end)
}

/// Adds the flow edges from a node of an instance to these.
fn add_steps(
    graph: &mut GrowingProgramGraph,
    flow: &Flow,
    instance: InstanceId,
    from: u32,
    successors: &[u32],
) -> Result<(), GraphFault>
    requires begins { from < length flow.now }
    requires ends { All (λ to. to < length flow.now) successors.now }
    ensures { LinksAdded result graph.old graph.new (From successors.now (FlowStepLink flow.now instance from)) }
{
    for to in successors {
        add_step(graph, flow, instance, from, *to)?;
    }
    Ok(())
}

/// Adds the flow edges from a node of an instance.
fn add_from(
    graph: &mut GrowingProgramGraph,
    flow: &Flow,
    instance: InstanceId,
    from: u32,
) -> Result<(), GraphFault>
    requires { from < length flow.now }
    ensures { LinksAdded result graph.old graph.new (FlowFrom flow.now instance from) }
{
    let successors = flow.successors(from);
    add_steps(graph, flow, instance, from, successors)
}

/// Adds the flow edges of an instance, by its number.
fn add_numbered(
    graph: &mut GrowingProgramGraph,
    flow: &Flow,
    instance: InstanceId,
) -> Result<(), GraphFault>
    ensures { LinksAdded result graph.old graph.new (FromBelow (length flow.now) (FlowFrom flow.now instance)) }
{
    for from in 0..flow.len() {
        add_from(graph, flow, instance, from)?;
    }
    Ok(())
}

/// Adds the flow edges of an instance that has this flow graph.
pub fn add_flow_links<C: Copy + Ord + Hash>(
    facts: &Facts<C>,
    instance: InstanceId,
    flow: &Flow,
    graph: &mut GrowingProgramGraph,
) -> Result<(), GraphFault>
    ensures { (program : AProgram) (list : C → Items ℕ) (key : AnInstance C) → IsFlowOf program facts.now instance flow.now
        → TellsApart list → AreNamed list facts.now.instances graph.old → IsInstance facts.now.instances instance key
        → SeenAdded result graph.old graph.new
        (Within (instance_seen list key) (EdgeOf program (Known list facts.now) (HasHeightAt program key.method) (instance_seen list key))) }
{
    let _count = facts.instances();
    add_numbered(graph, flow, instance)
}

/// Each of these is a flow edge by the rules of the dependence graph, where the instance runs.
pub fn flow_links_are_by_rules<C: Copy + Ord + Hash>(facts: &Facts<C>)
    ensures { (list : C → Items ℕ) (program : AProgram) (labels : SomeLabels) (policy : ContextPolicy) (i : AnInstance (Items ℕ)) (l : Link Spot)
        → Known list facts.now (Runs i) → Within i (EdgeOf program (Known list facts.now) (HasHeightAt program i.method) i) l
        → LinkByRule program labels policy (Known list facts.now) (HasHeightAt program) l }
{}
