//! Edges and flow edges between calls and their targets.
ghost use Rattle.std.specs.Prelude.{◌≡◌, ℕ, List as Items};
ghost use Rattle.jo_prog.specs.declared.program.Program.{Program as AProgram};
ghost use Rattle.jo_prog.specs.declared.labels.Labels.{Labels as SomeLabels};
ghost use Rattle.jo_prog.specs.TypingPaths.{HasHeightAt};
ghost use Rattle.contexts.specs.Policies.{ContextPolicy};
ghost use Rattle.dep_nodes.specs.declared.kinds.NodeKind.{NodeKind as ANode};
ghost use Rattle.dep_nodes.specs.declared.kinds.EdgeKind.{EdgeKind as AWord};
ghost use Rattle.dependence.specs.declared.facts.InstKey.{InstKey as AnInstance};
ghost use Rattle.dependence.specs.DependenceEdges.{EdgeByWord};
ghost use Rattle.fact_sets.specs.Seen.{TellsApart, Known};
ghost use Rattle.sdg.specs.Links.{Link, link, by_word};
ghost use Rattle.sdg.specs.LinkRules.{LinkByRule, IsTargetWord};
ghost use Rattle.sdg.specs.Growth.{From, LinksAdded};
ghost use Rattle.sdg.specs.TargetLinks.{CallLink, ForkLink, TargetLink, LinkAt, call_pc};
ghost use Rattle.sdg.specs.NamedGraphs.{Spot, spot, AreNamed, SeenAdded};
ghost use Rattle.sdg.specs.TargetRules.{ByTarget};

use crate::growing::GrowingProgramGraph;
use crate::instance_nodes::InstanceNode;
use dep_nodes::{EdgeKind, GraphFault, NodeKind};
use dependence::facts::Target;
use fact_sets::facts::Facts;
use jo_ids::InstanceId;
use std::hash::Hash;

fn node_at(instance: InstanceId, kind: NodeKind) -> InstanceNode
    ensures { result ≡ record { instance = instance; kind = kind } }
{
    InstanceNode { instance, kind }
}

/// Adds how a target ends to how its call ends.
fn add_return(
    graph: &mut GrowingProgramGraph,
    instance: InstanceId,
    pc: u32,
    target: InstanceId,
) -> Result<(), GraphFault>
    ensures { LinksAdded result graph.old graph.new (CallLink instance (NodeKind.RetKind pc) target) }
{
    let node = node_at(instance, NodeKind::RetKind(pc));
    graph.add_edge_between(&node_at(target, NodeKind::Kind), EdgeKind::Ret, &node)?;
    graph.add_flow_between(&node_at(target, NodeKind::Exit), &node)
}

/// Adds what goes between a node of a call and a target in the same thread.
fn add_call(
    graph: &mut GrowingProgramGraph,
    node: &InstanceNode,
    target: InstanceId,
) -> Result<(), GraphFault>
    ensures { LinksAdded result graph.old graph.new (CallLink node.now.instance node.now.kind target) }
{
    match node.kind {
        NodeKind::Call(_) => {
            graph.add_edge_between(node, EdgeKind::Call, &node_at(target, NodeKind::Entry))
        }
        NodeKind::Arg(_, k) => {
            graph.add_edge_between(node, EdgeKind::Arg, &node_at(target, NodeKind::Param(k)))
        }
        NodeKind::RetVal(_) => {
            graph.add_edge_between(&node_at(target, NodeKind::Value), EdgeKind::Ret, node)
        }
        NodeKind::RetKind(pc) => add_return(graph, node.instance, pc, target),
        NodeKind::Throw(_) => {
            graph.add_edge_between(&node_at(target, NodeKind::Thrown), EdgeKind::Ret, node)
        }
        _ => Ok(()),
    }
}

/// Adds what goes from a node of a call to a target in a new thread.
fn add_fork(
    graph: &mut GrowingProgramGraph,
    node: &InstanceNode,
    target: InstanceId,
) -> Result<(), GraphFault>
    ensures { LinksAdded result graph.old graph.new (ForkLink node.now.instance node.now.kind target) }
{
    match node.kind {
        NodeKind::Call(_) => {
            graph.add_edge_between(node, EdgeKind::Fork, &node_at(target, NodeKind::Entry))
        }
        NodeKind::Arg(_, k) => {
            if k != 0 {
                return Ok(());
            }
            graph.add_edge_between(node, EdgeKind::Fork, &node_at(target, NodeKind::Param(0)))
        }
        _ => Ok(()),
    }
}

/// Adds what goes between a node of a call and a target.
fn add_target(
    graph: &mut GrowingProgramGraph,
    node: &InstanceNode,
    target: Target,
) -> Result<(), GraphFault>
    ensures { LinksAdded result graph.old graph.new (TargetLink node.now target) }
{
    if target.fork {
        add_fork(graph, node, target.instance)
    } else {
        add_call(graph, node, target.instance)
    }
}

/// Adds what goes between a node of a call and each of these targets.
fn add_targets(
    graph: &mut GrowingProgramGraph,
    node: &InstanceNode,
    targets: &[Target],
) -> Result<(), GraphFault>
    ensures { LinksAdded result graph.old graph.new (From targets.now (TargetLink node.now)) }
{
    for target in targets {
        add_target(graph, node, *target)?;
    }
    Ok(())
}

/// The pc of a node of a call.
fn pc_of_call(kind: NodeKind) -> Option<u32>
    ensures { result ≡ call_pc kind }
{
    match kind {
        NodeKind::Call(pc)
        | NodeKind::Arg(pc, _)
        | NodeKind::RetVal(pc)
        | NodeKind::RetKind(pc)
        | NodeKind::Throw(pc) => Some(pc),
        _ => None,
    }
}

/// Adds what goes between a node of a call and the targets of the call.
fn add_at<C: Copy + Ord + Hash>(
    facts: &Facts<C>,
    graph: &mut GrowingProgramGraph,
    node: &InstanceNode,
) -> Result<(), GraphFault>
    ensures { LinksAdded result graph.old graph.new (LinkAt facts.now.facts node.now) }
{
    match pc_of_call(node.kind) {
        Some(pc) => add_targets(graph, node, facts.targets(node.instance, pc)),
        None => Ok(()),
    }
}

/// Adds what goes between calls and their targets, by the numbers of instances.
fn add_numbered<C: Copy + Ord + Hash>(
    facts: &Facts<C>,
    graph: &mut GrowingProgramGraph,
) -> Result<(), GraphFault>
    ensures { LinksAdded result graph.old graph.new (From graph.old.nodes (LinkAt facts.now.facts)) }
{
    for number in 0..graph.len() {
        let node = graph.node(number);
        add_at(facts, graph, &node)?;
    }
    Ok(())
}

/// Adds the edges and the flow edges between calls and their targets: from arguments to parameters, from calls to entries, and how
/// and with what a target comes back. It looks at each node of the graph and each target of its call once.
pub fn add_target_links<C: Copy + Ord + Hash>(
    facts: &Facts<C>,
    graph: &mut GrowingProgramGraph,
) -> Result<(), GraphFault>
    ensures { (list : C → Items ℕ) → TellsApart list → AreNamed list facts.now.instances graph.old
        → SeenAdded result graph.old graph.new (ByTarget (Known list facts.now)) }
{
    let _count = facts.instances();
    add_numbered(facts, graph)
}

/// Each of these is an edge or a flow edge by the rules of the dependence graph, and each edge with one of these words is among them.
pub fn target_links_are_by_rules<C: Copy + Ord + Hash>(facts: &Facts<C>)
    ensures sound { (list : C → Items ℕ) (program : AProgram) (labels : SomeLabels) (policy : ContextPolicy) (l : Link Spot)
        → ByTarget (Known list facts.now) l → LinkByRule program labels policy (Known list facts.now) (HasHeightAt program) l }
    ensures complete { (list : C → Items ℕ) (program : AProgram) (labels : SomeLabels) (policy : ContextPolicy) (i j : AnInstance (Items ℕ)) (a b : ANode) (word : AWord)
        → IsTargetWord word → EdgeByWord program labels policy (Known list facts.now) (HasHeightAt program) i a word j b
        → ByTarget (Known list facts.now) (link (spot i a) (by_word word) (spot j b)) }
{}
