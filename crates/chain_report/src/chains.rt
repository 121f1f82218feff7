//! Reports on illegal chains of a plain graph.
ghost use Rattle.std.specs.Prelude.{◌≡◌, ◌++◌, Some, OnOk, IfOk, option_map, codes};
ghost use Rattle.std.specs.List.{flat_map};
ghost use Rattle.dep_nodes.specs.Nodes.{Node, node_named};
ghost use Rattle.dep_nodes.specs.Graphs.{graph_node, link_of, links_of};
ghost use Rattle.chain_report.specs.Report.{chain_text, node_line, step_line, step_text};

use crate::lines::{push_heading, push_node_end, push_word};
use dep_nodes::{Chain, Graph, NodeName, Step};
use jo_ids::{LevelId, NodeId};
use jo_prog::labels::Labels;
use jo_prog::program::Program;
use std::alloc::{AllocError as Memory, Global};

/// The name of a node by its number.
fn node_name(graph: &Graph, node: NodeId) -> Option<&NodeName>
    ensures { option_map (λ name. node_named name.now) result ≡ graph_node graph.now node }
{
    graph.nodes.as_slice().get(node.number() as usize)
}

/// Adds the line of a step, where it is one to a node of the graph.
fn push_step(
    alloc: Global,
    out: &mut Vec<u8>,
    program: &Program,
    graph: &Graph,
    step: &Step,
) -> Result<(), Memory>
    ensures { OnOk result (out.new.items ≡ out.old.items ++ step_text program.now (link_of graph.now step.now)) }
{
    match node_name(graph, step.to) {
        Some(name) => {
            push_word(out, step.word)?;
            push_node_end(alloc, out, program, name)
        }
        None => Ok(()),
    }
}

fn push_steps(
    alloc: Global,
    out: &mut Vec<u8>,
    program: &Program,
    graph: &Graph,
    steps: &[Step],
) -> Result<(), Memory>
    ensures { OnOk result (out.new.items ≡ out.old.items ++ flat_map (step_line program.now) (links_of graph.now steps.now)) }
{
    for step in steps {
        push_step(alloc, out, program, graph, step)?;
    }
    Ok(())
}

fn push_start(
    alloc: Global,
    out: &mut Vec<u8>,
    program: &Program,
    graph: &Graph,
    node: NodeId,
) -> Result<(), Memory>
    ensures { OnOk result ((from : Node) → graph_node graph.now node ≡ Some from → out.new.items ≡ out.old.items ++ node_line program.now (codes "from") from) }
{
    match node_name(graph, node) {
        Some(name) => {
            out.extend_from_slice(b"from")?;
            push_node_end(alloc, out, program, name)
        }
        None => Ok(()),
    }
}

/// The report on a chain of the graph that is illegal for an observer.
pub fn report(
    alloc: Global,
    program: &Program,
    labels: &Labels,
    graph: &Graph,
    observer: LevelId,
    chain: &Chain,
) -> Result<Vec<u8>, Memory>
    ensures { IfOk result (λ text. (from : Node) → graph_node graph.now chain.now.start ≡ Some from
        → text.items ≡ chain_text program.now labels.now observer from (links_of graph.now chain.now.steps)) }
{
    let mut out = Vec::new(alloc);
    push_heading(&mut out, b"chain", labels, observer)?;
    push_start(alloc, &mut out, program, graph, chain.start)?;
    push_steps(alloc, &mut out, program, graph, chain.steps.as_slice())?;
    out.extend_from_slice(b"end\n")?;
    Ok(out)
}
