//! Reports on the chains and conflicts of a graph that grows.
ghost use Rattle.std.specs.Prelude.{◌≡◌, ◌++◌, ◌<◌, length, All, OnOk, IfOk};
ghost use Rattle.std.specs.List.{flat_map};
ghost use Rattle.dep_nodes.specs.NumberedChains.{name_at};
ghost use Rattle.chain_report.specs.Report.{body_lines, conflict_chains, conflict_pair, conflict_words, named_link, named_links, node_line, numbered_lines, refused_words, report_text, step_line, AreChainsInside, IsBodyInside, IsChainInside, IsPairInside};

use crate::lines::{push_heading, push_node_end, push_word};
use crate::nodes::name_of;
use dep_nodes::{Chain, DependenceGraph, Step};
use jo_ids::{LevelId, Memory, NodeId};
use jo_prog::labels::Labels;
use jo_prog::program::Program;
use std::alloc::Global;
use thread_regions::Conflict;

/// Why a program is refused for an observer.
#[derive(Drop)]
pub struct Report {
    pub observer: LevelId,
    pub body: Body,
}

/// An illegal chain, or two nodes that conflict. For a data conflict the first chain leads on from the node inside, the second
/// from the one after; an order conflict is printed without them.
#[derive(Drop)]
pub enum Body {
    Chain(Chain),
    Conflict {
        found: Conflict,
        first: Chain,
        second: Chain,
    },
}

/// Adds the line of a word and a node.
fn push_node_line(
    alloc: Global,
    out: &mut Vec<u8>,
    program: &Program,
    graph: &DependenceGraph,
    word: &[u8],
    node: NodeId,
) -> Result<(), Memory>
    requires { node < length graph.now }
    ensures { OnOk result (out.new.items ≡ out.old.items ++ node_line program.now word.now (name_at graph.now node)) }
{
    out.extend_from_slice(word)?;
    push_node_end(alloc, out, program, name_of(graph, node))
}

fn push_step(
    alloc: Global,
    out: &mut Vec<u8>,
    program: &Program,
    graph: &DependenceGraph,
    step: &Step,
) -> Result<(), Memory>
    requires { step.now.to < length graph.now }
    ensures { OnOk result (out.new.items ≡ out.old.items ++ step_line program.now (named_link graph.now step.now)) }
{
    push_word(out, step.word)?;
    push_node_end(alloc, out, program, name_of(graph, step.to))
}

fn push_steps(
    alloc: Global,
    out: &mut Vec<u8>,
    program: &Program,
    graph: &DependenceGraph,
    steps: &[Step],
) -> Result<(), Memory>
    requires { All (λ step. step.to < length graph.now) steps.now }
    ensures { OnOk result (out.new.items ≡ out.old.items ++ flat_map (step_line program.now) (named_links graph.now steps.now)) }
{
    for step in steps {
        push_step(alloc, out, program, graph, step)?;
    }
    Ok(())
}

fn push_chain(
    alloc: Global,
    out: &mut Vec<u8>,
    program: &Program,
    graph: &DependenceGraph,
    chain: &Chain,
) -> Result<(), Memory>
    requires { IsChainInside (length graph.now) chain.now }
    ensures { OnOk result (out.new.items ≡ out.old.items ++ numbered_lines program.now graph.now chain.now) }
{
    push_node_line(alloc, out, program, graph, b"from", chain.start)?;
    push_steps(alloc, out, program, graph, chain.steps.as_slice())
}

fn push_pair(
    alloc: Global,
    out: &mut Vec<u8>,
    program: &Program,
    graph: &DependenceGraph,
    found: &Conflict,
) -> Result<(), Memory>
    requires { IsPairInside (length graph.now) found.now }
    ensures { OnOk result (out.new.items ≡ out.old.items ++ conflict_pair program.now graph.now found.now) }
{
    push_node_line(alloc, out, program, graph, b"fork", found.fork)?;
    push_node_line(alloc, out, program, graph, b"in", found.inside)?;
    push_node_line(alloc, out, program, graph, b"after", found.after)
}

/// Adds the lines of the chains, where they are those of a data conflict.
fn push_chains(
    alloc: Global,
    out: &mut Vec<u8>,
    program: &Program,
    graph: &DependenceGraph,
    order: bool,
    first: &Chain,
    second: &Chain,
) -> Result<(), Memory>
    requires { AreChainsInside order (length graph.now) first.now second.now }
    ensures { OnOk result (out.new.items ≡ out.old.items ++ conflict_chains order program.now graph.now first.now second.now) }
{
    if order {
        return Ok(());
    }
    push_chain(alloc, out, program, graph, first)?;
    push_chain(alloc, out, program, graph, second)
}

fn push_body(
    alloc: Global,
    out: &mut Vec<u8>,
    program: &Program,
    graph: &DependenceGraph,
    body: &Body,
) -> Result<(), Memory>
    requires { IsBodyInside (length graph.now) body.now }
    ensures { OnOk result (out.new.items ≡ out.old.items ++ body_lines program.now graph.now body.now) }
{
    match body {
        Body::Chain(chain) => push_chain(alloc, out, program, graph, chain),
        Body::Conflict {
            found,
            first,
            second,
        } => {
            push_pair(alloc, out, program, graph, found)?;
            push_chains(alloc, out, program, graph, found.order, first, second)
        }
    }
}

/// What the report says is refused.
fn refused(body: &Body) -> &[u8]
    ensures { result.now ≡ refused_words body.now }
{
    match body {
        Body::Chain(_) => b"chain",
        Body::Conflict { found, .. } => conflict_word(found.order),
    }
}

fn conflict_word<'a>(order: bool) -> &'a [u8]
    ensures { result.now ≡ conflict_words order }
{
    if order {
        b"conflict order"
    } else {
        b"conflict data"
    }
}

/// The one text of a report whose nodes are in the graph.
pub fn print_report(
    alloc: Global,
    program: &Program,
    labels: &Labels,
    graph: &DependenceGraph,
    report: &Report,
) -> Result<Vec<u8>, Memory>
    requires { IsBodyInside (length graph.now) report.now.body }
    ensures { IfOk result (λ text. text.items ≡ report_text program.now labels.now graph.now report.now) }
{
    let mut out = Vec::new(alloc);
    push_heading(&mut out, refused(&report.body), labels, report.observer)?;
    push_body(alloc, &mut out, program, graph, &report.body)?;
    out.extend_from_slice(b"end\n")?;
    Ok(out)
}
