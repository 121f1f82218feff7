//! Whether the nodes and steps of a report are in a graph.
ghost use Rattle.std.specs.Prelude.{◌≡◌, ◌≢◌, ◌↔◌, ◌<◌, ◌^◌, length, None, Contains, IsTrue};
ghost use Rattle.dep_nodes.specs.GrowingGraphs.{HasEdge};
ghost use Rattle.dep_nodes.specs.NumberedChains.{AreSummaries};
ghost use Rattle.chain_report.specs.NodeTexts.{number_by};
ghost use Rattle.chain_report.specs.Verify.{line_node as node_in_line, IsFirstMissing, IsThere, LeadsTo, StepIsThere};

use crate::node_texts::{NodeTexts, node_with};
use dep_nodes::{DependenceGraph, EdgeKind, Word};
use jo_ids::{Id, NodeId};
use report_texts::ReportLine;
use summary_edges::Summaries;

fn is_among(edges: &[(NodeId, EdgeKind)], edge: (NodeId, EdgeKind)) -> bool
    ensures { IsTrue result ↔ Contains edges.now edge }
{
    edges.contains(&edge)
}

fn has_edge(graph: &DependenceGraph, from: u32, kind: EdgeKind, to: u32) -> bool
    ensures { IsTrue result ↔ HasEdge graph.now from kind to }
{
    to < graph.len() && is_among(graph.edges_into(Id::of(to)), (Id::of(from), kind))
}

fn has_step(graph: &DependenceGraph, summaries: &Summaries, from: u32, word: Word, to: u32) -> bool
    requires { AreSummaries graph.now summaries.now }
    ensures { IsTrue result ↔ StepIsThere graph.now from word to }
{
    match word {
        Word::Edge(kind) => has_edge(graph, from, kind, to),
        Word::Pass => summaries.has(Id::of(from), Id::of(to)),
    }
}

fn leads_to(
    graph: &DependenceGraph,
    summaries: &Summaries,
    from: Option<u32>,
    word: Word,
    to: Option<u32>,
) -> bool
    requires { AreSummaries graph.now summaries.now }
    ensures { IsTrue result ↔ LeadsTo graph.now from word to }
{
    match from {
        None => false,
        Some(from) => match to {
            None => false,
            Some(to) => has_step(graph, summaries, from, word, to),
        },
    }
}

/// The node that a line names.
pub(crate) fn line_node(texts: &NodeTexts, line: &ReportLine) -> Option<u32>
    ensures { result ≡ node_in_line (number_by texts.now) line.now }
{
    match line {
        ReportLine::Fork(text)
        | ReportLine::In(text)
        | ReportLine::After(text)
        | ReportLine::From(text)
        | ReportLine::Step(_, text) => node_with(texts, text.as_slice()),
        _ => None,
    }
}

fn is_node(texts: &NodeTexts, text: &[u8]) -> bool
    ensures { IsTrue result ↔ (number_by texts.now text.now ≢ None) }
{
    node_with(texts, text).is_some()
}

fn is_there(
    graph: &DependenceGraph,
    summaries: &Summaries,
    texts: &NodeTexts,
    before: Option<u32>,
    line: &ReportLine,
) -> bool
    requires { AreSummaries graph.now summaries.now }
    ensures { IsTrue result ↔ IsThere graph.now (number_by texts.now) before line.now }
{
    match line {
        ReportLine::Step(word, text) => {
            leads_to(
                graph,
                summaries,
                before,
                *word,
                node_with(texts, text.as_slice()),
            )
        }
        ReportLine::Fork(text)
        | ReportLine::In(text)
        | ReportLine::After(text)
        | ReportLine::From(text) => is_node(texts, text.as_slice()),
        _ => true,
    }
}

/// The number of the first line whose node, or whose step to it, isn't in the graph.
pub(crate) fn first_missing(
    graph: &DependenceGraph,
    summaries: &Summaries,
    texts: &NodeTexts,
    lines: &[ReportLine],
) -> Option<u32>
    requires summaries { AreSummaries graph.now summaries.now }
    requires few { length lines.now < 2 ^ 32 }
    ensures { IsFirstMissing graph.now (number_by texts.now) None 1 lines.now result }
{
    let mut before = None;
    for (k, line) in lines.iter().enumerate() {
        if !is_there(graph, summaries, texts, before, line) {
            return Some(k as u32 + 1);
        }
        before = line_node(texts, line);
    }
    None
}
