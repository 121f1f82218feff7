//! Whether the chains of a report are valid and begin as they must.
ghost use Rattle.std.specs.Prelude.{◌≡◌, ◌<◌, ◌^◌, length, IfOk};
ghost use Rattle.dep_nodes.specs.Nodes.{node_named};
ghost use Rattle.dep_nodes.specs.NumberedChains.{name_at};
ghost use Rattle.chain_report.specs.NodeTexts.{number_by};
ghost use Rattle.chain_report.specs.OpenCalls.{IsStepped};
ghost use Rattle.chain_report.specs.Progress.{progress_of};
ghost use Rattle.chain_report.specs.Verify.{beginning, begun, first_unchained as first_wrong, may_begin as chain_may_begin, progress_behind, stepped};

use crate::node_texts::{NodeTexts, node_with};
use crate::open_calls::{OpenCall, go_on};
use dep_nodes::{DependenceGraph, NodeKind, NodeName, SiteList, Word};
use jo_ids::{Id, Memory};
use report_texts::ReportLine;
use std::alloc::Global;

/// What the lines so far say of the chain that goes on: the node of the line before, the calls that are open there, and
/// where the next two chains must begin, if anywhere.
#[derive(Drop)]
struct Reading {
    at: Option<u32>,
    calls: Vec<OpenCall>,
    first: Option<u32>,
    second: Option<u32>,
}

/// The name of a node, or that of no node.
fn name_with(graph: &DependenceGraph, number: u32) -> NodeName
    ensures { node_named result ≡ name_at graph.now number }
{
    if number < graph.len() {
        return *graph.node(Id::of(number));
    }
    NodeName {
        method: Id::of(0),
        sites: SiteList {
            len: 0,
            first: Id::of(0),
            second: Id::of(0),
        },
        kind: NodeKind::Entry,
        resolved: None,
    }
}

fn may_begin(must: Option<u32>, from: Option<u32>) -> bool
    ensures { result ≡ chain_may_begin must from }
{
    match must {
        None => true,
        Some(must) => match from {
            None => false,
            Some(from) => must == from,
        },
    }
}

/// Begins a chain; false where it may not begin there.
fn begin(reading: &mut Reading, from: Option<u32>) -> bool
    ensures { IsStepped result (begun (chain_may_begin reading.old.first from) (progress_of reading.old) from) (progress_of reading.new) }
{
    if !may_begin(reading.first, from) {
        return false;
    }
    reading.at = from;
    reading.calls.clear();
    reading.first = reading.second;
    reading.second = None;
    true
}

/// Goes on by a step; false where it may not stand there.
fn step(
    reading: &mut Reading,
    graph: &DependenceGraph,
    word: Word,
    to: Option<u32>,
) -> Result<bool, Memory>
    ensures { IfOk result (λ may. IsStepped may (stepped graph.now (progress_of reading.old) word to) (progress_of reading.new)) }
{
    let Some(from) = reading.at else {
        return Ok(false);
    };
    let Some(to) = to else {
        return Ok(false);
    };
    let begin = name_with(graph, from);
    let end = name_with(graph, to);
    let may = go_on(&mut reading.calls, &begin, word, &end)?;
    if may {
        reading.at = Some(to);
    }
    Ok(may)
}

/// Goes on by a line; false where no valid chain does.
fn advance(
    reading: &mut Reading,
    graph: &DependenceGraph,
    texts: &NodeTexts,
    line: &ReportLine,
) -> Result<bool, Memory>
    ensures { IfOk result (λ may. IsStepped may (progress_behind graph.now (number_by texts.now) (progress_of reading.old) line.now) (progress_of reading.new)) }
{
    match line {
        ReportLine::In(text) => {
            reading.first = node_with(texts, text.as_slice());
            Ok(true)
        }
        ReportLine::After(text) => {
            reading.second = node_with(texts, text.as_slice());
            Ok(true)
        }
        ReportLine::From(text) => Ok(begin(reading, node_with(texts, text.as_slice()))),
        ReportLine::Step(word, text) => {
            step(reading, graph, *word, node_with(texts, text.as_slice()))
        }
        _ => Ok(true),
    }
}

/// The number of the first line at which the steps of a chain so far are no prefix of a valid chain, or a chain begins at
/// another node than it must.
pub(crate) fn first_unchained(
    alloc: Global,
    graph: &DependenceGraph,
    texts: &NodeTexts,
    lines: &[ReportLine],
) -> Result<Option<u32>, Memory>
    requires { length lines.now < 2 ^ 32 }
    ensures { IfOk result (λ wrong. wrong ≡ first_wrong graph.now (number_by texts.now) beginning 1 lines.now) }
{
    let mut reading = Reading {
        at: None,
        calls: Vec::new(alloc),
        first: None,
        second: None,
    };
    for (k, line) in lines.iter().enumerate() {
        if !advance(&mut reading, graph, texts, line)? {
            return Ok(Some(k as u32 + 1));
        }
    }
    Ok(None)
}
