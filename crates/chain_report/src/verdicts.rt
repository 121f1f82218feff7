//! Whether a report is right about a graph.
ghost use Rattle.std.specs.Prelude.{◌≡◌, ◌<◌, ◌^◌, None, Some, length, IfOk};
ghost use Rattle.std.specs.Str.{bytes_eq};
ghost use Rattle.dep_nodes.specs.NumberedChains.{AreSummaries};
ghost use Rattle.chain_report.specs.Ends.{are_ends as are_ends_for, KeepFlows};
ghost use Rattle.chain_report.specs.NodeTexts.{number_by};
ghost use Rattle.chain_report.specs.Report.{level_name};
ghost use Rattle.chain_report.specs.Verify.{end_in as end_among, is_illegal as is_illegal_report, is_illegal_at as is_illegal_named, is_illegal_for as is_illegal_between, is_on_chain as is_chain_report, name_numbered as name_of_number, observer_in as observer_among, node_behind as node_past, start_in as start_among, IsVerdict, IsVerdictBy};

use crate::chain_checks::first_unchained;
use crate::ends::{hides, rows_of, shows};
use crate::line_checks::first_missing;
use crate::lines::push_level;
use crate::node_texts::{NodeTexts, node_texts, node_with};
use dep_nodes::{DependenceGraph, NodeName};
use jo_ids::{Id, LevelId, Memory};
use jo_order::Levels;
use jo_prog::labels::Labels;
use jo_prog::program::Program;
use report_texts::{ReportKind, ReportLine, ReportText};
use std::alloc::Global;
use summary_edges::Summaries;

/// Why a report isn't right. Lines are counted from 1.
#[derive(Clone, Copy, PartialEq, Eq, Debug)]
pub enum VerifyFault {
    /// The first line whose node isn't in the graph, or whose edge or `pass` step isn't there.
    NotAnEdge(u32),
    /// The first line at which the steps of a chain so far are no prefix of a valid chain, or a chain begins where it mustn't.
    NotAChain(u32),
    /// The report is on no chain that is illegal for the observer.
    NotIllegal,
    Memory,
}

/// Whether the report is on a chain.
fn is_on_chain(lines: &[ReportLine]) -> bool
    ensures { result ≡ is_chain_report lines.now }
{
    for line in lines {
        if let ReportLine::Refused(kind) = line {
            return matches!(kind, ReportKind::Chain);
        }
    }
    false
}

/// The node at which the first chain begins.
fn start_in(texts: &NodeTexts, lines: &[ReportLine]) -> Option<u32>
    ensures { result ≡ start_among (number_by texts.now) lines.now }
{
    for line in lines {
        if let ReportLine::From(text) = line {
            return node_with(texts, text.as_slice());
        }
    }
    None
}

/// The node behind a line.
fn end_behind(texts: &NodeTexts, before: Option<u32>, line: &ReportLine) -> Option<u32>
    ensures { result ≡ node_past (number_by texts.now) before line.now }
{
    match line {
        ReportLine::From(text) | ReportLine::Step(_, text) => node_with(texts, text.as_slice()),
        _ => before,
    }
}

/// The node at which the last chain ends.
fn end_in(texts: &NodeTexts, lines: &[ReportLine]) -> Option<u32>
    ensures { result ≡ end_among (number_by texts.now) None lines.now }
{
    let mut end = None;
    for line in lines {
        end = end_behind(texts, end, line);
    }
    end
}

fn name_numbered(graph: &DependenceGraph, number: Option<u32>) -> Option<NodeName>
    ensures { result ≡ name_of_number graph.now number }
{
    match number {
        None => None,
        Some(n) => {
            if n < graph.len() {
                return Some(*graph.node(Id::of(n)));
            }
            None
        }
    }
}

/// Where a chain begins and where it ends.
#[derive(Clone, Copy)]
struct Between {
    start: Option<u32>,
    end: Option<u32>,
}

fn are_ends(
    labels: &Labels,
    rows: &Option<Levels>,
    graph: &DependenceGraph,
    between: Between,
    observer: LevelId,
) -> bool
    requires { KeepFlows labels.now rows.now }
    ensures { result ≡ are_ends_for labels.now observer (name_of_number graph.now between.start) (name_of_number graph.now between.end) }
{
    match name_numbered(graph, between.start) {
        None => false,
        Some(from) => match name_numbered(graph, between.end) {
            None => false,
            Some(to) => {
                hides(labels, rows, observer, &from) && shows(labels, rows, observer, &to)
            }
        },
    }
}

fn has_name(alloc: Global, labels: &Labels, level: LevelId, name: &[u8]) -> Result<bool, Memory>
    ensures { IfOk result (λ same. same ≡ bytes_eq (level_name labels.now level) name.now) }
{
    let mut text = Vec::new(alloc);
    push_level(&mut text, labels, level)?;
    Ok(text.as_slice() == name)
}

fn is_illegal_at(
    alloc: Global,
    labels: &Labels,
    rows: &Option<Levels>,
    graph: &DependenceGraph,
    name: &[u8],
    between: Between,
    observer: LevelId,
) -> Result<bool, Memory>
    requires { KeepFlows labels.now rows.now }
    ensures { IfOk result (λ is. is ≡ is_illegal_named labels.now graph.now name.now between.start between.end observer) }
{
    if !has_name(alloc, labels, observer, name)? {
        return Ok(false);
    }
    Ok(are_ends(labels, rows, graph, between, observer))
}

/// Whether an observer has that name for whom a chain between these nodes is illegal.
fn is_illegal_for(
    alloc: Global,
    labels: &Labels,
    rows: &Option<Levels>,
    graph: &DependenceGraph,
    name: &[u8],
    between: Between,
) -> Result<bool, Memory>
    requires { KeepFlows labels.now rows.now }
    ensures { IfOk result (λ is. is ≡ is_illegal_between labels.now graph.now (Some name.now) between.start between.end) }
{
    for observer in labels.observers.as_slice() {
        if is_illegal_at(alloc, labels, rows, graph, name, between, *observer)? {
            return Ok(true);
        }
    }
    Ok(false)
}

/// The same for the observer that the report names.
fn is_illegal_in(
    alloc: Global,
    labels: &Labels,
    rows: &Option<Levels>,
    graph: &DependenceGraph,
    lines: &[ReportLine],
    between: Between,
) -> Result<bool, Memory>
    requires { KeepFlows labels.now rows.now }
    ensures { IfOk result (λ is. is ≡ is_illegal_between labels.now graph.now (observer_among lines.now) between.start between.end) }
{
    for line in lines {
        if let ReportLine::Observer(name) = line {
            return is_illegal_for(alloc, labels, rows, graph, name.as_slice(), between);
        }
    }
    Ok(false)
}

fn is_illegal(
    alloc: Global,
    labels: &Labels,
    graph: &DependenceGraph,
    texts: &NodeTexts,
    lines: &[ReportLine],
) -> Result<bool, Memory>
    ensures { IfOk result (λ is. is ≡ is_illegal_report labels.now graph.now (number_by texts.now) lines.now) }
{
    if !is_on_chain(lines) {
        return Ok(false);
    }
    let rows = rows_of(alloc, labels)?;
    let between = Between {
        start: start_in(texts, lines),
        end: end_in(texts, lines),
    };
    is_illegal_in(alloc, labels, &rows, graph, lines, between)
}

/// The first fault of a report, where its texts name these nodes.
fn verdict_by(
    alloc: Global,
    graph: &DependenceGraph,
    summaries: &Summaries,
    labels: &Labels,
    texts: &NodeTexts,
    lines: &[ReportLine],
) -> Result<(), VerifyFault>
    requires summaries { AreSummaries graph.now summaries.now }
    requires few { length lines.now < 2 ^ 32 }
    ensures { IsVerdictBy labels.now graph.now (number_by texts.now) lines.now result }
{
    match first_missing(graph, summaries, texts, lines) {
        Some(line) => Err(VerifyFault::NotAnEdge(line)),
        None => match first_unchained(alloc, graph, texts, lines) {
            Err(_) => Err(VerifyFault::Memory),
            Ok(Some(line)) => Err(VerifyFault::NotAChain(line)),
            Ok(None) => match is_illegal(alloc, labels, graph, texts, lines) {
                Err(_) => Err(VerifyFault::Memory),
                Ok(true) => Ok(()),
                Ok(false) => Err(VerifyFault::NotIllegal),
            },
        },
    }
}

/// Whether a report is on an illegal chain of the graph, and else the first fault that applies. Of two nodes with one
/// spelling a text names the first. A report on a conflict is never taken, so this is the verdict on graphs without forks.
pub fn verify_chain(
    alloc: Global,
    program: &Program,
    graph: &DependenceGraph,
    summaries: &Summaries,
    labels: &Labels,
    text: &ReportText,
) -> Result<(), VerifyFault>
    requires summaries { AreSummaries graph.now summaries.now }
    requires few { length text.now < 2 ^ 32 }
    ensures { IsVerdict program.now labels.now graph.now text.now result }
{
    match node_texts(alloc, program, graph) {
        Ok(texts) => {
            return verdict_by(alloc, graph, summaries, labels, &texts, text.as_slice());
        }
        Err(_) => return Err(VerifyFault::Memory),
    }
}
