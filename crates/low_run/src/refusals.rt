//! What an observer may not depend on and what it may see, and a chain from the one to the other.
ghost use Rattle.std.specs.Prelude.{◌≡◌, ◌^◌, ◌<◌, ℕ, IfOk, IfSome, IfNone, Some, Contains, length};
ghost use Rattle.jo_prog.specs.Labels.{reaches, misses, shown_at, brings, lets_out};
ghost use Rattle.dep_nodes.specs.Graphs.{WalksTo};
ghost use Rattle.dependence.specs.GraphData.{IsDependenceGraph};
ghost use Rattle.plain_graph.specs.Slices.{HasEdgesInside};
ghost use Rattle.low_run.specs.LevelFlows.{KeepsFlows};
ghost use Rattle.low_run.specs.Verdict.{label_resolved, CleanForAll, Reports};
ghost use Rattle.low_run.specs.Sides.{is_on, places_from, hidden_nodes, observed_nodes, IsForbiddenWalk};

use crate::level_flows::{flows, rows_of};
use chain_report::report;
use dep_nodes::{Chain, Graph, NodeKind, NodeName};
use jo_ids::{LevelId, MethodId, NodeId};
use jo_order::Levels;
use jo_prog::labels::{self, Label, Labels};
use jo_prog::program::Program;
use plain_graph::slicer;
use std::alloc::{AllocError as Memory, Global};

/// What the observer may not depend on, or what it may see.
#[derive(Clone, Copy)]
pub enum Side {
    Hidden,
    Observed,
}

/// Whether what is shown at a method with this label reaches the observer.
fn shows(labels: &Labels, rows: &Option<Levels>, observer: LevelId, label: Label) -> bool
    requires { KeepsFlows labels.now rows.now }
    ensures { result ≡ reaches labels.now observer (shown_at (Some label)) }
{
    match label {
        Label::Source(_) => false,
        Label::Sink(level) => flows(labels, rows, level, observer),
        Label::Release { to, .. } => flows(labels, rows, to, observer),
    }
}

/// Whether what a method with this label brings in is kept from the observer.
fn hides(labels: &Labels, rows: &Option<Levels>, observer: LevelId, label: Label) -> bool
    requires { KeepsFlows labels.now rows.now }
    ensures { result ≡ misses labels.now observer (brings (Some label)) }
{
    match label {
        Label::Source(level) => !flows(labels, rows, level, observer),
        Label::Sink(_) => false,
        Label::Release { to, .. } => !flows(labels, rows, to, observer),
    }
}

/// Whether what a release with this label lets out is the observer's to know.
fn lets_know(labels: &Labels, rows: &Option<Levels>, observer: LevelId, label: Label) -> bool
    requires { KeepsFlows labels.now rows.now }
    ensures { result ≡ reaches labels.now observer (lets_out (Some label)) }
{
    match label {
        Label::Source(_) => false,
        Label::Sink(_) => false,
        Label::Release { from, .. } => flows(labels, rows, from, observer),
    }
}

fn label_resolved(labels: &Labels, resolved: Option<MethodId>) -> Option<Label>
    ensures { result ≡ label_resolved labels.now resolved }
{
    match resolved {
        Some(method) => labels::label_of(labels, method),
        None => None,
    }
}

fn is_hidden(labels: &Labels, rows: &Option<Levels>, observer: LevelId, name: &NodeName) -> bool
    requires { KeepsFlows labels.now rows.now }
    ensures { result ≡ is_on Side.Hidden labels.now observer name.now }
{
    let label = match label_resolved(labels, name.resolved) {
        Some(label) => label,
        None => return false,
    };
    match name.kind {
        NodeKind::RetVal(_) => hides(labels, rows, observer, label),
        _ => false,
    }
}

fn is_observed(labels: &Labels, rows: &Option<Levels>, observer: LevelId, name: &NodeName) -> bool
    requires { KeepsFlows labels.now rows.now }
    ensures { result ≡ is_on Side.Observed labels.now observer name.now }
{
    let label = match label_resolved(labels, name.resolved) {
        Some(label) => label,
        None => return false,
    };
    match name.kind {
        NodeKind::Call(_) => shows(labels, rows, observer, label),
        NodeKind::Arg(_, place) => place == 0 && lets_know(labels, rows, observer, label),
        _ => false,
    }
}

fn is_on(
    side: Side,
    labels: &Labels,
    rows: &Option<Levels>,
    observer: LevelId,
    name: &NodeName,
) -> bool
    requires { KeepsFlows labels.now rows.now }
    ensures { result ≡ is_on side labels.now observer name.now }
{
    match side {
        Side::Hidden => is_hidden(labels, rows, observer, name),
        Side::Observed => is_observed(labels, rows, observer, name),
    }
}

/// The numbers of the graph's nodes on a side, in order.
fn nodes_on(
    alloc: Global,
    side: Side,
    labels: &Labels,
    rows: &Option<Levels>,
    observer: LevelId,
    graph: &Graph,
) -> Result<Vec<NodeId>, Memory>
    requires flows { KeepsFlows labels.now rows.now }
    requires small { length graph.now.nodes < 2 ^ 32 }
    ensures { IfOk result (λ nodes. nodes.items ≡ places_from (is_on side labels.now observer) 0 graph.now.nodes) }
{
    let mut nodes = Vec::new(alloc);
    for (place, name) in graph.nodes.as_slice().iter().enumerate() {
        if is_on(side, labels, rows, observer, name) {
            nodes.push(NodeId::of(place as u32))?;
        }
    }
    Ok(nodes)
}

/// A chain of the graph that is illegal for the observer.
fn chain_for(
    alloc: Global,
    labels: &Labels,
    rows: &Option<Levels>,
    graph: &Graph,
    observer: LevelId,
) -> Result<Option<Chain>, Memory>
    requires flows { KeepsFlows labels.now rows.now }
    requires small { length graph.now.nodes < 2 ^ 32 }
    requires edges { HasEdgesInside graph.now }
    ensures found { IfOk result (λ o. IfSome o (IsForbiddenWalk labels.now graph.now observer)) }
    ensures none { IfOk result (λ o. IfNone o ((from : ℕ) → Contains (hidden_nodes labels.now observer graph.now) from
        → WalksTo graph.now (observed_nodes labels.now observer graph.now) from → ⊥)) }
{
    let hidden = nodes_on(alloc, Side::Hidden, labels, rows, observer, graph)?;
    let observed = nodes_on(alloc, Side::Observed, labels, rows, observer, graph)?;
    slicer::find_walk(alloc, graph, hidden.as_slice(), observed.as_slice())
}

/// The same as `refusal`, by the rows of the levels.
fn refusal_by(
    alloc: Global,
    program: &Program,
    labels: &Labels,
    rows: &Option<Levels>,
    graph: &Graph,
) -> Result<Option<Vec<u8>>, Memory>
    requires flows { KeepsFlows labels.now rows.now }
    requires graph { IsDependenceGraph program.now labels.now graph.now }
    ensures clean { IfOk result (λ o. IfNone o (CleanForAll graph.now labels.now)) }
    ensures report { IfOk result (λ o. IfSome o (λ text. Reports program.now labels.now graph.now text.items)) }
{
    for observer in labels.observers.as_slice() {
        if let Some(chain) = chain_for(alloc, labels, rows, graph, *observer)? {
            let text = report(alloc, program, labels, graph, *observer, &chain)?;
            return Ok(Some(text));
        }
    }
    Ok(None)
}

/// The report for the first observer that has an illegal chain. None where the graph is clean for each.
pub fn refusal(
    alloc: Global,
    program: &Program,
    labels: &Labels,
    graph: &Graph,
) -> Result<Option<Vec<u8>>, Memory>
    requires { IsDependenceGraph program.now labels.now graph.now }
    ensures clean { IfOk result (λ o. IfNone o (CleanForAll graph.now labels.now)) }
    ensures report { IfOk result (λ o. IfSome o (λ text. Reports program.now labels.now graph.now text.items)) }
{
    let rows = rows_of(alloc, labels)?;
    refusal_by(alloc, program, labels, &rows, graph)
}
