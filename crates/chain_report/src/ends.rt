//! What an observer may not depend on and what it may see.
ghost use Rattle.std.specs.Prelude.{◌≡◌, IfOk, Some};
ghost use Rattle.jo_prog.specs.Labels.{flows as labels_flow, reaches, misses, shown_at, brings, lets_out};
ghost use Rattle.chain_report.specs.Ends.{hides as is_hidden, label_named, shows as is_shown, KeepFlows};

use dep_nodes::{NodeKind, NodeName};
use jo_ids::{LevelId, Memory, MethodId};
use jo_order::{Levels, Order, OrderFault};
use jo_prog::labels::{self, Label, Labels};
use std::alloc::Global;

/// How many names and pairs are put in order.
const MOST: usize = 1 << 31;

/// The rows of the levels; none where they are in no order, as those of a policy are.
pub(crate) fn rows_of(alloc: Global, labels: &Labels) -> Result<Option<Levels>, Memory>
    ensures { IfOk result (KeepFlows labels.now) }
{
    let names = labels.levels.as_slice();
    let pairs = labels.flows.as_slice();
    if names.len() > MOST || pairs.len() > MOST {
        return Ok(None);
    }
    match Levels::build(alloc, names, pairs) {
        Ok(rows) => Ok(Some(rows)),
        Err(OrderFault::Memory) => Err(Memory),
        Err(_) => Ok(None),
    }
}

fn flows(labels: &Labels, rows: &Option<Levels>, a: LevelId, b: LevelId) -> bool
    requires { KeepFlows labels.now rows.now }
    ensures { result ≡ labels_flow labels.now a b }
{
    match rows {
        Some(rows) => rows.flows(a, b),
        None => labels::flows(labels, a, b),
    }
}

fn label_named(labels: &Labels, resolved: Option<MethodId>) -> Option<Label>
    ensures { result ≡ label_named labels.now resolved }
{
    match resolved {
        Some(method) => labels::label_of(labels, method),
        None => None,
    }
}

/// Whether what a method with this label brings in is kept from the observer.
fn brings_hidden(labels: &Labels, rows: &Option<Levels>, observer: LevelId, label: Label) -> bool
    requires { KeepFlows labels.now rows.now }
    ensures { result ≡ misses labels.now observer (brings (Some label)) }
{
    match label {
        Label::Source(level) => !flows(labels, rows, level, observer),
        Label::Sink(_) => false,
        Label::Release { to, .. } => !flows(labels, rows, to, observer),
    }
}

/// Whether what is shown at a method with this label reaches the observer.
fn shows_call(labels: &Labels, rows: &Option<Levels>, observer: LevelId, label: Label) -> bool
    requires { KeepFlows labels.now rows.now }
    ensures { result ≡ reaches labels.now observer (shown_at (Some label)) }
{
    match label {
        Label::Source(_) => false,
        Label::Sink(level) => flows(labels, rows, level, observer),
        Label::Release { to, .. } => flows(labels, rows, to, observer),
    }
}

/// Whether what a release with this label lets out is the observer's to know.
fn shows_argument(labels: &Labels, rows: &Option<Levels>, observer: LevelId, label: Label) -> bool
    requires { KeepFlows labels.now rows.now }
    ensures { result ≡ reaches labels.now observer (lets_out (Some label)) }
{
    match label {
        Label::Source(_) => false,
        Label::Sink(_) => false,
        Label::Release { from, .. } => flows(labels, rows, from, observer),
    }
}

/// Whether the observer may not depend on the node.
pub(crate) fn hides(
    labels: &Labels,
    rows: &Option<Levels>,
    observer: LevelId,
    name: &NodeName,
) -> bool
    requires { KeepFlows labels.now rows.now }
    ensures { result ≡ is_hidden labels.now observer name.now }
{
    let label = match label_named(labels, name.resolved) {
        Some(label) => label,
        None => return false,
    };
    match name.kind {
        NodeKind::RetVal(_) => brings_hidden(labels, rows, observer, label),
        _ => false,
    }
}

/// Whether the observer may see the node.
pub(crate) fn shows(
    labels: &Labels,
    rows: &Option<Levels>,
    observer: LevelId,
    name: &NodeName,
) -> bool
    requires { KeepFlows labels.now rows.now }
    ensures { result ≡ is_shown labels.now observer name.now }
{
    let label = match label_named(labels, name.resolved) {
        Some(label) => label,
        None => return false,
    };
    match name.kind {
        NodeKind::Call(_) => shows_call(labels, rows, observer, label),
        NodeKind::Arg(_, place) => place == 0 && shows_argument(labels, rows, observer, label),
        _ => false,
    }
}
