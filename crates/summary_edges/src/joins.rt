//! Where calls begin and where they end.
ghost use Rattle.std.specs.Prelude.{◌≡◌, ◌↔◌, ◌<◌, true, length, slice_index_or, [], Contains, IfOk, OnOk};
ghost use Rattle.summary_edges.specs.Adds.{From};
ghost use Rattle.summary_edges.specs.Calls.{IsCallTable};
ghost use Rattle.dep_nodes.specs.BalancedPaths.{begins_call};
ghost use Rattle.summary_edges.specs.Levels.{AddsJoins, AreEdgesLike, IsJoin, ends_call, joined, JoinsFrom, JoinsTo, JoinsInside, JoinsOut};
ghost use Rattle.summary_edges.specs.declared.joins.Join.{Join as JoinOf};

use crate::calls::{call_row, passes_over};
use crate::rows::Rows;
use dep_nodes::DependenceGraph;
use jo_ids::{Id, Memory, NodeId};
use std::alloc::Global;

/// An edge into what is called, and an edge from there back to the same call.
#[derive(Clone, Copy)]
pub struct Join {
    pub from: NodeId,
    pub into: NodeId,
    pub out: NodeId,
    pub to: NodeId,
}

/// What joins are found by.
#[derive(Drop)]
pub struct Sides {
    /// The ends of the edges that begin a call, by their beginnings.
    pub openings: Rows,
    /// The ends of the edges that end a call, by their beginnings.
    pub returns: Rows,
    /// The nodes by their calls.
    pub calls: Rows,
}

/// Adds a join for each of these edges from a node into what is called.
fn join_each(
    joins: &mut Vec<Join>,
    intos: &[NodeId],
    from: NodeId,
    out: NodeId,
    to: NodeId,
) -> Result<(), Memory>
    ensures { OnOk result (
        AddsJoins joins.old.items joins.new.items (From intos.now (λ into j. j ≡ joined from into out to))) }
{
    for into in intos {
        joins.push(Join {
            from,
            into: *into,
            out,
            to,
        })?;
    }
    Ok(())
}

/// Adds the joins with this return that begin at a node, if values go in there and the same call comes out.
fn join_from(
    joins: &mut Vec<Join>,
    graph: &DependenceGraph,
    sides: &Sides,
    from: NodeId,
    out: NodeId,
    to: NodeId,
) -> Result<(), Memory>
    requires { to < length graph.now }
    ensures { OnOk result (
        AddsJoins joins.old.items joins.new.items (JoinsFrom graph.now sides.now out to from)) }
{
    let number = from.number();
    if number >= graph.len() {
        return Ok(());
    }
    let beginning = graph.node(from);
    let end = graph.node(to);
    if !passes_over(beginning, end) {
        return Ok(());
    }
    let intos = sides.openings.at(number);
    join_each(joins, intos, from, out, to)?;
    Ok(())
}

/// Adds the joins with this return.
fn join_return(
    joins: &mut Vec<Join>,
    graph: &DependenceGraph,
    sides: &Sides,
    out: NodeId,
    to: NodeId,
) -> Result<(), Memory>
    requires { to < length graph.now }
    ensures { OnOk result (AddsJoins joins.old.items joins.new.items (JoinsTo graph.now sides.now out to)) }
{
    let Some(row) = call_row(graph.node(to), graph.len()) else {
        return Ok(());
    };
    for from in sides.calls.at(row) {
        join_from(joins, graph, sides, *from, out, to)?;
    }
    Ok(())
}

/// Adds the joins with this return, if it ends in the graph.
fn join_return_inside(
    joins: &mut Vec<Join>,
    graph: &DependenceGraph,
    sides: &Sides,
    out: NodeId,
    to: NodeId,
) -> Result<(), Memory>
    ensures { OnOk result (
        AddsJoins joins.old.items joins.new.items (JoinsInside graph.now sides.now out to)) }
{
    if to.number() >= graph.len() {
        return Ok(());
    }
    join_return(joins, graph, sides, out, to)?;
    Ok(())
}

/// Adds the joins with a return from this node.
fn join_returns(
    joins: &mut Vec<Join>,
    graph: &DependenceGraph,
    sides: &Sides,
    out: NodeId,
) -> Result<(), Memory>
    ensures { OnOk result (AddsJoins joins.old.items joins.new.items (JoinsOut graph.now sides.now out)) }
{
    for to in sides.returns.at(out.number()) {
        join_return_inside(joins, graph, sides, out, *to)?;
    }
    Ok(())
}

/// All joins of a graph, those with one return's beginning one after the other. What is called mostly has the greater
/// numbers, so it comes first.
pub fn joins(alloc: Global, graph: &DependenceGraph, sides: &Sides) -> Result<Vec<Join>, Memory>
    requires openings { AreEdgesLike graph.now begins_call sides.now.openings }
    requires returns { AreEdgesLike graph.now ends_call sides.now.returns }
    requires calls { IsCallTable graph.now sides.now.calls }
    ensures { IfOk result (λ joins. (j : JoinOf) → Contains joins.items j ↔ IsJoin graph.now j) }
{
    let mut joins = Vec::new(alloc);
    let count = graph.len();
    for k in 0..count {
        join_returns(&mut joins, graph, sides, Id::of(count - 1 - k))?;
    }
    Ok(joins)
}
