//! The pairs, read off the closure.
ghost use Rattle.std.specs.Prelude.{◌≡◌, ◌<◌, length, slice_index_or, [], IfOk};
ghost use Rattle.std.specs.List.{filter};
ghost use Rattle.dep_nodes.specs.NumberedChains.{AreSummaries};
ghost use Rattle.summary_edges.specs.Calls.{IsCallTable};
ghost use Rattle.summary_edges.specs.Levels.{AreClosed};
ghost use Rattle.summary_edges.specs.Pairs.{pairs_with, IsPairRow};

use crate::calls::{call_row, call_table, comes_out, goes_in, same_call};
use crate::closing::close;
use crate::joins::{Sides, joins};
use crate::levels::{Way, edges_by_beginning, levels};
use crate::rows::{Rows, Summaries};
use dep_nodes::DependenceGraph;
use jo_graph::{Digraph, Work};
use jo_ids::{BitRow, Id, List, Memory, NodeId};
use std::alloc::Global;

/// Whether values go in at a node that was found, into the call that comes out at the other.
fn is_pair(graph: &DependenceGraph, found: &BitRow, from: NodeId, to: NodeId) -> bool
    requires to { to < length graph.now }
    requires found { length found.now ≡ length graph.now }
    ensures { result ≡ pairs_with graph.now found.now to from }
{
    if from.number() >= graph.len() {
        return false;
    }
    let name = graph.node(from);
    goes_in(name.kind) && (same_call(name, graph.node(to)) && found.has(from.number()))
}

/// The nodes of a call at which values go in and that were found.
fn found_beginnings(
    alloc: Global,
    graph: &DependenceGraph,
    found: &BitRow,
    members: &[NodeId],
    to: NodeId,
) -> Result<List<NodeId>, Memory>
    requires to { to < length graph.now }
    requires found { length found.now ≡ length graph.now }
    ensures { IfOk result (λ row. row ≡ filter (pairs_with graph.now found.now to) members.now) }
{
    let mut row = List::new(alloc);
    for from in members {
        if is_pair(graph, found, *from, to) {
            match row.push(*from) {
                Ok(()) => {}
                Err((_, memory)) => return Err(memory),
            }
        }
    }
    Ok(row)
}

/// The beginnings of the pairs that end at a node.
fn pair_row(
    alloc: Global,
    graph: &DependenceGraph,
    levels: &Digraph,
    calls: &Rows,
    to: NodeId,
    found: &mut BitRow,
    work: &mut Work,
) -> Result<List<NodeId>, Memory>
    requires to { to < length graph.now }
    requires levels { AreClosed graph.now levels.now }
    requires calls { IsCallTable graph.now calls.now }
    requires found { length found.old ≡ length graph.now }
    requires work { work.old ≡ length graph.now }
    ensures pairs { IfOk result (λ row. IsPairRow graph.now to row) }
    ensures found { length found.new ≡ length found.old }
    ensures work { work.new ≡ work.old }
{
    let name = graph.node(to);
    if !comes_out(name.kind) {
        return Ok(List::new(alloc));
    }
    let Some(row) = call_row(name, graph.len()) else {
        return Ok(List::new(alloc));
    };
    levels.reach(to.number(), found, work);
    found_beginnings(alloc, graph, found, calls.at(row), to)
}

/// The pairs of a graph whose closure is this one.
fn pairs(
    alloc: Global,
    graph: &DependenceGraph,
    levels: &Digraph,
    calls: &Rows,
) -> Result<Vec<List<NodeId>>, Memory>
    requires levels { AreClosed graph.now levels.now }
    requires calls { IsCallTable graph.now calls.now }
    ensures { IfOk result (λ rows. AreSummaries graph.now rows.items) }
{
    let count = graph.len();
    let mut found = BitRow::with_len(alloc, count)?;
    let mut work = Work::with_len(alloc, count)?;
    let mut rows = Vec::new(alloc);
    for to in 0..count {
        let row = pair_row(
            alloc,
            graph,
            levels,
            calls,
            Id::of(to),
            &mut found,
            &mut work,
        )?;
        rows.push(row)?;
    }
    Ok(rows)
}

/// The summary edges of a graph: exactly the pairs of where a call goes in and where it comes out that have a matched path.
pub fn summaries(alloc: Global, graph: &DependenceGraph) -> Result<Summaries, Memory>
    ensures { IfOk result (λ summaries. AreSummaries graph.now summaries) }
{
    let sides = Sides {
        openings: edges_by_beginning(alloc, graph, Way::Begins)?,
        returns: edges_by_beginning(alloc, graph, Way::Ends)?,
        calls: call_table(alloc, graph)?,
    };
    let mut closure = levels(alloc, graph)?;
    close(alloc, graph, &mut closure, joins(alloc, graph, &sides)?)?;
    Ok(Summaries::of(pairs(alloc, graph, &closure, &sides.calls)?))
}
