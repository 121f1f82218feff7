//! Which nodes belong to one call.
ghost use Rattle.std.specs.Prelude.{◌≡◌, ◌+◌, ◌<◌, ◌*◌, ◌^◌, length, sum, IfOk, IfSome, OnOk};
ghost use Rattle.std.specs.Str.{bytes_eq};
ghost use Rattle.dep_nodes.specs.Nodes.{node_named, sites_of, pc_of as pc_in};
ghost use Rattle.dep_nodes.specs.Chains.{goes_in as is_beginning, comes_out as is_outcome};
ghost use Rattle.summary_edges.specs.Calls.{one_call, passes_over as is_passed_over, row_of_node, IsCallTable, IsTableBelow};

use crate::rows::Rows;
use dep_nodes::{DependenceGraph, NodeKind, NodeName, SiteList};
use jo_ids::{Id, Memory};
use std::alloc::Global;

/// Whether values go into a call at such a node.
pub fn goes_in(kind: NodeKind) -> bool
    ensures { result ≡ is_beginning kind }
{
    matches!(kind, NodeKind::Arg(..) | NodeKind::Call(_))
}

/// Whether a call comes out at such a node.
pub fn comes_out(kind: NodeKind) -> bool
    ensures { result ≡ is_outcome kind }
{
    matches!(
        kind,
        NodeKind::RetVal(_) | NodeKind::RetKind(_) | NodeKind::Throw(_)
    )
}

/// The pc of a node that has one.
fn pc_of(kind: NodeKind) -> Option<u32>
    ensures { result ≡ pc_in kind }
{
    match kind {
        NodeKind::Instr(pc)
        | NodeKind::Call(pc)
        | NodeKind::RetVal(pc)
        | NodeKind::RetKind(pc)
        | NodeKind::Throw(pc)
        | NodeKind::Poll(pc, _)
        | NodeKind::XPoll(pc, _)
        | NodeKind::Arg(pc, _) => Some(pc),
        NodeKind::Entry
        | NodeKind::Exit
        | NodeKind::Catch(_)
        | NodeKind::Param(_)
        | NodeKind::Kind
        | NodeKind::Value
        | NodeKind::Thrown => None,
    }
}

/// Whether both are the same list.
fn same_sites(a: &SiteList, b: &SiteList) -> bool
    ensures { result ≡ bytes_eq (sites_of a.now) (sites_of b.now) }
{
    match (a.len, b.len) {
        (0, 0) => true,
        (0, _) | (_, 0) => false,
        (1, 1) => a.first.number() == b.first.number(),
        (1, _) | (_, 1) => false,
        _ => a.first.number() == b.first.number() && a.second.number() == b.second.number(),
    }
}

/// The sum of the list's numbers.
fn sum_of_sites(sites: &SiteList) -> u64
    ensures value { result ≡ sum (sites_of sites.now) }
    ensures bound { result < 2 * 2 ^ 32 }
{
    match sites.len {
        0 => 0,
        1 => u64::from(sites.first.number()),
        _ => u64::from(sites.first.number()) + u64::from(sites.second.number()),
    }
}

/// Whether both nodes belong to one call.
pub fn same_call(a: &NodeName, b: &NodeName) -> bool
    ensures { result ≡ one_call (node_named a.now) (node_named b.now) }
{
    match (pc_of(a.kind), pc_of(b.kind)) {
        (Some(p), Some(q)) => {
            a.method.number() == b.method.number() && (same_sites(&a.sites, &b.sites) && p == q)
        }
        _ => false,
    }
}

/// Whether values go at the first node into the call that comes out at the second.
pub fn passes_over(from: &NodeName, to: &NodeName) -> bool
    ensures { result ≡ is_passed_over (node_named from.now) (node_named to.now) }
{
    goes_in(from.kind) && (comes_out(to.kind) && same_call(from, to))
}

/// The row of a node's call in a table with so many rows. Any factors would do: these spread the pcs of a method.
pub fn call_row(name: &NodeName, count: u32) -> Option<u32>
    requires { 0 < count }
    ensures row { result ≡ row_of_node count (node_named name.now) }
    ensures below { IfSome result (λ row. row < count) }
{
    let pc = pc_of(name.kind)?;
    let method = u64::from(name.method.number());
    let mixed = 31 * method + 7 * sum_of_sites(&name.sites) + u64::from(pc);
    Some((mixed % u64::from(count)) as u32)
}

/// Adds a node to the row of its call, if it belongs to one.
fn add_to_table(rows: &mut Rows, graph: &DependenceGraph, n: u32) -> Result<(), Memory>
    requires n { n < length graph.now }
    requires table { IsTableBelow graph.now n rows.old }
    ensures { OnOk result (IsTableBelow graph.now (n + 1) rows.new) }
{
    let node = Id::of(n);
    let count = graph.len();
    match call_row(graph.node(node), count) {
        Some(row) => {
            rows.add(row, node)?;
            Ok(())
        }
        None => Ok(()),
    }
}

/// The table of the nodes by their calls.
pub fn call_table(alloc: Global, graph: &DependenceGraph) -> Result<Rows, Memory>
    ensures { IfOk result (λ rows. IsCallTable graph.now rows) }
{
    let count = graph.len();
    let mut rows = Rows::with_len(alloc, count)?;
    for n in 0..count {
        add_to_table(&mut rows, graph, n)?;
    }
    Ok(rows)
}
