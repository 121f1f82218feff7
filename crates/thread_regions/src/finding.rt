//! The regions of the forks of a graph, by a search for each.
ghost use Rattle.std.specs.Prelude.{◌≡◌, ◌<◌, ◌*◌, ◌+◌, ◌^◌, ℕ, length, IfOk};
ghost use Rattle.jo_ids.specs.Rows.{has_number};
ghost use Rattle.dep_nodes.specs.Regions.{AreForks, HasTooManyForks};
ghost use Rattle.thread_regions.specs.Regions.{AreRegions, IsLimitedWhere, IsRegionFrom};

use crate::forks::forks_of;
use crate::search::{SPOTS, Spot, search_graph};
use crate::tables::{ForkRegions, Regions};
use dep_nodes::{DependenceGraph, GraphFault};
use jo_graph::{Digraph, Work};
use jo_ids::{BitRow, LimitKind, List, Memory, NodeId};
use std::alloc::Global;

/// How many forks a graph may have.
const MOST_FORKS: usize = 256;

/// The regions of the forks of a graph, of which there may be 256.
pub fn regions(alloc: Global, graph: &DependenceGraph) -> Result<Regions, GraphFault>
    ensures ok { IfOk result (λ regions. AreRegions graph.now regions) }
    ensures limit { IsLimitedWhere result (HasTooManyForks graph.now) }
{
    match forks_of(alloc, graph) {
        Ok(forks) => limited(alloc, graph, forks.as_slice()),
        Err(_) => Err(GraphFault::Memory),
    }
}

/// The regions of these forks, unless there are too many.
fn limited(alloc: Global, graph: &DependenceGraph, forks: &[NodeId]) -> Result<Regions, GraphFault>
    requires { AreForks graph.now forks.now }
    ensures ok { IfOk result (λ regions. AreRegions graph.now regions) }
    ensures limit { IsLimitedWhere result (HasTooManyForks graph.now) }
{
    if forks.len() > MOST_FORKS {
        return Err(GraphFault::Limit(LimitKind::M7));
    }
    if graph.len() > u32::MAX / SPOTS {
        return Err(GraphFault::Memory);
    }
    match regions_of(alloc, graph, forks) {
        Ok(regions) => Ok(regions),
        Err(_) => Err(GraphFault::Memory),
    }
}

/// The regions of these forks.
fn regions_of(alloc: Global, graph: &DependenceGraph, forks: &[NodeId]) -> Result<Regions, Memory>
    requires forks { AreForks graph.now forks.now }
    requires size { 5 * length graph.now < 2 ^ 32 }
    ensures { IfOk result (λ regions. AreRegions graph.now regions) }
{
    let spots = SPOTS * graph.len();
    let search = search_graph(alloc, graph)?;
    let mut found = BitRow::with_len(alloc, spots)?;
    let mut work = Work::with_len(alloc, spots)?;
    let mut all = List::new(alloc);
    for fork in forks {
        let regions = fork_regions(alloc, &search, *fork, graph.len(), &mut found, &mut work)?;
        match all.push(regions) {
            Ok(()) => {}
            Err((_, memory)) => return Err(memory),
        }
    }
    Ok(Regions::of(all))
}

/// The regions of a fork.
fn fork_regions(
    alloc: Global,
    search: &Digraph,
    fork: NodeId,
    len: u32,
    found: &mut BitRow,
    work: &mut Work,
) -> Result<ForkRegions, Memory>
    requires fork { fork < len }
    requires search { length search.now ≡ 5 * len }
    requires size { length search.now < 2 ^ 32 }
    requires found { length found.old ≡ length search.now }
    requires work { work.old ≡ length search.now }
    ensures fork { IfOk result (λ regions. regions.fork ≡ fork) }
    ensures child { IfOk result (λ regions. IsRegionFrom search.now (5 * fork + 3) len regions.child) }
    ensures after { IfOk result (λ regions. IsRegionFrom search.now (5 * fork + 4) len regions.after) }
    ensures found { length found.new ≡ length found.old }
    ensures work { work.new ≡ work.old }
{
    search.reach(Spot::ChildOf(fork.number()).number(), found, work);
    let child = nodes_found(alloc, len, found)?;
    search.reach(Spot::AfterOf(fork.number()).number(), found, work);
    let after = nodes_found(alloc, len, found)?;
    Ok(ForkRegions { fork, child, after })
}

/// The nodes below that number whose spots were found.
fn nodes_found(alloc: Global, len: u32, found: &BitRow) -> Result<BitRow, Memory>
    requires found { length found.now ≡ 5 * len }
    requires size { 5 * len < 2 ^ 32 }
    ensures length { IfOk result (λ row. length row ≡ len) }
    ensures each { IfOk result (λ row. (n : ℕ) → n < len → has_number row n ≡ has_number found.now (5 * n)) }
{
    let mut row = BitRow::with_len(alloc, len)?;
    for n in 0..len {
        if found.has(Spot::Node(n).number()) {
            row.set(n);
        }
    }
    Ok(row)
}
