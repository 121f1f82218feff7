//! Edges from what writes a cell to what reads it.
ghost use Rattle.std.specs.Prelude.{◌≡◌, ◌↔◌, ◌⊎◌, ◌<◌, ◌++◌, ◌∷◌, [], ℕ, length, Contains, IfOk, OnOk, OnErr};
ghost use Rattle.dep_nodes.specs.declared.access_table.Accessor.{Accessor as AnAccessor};
ghost use Rattle.heap_deps.specs.Items.{GrowsOrStops};
ghost use Rattle.heap_deps.specs.Adds.{From};
ghost use Rattle.heap_deps.specs.declared.cell_edges.CellEnds.{CellEnds as EndsOfCell};
ghost use Rattle.heap_deps.specs.CellEdges.{heap_to, EdgesFrom, EdgesBetween, LeadsBy, LeadsThrough, AreEndsOf, IsHeapItem};

use crate::additions::add_heap_edge;
use dep_nodes::{Accessor, CellAccesses, DependenceGraph, GraphFault};
use jo_ids::{List, Memory, NodeId};
use std::alloc::Global;

/// The nodes that write a cell, and those that read it.
#[derive(Drop)]
pub struct CellEnds {
    pub writers: List<NodeId>,
    pub readers: List<NodeId>,
}

// ---- the ends of edges

/// Adds the node of an access that writes, or of one that reads.
fn add_node(nodes: &mut List<NodeId>, accessor: &Accessor, write: bool) -> Result<(), Memory>
    ensures { OnOk result ((n : ℕ) → Contains nodes.new n ↔ (Contains nodes.old n ⊎ (accessor.now ≡ record { node = n; write = write }))) }
{
    if accessor.write != write {
        return Ok(());
    }
    match nodes.push(accessor.node) {
        Ok(()) => Ok(()),
        Err((_, memory)) => Err(memory),
    }
}

/// The nodes of the accesses that write, or of those that read.
fn nodes_of(alloc: Global, accessors: &[Accessor], write: bool) -> Result<List<NodeId>, Memory>
    ensures { IfOk result (λ nodes. (n : ℕ) → Contains nodes n ↔ Contains accessors.now (record { node = n; write = write })) }
{
    let mut nodes = List::new(alloc);
    for accessor in accessors {
        add_node(&mut nodes, accessor, write)?;
    }
    Ok(nodes)
}

fn ends_at(alloc: Global, accessors: &[Accessor]) -> Result<CellEnds, Memory>
    ensures { IfOk result (λ ends. (from to : ℕ) → LeadsThrough ends from to ↔ LeadsBy accessors.now from to) }
{
    let writers = nodes_of(alloc, accessors, true)?;
    let readers = nodes_of(alloc, accessors, false)?;
    Ok(CellEnds { writers, readers })
}

fn add_ends(all: &mut List<CellEnds>, ends: CellEnds) -> Result<(), Memory>
    ensures { OnOk result (all.new ≡ all.old ++ ends ∷ []) }
{
    match all.push(ends) {
        Ok(()) => Ok(()),
        Err(_) => Err(Memory),
    }
}

/// The ends of each cell, which stay as they are while edges are added.
fn ends_of(alloc: Global, cells: &[CellAccesses]) -> Result<List<CellEnds>, Memory>
    ensures { IfOk result (λ all. AreEndsOf cells.now all) }
{
    let mut all = List::new(alloc);
    for at in cells {
        let ends = ends_at(alloc, at.accessors.as_slice())?;
        add_ends(&mut all, ends)?;
    }
    Ok(all)
}

// ---- edges

/// Adds an edge from a node to each of these.
fn add_edges_from(
    graph: &mut DependenceGraph,
    from: NodeId,
    readers: &[NodeId],
) -> Result<(), GraphFault>
    requires { (to : ℕ) → Contains readers.now to → (from < length graph.old) × (to < length graph.old) }
    ensures { GrowsOrStops result graph.old graph.new (EdgesFrom readers.now from) }
{
    for to in readers {
        add_heap_edge(graph, from, *to)?;
    }
    Ok(())
}

/// Adds an edge from each node that writes a cell to each that reads it.
fn add_edges_between(graph: &mut DependenceGraph, ends: &CellEnds) -> Result<(), GraphFault>
    requires { (from to : ℕ) → LeadsThrough ends.now from to → (from < length graph.old) × (to < length graph.old) }
    ensures { GrowsOrStops result graph.old graph.new (EdgesBetween ends.now) }
{
    let readers = ends.readers.as_slice();
    for from in ends.writers.as_slice() {
        add_edges_from(graph, *from, readers)?;
    }
    Ok(())
}

/// Adds the edges of all these cells.
fn add_edges_of(graph: &mut DependenceGraph, all: &[CellEnds]) -> Result<(), GraphFault>
    requires { (ends : EndsOfCell) (from to : ℕ) → Contains all.now ends → LeadsThrough ends from to → (from < length graph.old) × (to < length graph.old) }
    ensures { GrowsOrStops result graph.old graph.new (From all.now EdgesBetween) }
{
    for ends in all {
        add_edges_between(graph, ends)?;
    }
    Ok(())
}

/// Adds a heap edge from each node that writes a cell to each that reads it, itself too.
pub fn add_cell_edges(alloc: Global, graph: &mut DependenceGraph) -> Result<(), GraphFault>
    ensures { GrowsOrStops result graph.old graph.new (IsHeapItem graph.old) }
{
    let all = match ends_of(alloc, graph.cells()) {
        Ok(all) => all,
        Err(_) => return Err(GraphFault::Memory),
    };
    add_edges_of(graph, all.as_slice())
}
