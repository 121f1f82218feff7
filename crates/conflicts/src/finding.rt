//! The search for a conflict, fork by fork.
ghost use Rattle.std.specs.Prelude.{◌≡◌, length};
ghost use Rattle.thread_regions.specs.Regions.{AreRegions};
ghost use Rattle.conflicts.specs.Finding.{IsIn, IsOrderAt, IsOrderAmong, IsDataAtCell, IsDataAtCells, IsDataAt, IsDataAmong, IsFirstConflict};

use crate::clashes::clash;
use crate::sides::{Side, first_seen};
use dep_nodes::{CellAccesses, DependenceGraph};
use jo_ids::{BitRow, Id};
use thread_regions::{Conflict, ForkRegions, Regions};

/// An order conflict between two nodes of `visible` if there is one, else a data conflict between two nodes of `leads`; none
/// where there is neither. The regions are those of the graph. No memory; linear in the nodes and accesses for each fork.
pub fn find(
    graph: &DependenceGraph,
    regions: &Regions,
    visible: &BitRow,
    leads: &BitRow,
) -> Option<Conflict>
    requires regions { AreRegions graph.now regions.now }
    requires visible { length visible.now ≡ length graph.now }
    requires leads { length leads.now ≡ length graph.now }
    ensures { IsFirstConflict graph.now (IsIn visible.now) (IsIn leads.now) result }
{
    match order_conflict(regions.as_slice(), visible) {
        Some(conflict) => Some(conflict),
        None => data_conflict(graph, regions.as_slice(), leads),
    }
}

/// An order conflict at the first fork that has one.
fn order_conflict(forks: &[ForkRegions], visible: &BitRow) -> Option<Conflict>
    ensures { IsOrderAmong forks.now visible.now result }
{
    for regions in forks {
        if let Some(conflict) = order_at(regions, visible) {
            return Some(conflict);
        }
    }
    None
}

/// An order conflict at a fork.
fn order_at(regions: &ForkRegions, visible: &BitRow) -> Option<Conflict>
    ensures { IsOrderAt regions.now visible.now result }
{
    let inside = first_seen(regions, Side::Child, visible)?;
    let after = first_seen(regions, Side::After, visible)?;
    Some(Conflict {
        order: true,
        fork: regions.fork,
        inside,
        after,
    })
}

/// A data conflict at the first fork that has one.
fn data_conflict(graph: &DependenceGraph, forks: &[ForkRegions], leads: &BitRow) -> Option<Conflict>
    ensures { IsDataAmong graph.now forks.now leads.now result }
{
    for regions in forks {
        if let Some(conflict) = data_at(graph, regions, leads) {
            return Some(conflict);
        }
    }
    None
}

/// A data conflict at a fork. Linear in the accesses of the graph.
fn data_at(graph: &DependenceGraph, regions: &ForkRegions, leads: &BitRow) -> Option<Conflict>
    ensures { IsDataAt graph.now regions.now leads.now result }
{
    data_among(graph.cells(), regions, leads)
}

/// A data conflict at a fork, at the first of these cells that has one.
fn data_among(cells: &[CellAccesses], regions: &ForkRegions, leads: &BitRow) -> Option<Conflict>
    ensures { IsDataAtCells cells.now regions.now leads.now result }
{
    for cell in cells {
        if let Some(conflict) = data_at_cell(cell, regions, leads) {
            return Some(conflict);
        }
    }
    None
}

/// A data conflict at a fork, at this cell.
fn data_at_cell(cell: &CellAccesses, regions: &ForkRegions, leads: &BitRow) -> Option<Conflict>
    ensures { IsDataAtCell cell.now regions.now leads.now result }
{
    let (inside, after) = clash(regions, leads, cell.accessors.as_slice())?;
    Some(Conflict {
        order: false,
        fork: regions.fork,
        inside: inside.node,
        after: after.node,
    })
}
