//! The cells that are accessed, each with its accesses.
ghost use Rattle.std.specs.Prelude.{◌≡◌, ◌++◌, ◌∷◌, [], map, Contains, IfOk, OnErr, OnOk};
ghost use Rattle.dep_nodes.specs.AccessTables.{ListsAccess};

use crate::accesses::Cell;
use crate::once_lists::OnceList;
use jo_ids::{List, Memory, NodeId};
use std::alloc::Global;
use std::marker::Model;

/// An access of a cell: the node, and whether it writes the cell.
#[derive(Clone, Copy, PartialEq, Eq)]
pub struct Accessor {
    pub node: NodeId,
    pub write: bool,
}

/// A cell that some node accesses, with its accesses.
#[derive(Drop)]
pub struct CellAccesses {
    pub cell: Cell,
    pub accessors: List<Accessor>,
}

/// Cells in the order in which they were first accessed, each with its accesses in order of adding, which contracts see as
/// the list of these. An access takes at most 16 bytes here, and a cell a constant number.
#[derive(Drop)]
pub struct AccessTable {
    cells: Vec<CellAccesses>,
    /// The same cells, which finds the place of each.
    names: OnceList<Cell>,
    alloc: Global,
}

impl Model for AccessTable {
    ghost use Rattle.std.specs.Prelude.{List as Items, map, ◌≡◌};
    ghost use Rattle.dep_nodes.specs.declared.access_table.CellAccesses.{CellAccesses};

    ghost Value = { Items CellAccesses };

    ghost view = { λ t. t.cells.items };

    ghost invariant = { λ t. t.names ≡ map (λ at. at.cell) t.cells.items };
}

impl AccessTable {
    /// The table without cells. It takes no memory.
    pub fn new(alloc: Global) -> AccessTable
        ensures { result ≡ [] }
    {
        AccessTable {
            cells: Vec::new(alloc),
            names: OnceList::new(alloc),
            alloc,
        }
    }

    /// Adds the access behind those of its cell. A cell that isn't there comes to the end.
    pub fn add(&mut self, cell: Cell, accessor: Accessor) -> Result<(), Memory>
        ensures ok { OnOk result (ListsAccess self.old self.new cell accessor) }
        ensures err { OnErr result (self.new ≡ self.old) }
    {
        let Some(place) = self.names.find(&cell) else {
            return self.add_cell(cell, accessor);
        };
        match self.cells[place].accessors.push(accessor) {
            Ok(()) => Ok(()),
            Err(_) => Err(Memory),
        }
    }

    /// Adds a cell that isn't there at the end, with its first access.
    fn add_cell(&mut self, cell: Cell, accessor: Accessor) -> Result<(), Memory>
        requires { Contains (map (λ at. at.cell) self.old) cell → ⊥ }
        ensures ok { OnOk result (self.new ≡ self.old ++ record { cell = cell; accessors = accessor ∷ [] } ∷ []) }
        ensures err { OnErr result (self.new ≡ self.old) }
    {
        let first = accessed_once(self.alloc, &cell, accessor)?;
        self.names.push_new(cell)?;
        match self.cells.push(first) {
            Ok(()) => Ok(()),
            Err(_) => {
                self.names.drop_last();
                Err(Memory)
            }
        }
    }

    /// The cells, each with its accesses.
    pub fn as_slice(&self) -> &[CellAccesses]
        ensures { result.now ≡ self.now }
    {
        self.cells.as_slice()
    }
}

/// A cell with its first access.
fn accessed_once(alloc: Global, cell: &Cell, accessor: Accessor) -> Result<CellAccesses, Memory>
    ensures { IfOk result (λ first. first ≡ record { cell = cell.now; accessors = accessor ∷ [] }) }
{
    let mut accessors = List::new(alloc);
    match accessors.push(accessor) {
        Ok(()) => Ok(CellAccesses {
            cell: *cell,
            accessors,
        }),
        Err(_) => Err(Memory),
    }
}
