//! The keys of what the lists of a graph hold.
ghost use Rattle.std.specs.Prelude.{◌≡◌};
ghost use Rattle.dep_nodes.specs.ItemKeys.{mixed_key, kind_key, edge_key, object_key, cell_key, access_key};

use crate::accesses::{Access, Cell, ObjName};
use crate::kinds::EdgeKind;
use crate::once_lists::Keyed;
use jo_ids::{Id, Nodes};

impl Keyed for Id<Nodes> {
    ghost key = { λ node. mixed_key node 0 };

    fn key(&self) -> u32 {
        mixed(self.number(), 0)
    }

    fn is(&self, other: &Id<Nodes>) -> bool {
        *self == *other
    }
}

impl Keyed for (Id<Nodes>, EdgeKind) {
    ghost key = { edge_key };

    fn key(&self) -> u32 {
        mixed(self.0.number(), kind_number(self.1))
    }

    fn is(&self, other: &(Id<Nodes>, EdgeKind)) -> bool {
        *self == *other
    }
}

impl Keyed for Access {
    ghost key = { access_key };

    fn key(&self) -> u32 {
        mixed(cell_number(&self.cell), if self.write { 1 } else { 0 })
    }

    fn is(&self, other: &Access) -> bool {
        *self == *other
    }
}

impl Keyed for Cell {
    ghost key = { cell_key };

    fn key(&self) -> u32 {
        cell_number(self)
    }

    fn is(&self, other: &Cell) -> bool {
        *self == *other
    }
}

fn mixed(first: u32, second: u32) -> u32
    ensures { result ≡ mixed_key first second }
{
    ((u64::from(first) * 2654435761 + u64::from(second)) % 4294967296) as u32
}

fn kind_number(kind: EdgeKind) -> u32
    ensures { result ≡ kind_key kind }
{
    match kind {
        EdgeKind::Data => 0,
        EdgeKind::Control => 1,
        EdgeKind::Out => 2,
        EdgeKind::Arg => 3,
        EdgeKind::Call => 4,
        EdgeKind::Ret => 5,
        EdgeKind::Heap => 6,
        EdgeKind::Fork => 7,
    }
}

fn object_number(object: &ObjName) -> u32
    ensures { result ≡ object_key object.now }
{
    let site = mixed(object.site.number(), object.sites.first.number());
    mixed(site, object.sites.second.number())
}

fn cell_number(cell: &Cell) -> u32
    ensures { result ≡ cell_key cell.now }
{
    match cell {
        Cell::Field(field, object) => mixed(object_number(object), field.number()),
        Cell::Elements(object) => mixed(object_number(object), 1),
        Cell::Static(field) => mixed(field.number(), 2),
        Cell::Cursor(method) => mixed(method.number(), 3),
        Cell::Started(object) => mixed(object_number(object), 4),
    }
}
