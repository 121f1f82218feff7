//! Accesses to what threads share.
ghost use Rattle.std.specs.Prelude.{◌≡◌};
ghost use Rattle.jo_ids.specs.declared.SiteList.{SiteList};
ghost use Rattle.dep_nodes.specs.Nodes.{sites_of};
ghost use Rattle.dep_nodes.specs.OneForm.{plain_sites, plain_object, plain_cell};

use jo_ids::{FieldId, Id, MethodId, SiteId, SiteList};

/// An object: the site that makes it, and the sites of its context.
#[derive(Clone, Copy, PartialEq, Eq)]
pub struct ObjName {
    pub site: SiteId,
    pub sites: SiteList,
}

/// What a node may read or write besides its places: a field of an object, the elements of an array, a static field, the
/// cursor of an input, or whether a thread is started.
#[derive(Clone, Copy, PartialEq, Eq)]
pub enum Cell {
    Field(FieldId, ObjName),
    Elements(ObjName),
    Static(FieldId),
    Cursor(MethodId),
    Started(ObjName),
}

/// An access to a cell, which writes it or reads it.
#[derive(Clone, Copy, PartialEq, Eq)]
pub struct Access {
    pub cell: Cell,
    pub write: bool,
}

/// The form that all names of a cell have in common: in its list of sites unused places are 0.
pub fn in_one_form(cell: &Cell) -> Cell
    ensures { result ≡ plain_cell cell.now }
{
    match cell {
        Cell::Field(field, object) => Cell::Field(*field, object_in_one_form(object)),
        Cell::Elements(object) => Cell::Elements(object_in_one_form(object)),
        Cell::Static(field) => Cell::Static(*field),
        Cell::Cursor(method) => Cell::Cursor(*method),
        Cell::Started(object) => Cell::Started(object_in_one_form(object)),
    }
}

fn object_in_one_form(object: &ObjName) -> ObjName
    ensures { result ≡ plain_object object.now }
{
    ObjName {
        site: object.site,
        sites: sites_in_one_form(&object.sites),
    }
}

fn sites_in_one_form(sites: &SiteList) -> SiteList
    ensures { result ≡ plain_sites sites.now }
{
    let len = sites.len;
    if len == 0 {
        return SiteList {
            len: 0,
            first: Id::of(0),
            second: Id::of(0),
        };
    }
    if len == 1 {
        return SiteList {
            len: 1,
            first: sites.first,
            second: Id::of(0),
        };
    }
    SiteList {
        len: 2,
        first: sites.first,
        second: sites.second,
    }
}

/// The one form of a list of sites names the same sites, and lists that name the same sites have one form.
pub fn one_form_is_by_sites()
    ensures kept { (sites : SiteList) → sites_of (plain_sites sites) ≡ sites_of sites }
    ensures one { (a b : SiteList) → sites_of a ≡ sites_of b → plain_sites a ≡ plain_sites b }
{}
