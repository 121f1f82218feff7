//! The types of objects, and what they fit.
ghost use Rattle.std.specs.Prelude.{◌≡◌, ◌↔◌, ◌<◌, ◌≤◌, ◌^◌, length, slice_get, IfNone, IfOk, IfSome, IsTrue};
ghost use Rattle.std.specs.Option.{option_copied};
ghost use Rattle.jo_prog.specs.Sites.{sites_of};
ghost use Rattle.hierarchy.specs.Hierarchies.{IsHierarchyOf};
ghost use Rattle.dependence.specs.FlowGraph;
ghost use Rattle.dependence.specs.FlowGraph.{AnObject, Fits, FailsToFit, CatchesFirst, PassesAll, RowFits, type_of_object};
ghost use Rattle.object_types.specs.Catching.{CatchesBy, IsFirstOf, NoneCatches};

use crate::sites::type_at;
use hierarchy::Hierarchy;
use jo_ids::{Memory, MethodId, SiteId};
use jo_prog::program::{Program, Row, TypeRef, code_at};
use std::alloc::Global;

/// The type of the objects that are made at a site. `None` where none are.
pub fn type_of(alloc: Global, program: &Program, site: SiteId) -> Result<Option<TypeRef>, Memory>
    ensures { IfOk result (λ own. own ≡ FlowGraph.type_of_site program.now (slice_get (sites_of program.now.methods) site)) }
{
    match program.sites.as_slice().get(site.number() as usize) {
        Some(site) => type_at(alloc, program, site),
        None => Ok(None),
    }
}

/// Whether an object of this type fits a type.
pub fn fits(
    program: &Program,
    hierarchy: &Hierarchy,
    own: Option<&TypeRef>,
    named: &TypeRef,
) -> bool
    requires kept { IsHierarchyOf program.now hierarchy.now }
    requires short { length program.now.classes < 2 ^ 32 }
    ensures { (o : AnObject) → type_of_object program.now o ≡ option_copied own.entry → (IsTrue result ↔ Fits program.now o named.now) }
{
    match own {
        Some(own) => hierarchy.type_fits(program, own, named),
        None => false,
    }
}

/// Whether an object of this type has a type and doesn't fit another.
pub fn fails_to_fit(
    program: &Program,
    hierarchy: &Hierarchy,
    own: Option<&TypeRef>,
    named: &TypeRef,
) -> bool
    requires kept { IsHierarchyOf program.now hierarchy.now }
    requires short { length program.now.classes < 2 ^ 32 }
    ensures { (o : AnObject) → type_of_object program.now o ≡ option_copied own.entry → (IsTrue result ↔ FailsToFit program.now o named.now) }
{
    match own {
        Some(own) => !hierarchy.type_fits(program, own, named),
        None => false,
    }
}

/// Whether a row that covers a pc catches an object of this type.
fn row_fits(program: &Program, hierarchy: &Hierarchy, own: Option<&TypeRef>, row: &Row) -> bool
    requires kept { IsHierarchyOf program.now hierarchy.now }
    requires short { length program.now.classes < 2 ^ 32 }
    ensures { (o : AnObject) → type_of_object program.now o ≡ option_copied own.entry → (IsTrue result ↔ RowFits program.now row.now.catches o) }
{
    match &row.catches {
        Some(named) => fits(program, hierarchy, own, named),
        None => true,
    }
}

fn covers(pc: u32, row: &Row) -> bool
    ensures { IsTrue result ↔ ((row.now.start ≤ pc) × (pc < row.now.end)) }
{
    u32::from(row.start) <= pc && pc < u32::from(row.end)
}

/// Whether a row catches an object of this type at a pc.
fn row_catches(
    program: &Program,
    hierarchy: &Hierarchy,
    own: Option<&TypeRef>,
    pc: u32,
    row: &Row,
) -> bool
    requires kept { IsHierarchyOf program.now hierarchy.now }
    requires short { length program.now.classes < 2 ^ 32 }
    ensures { (o : AnObject) → type_of_object program.now o ≡ option_copied own.entry → (IsTrue result ↔ CatchesBy program.now row.now pc o) }
{
    if !covers(pc, row) {
        return false;
    }
    row_fits(program, hierarchy, own, row)
}

/// The place of the first row that catches an object of this type at a pc.
fn first_of(
    program: &Program,
    hierarchy: &Hierarchy,
    own: Option<&TypeRef>,
    pc: u32,
    rows: &[Row],
) -> Option<usize>
    requires kept { IsHierarchyOf program.now hierarchy.now }
    requires short { length program.now.classes < 2 ^ 32 }
    ensures found { IfSome result (λ k. (o : AnObject) → type_of_object program.now o ≡ option_copied own.entry → IsFirstOf program.now rows.now pc k o) }
    ensures absent { IfNone result ((o : AnObject) → type_of_object program.now o ≡ option_copied own.entry → NoneCatches program.now rows.now pc (length rows.now) o) }
{
    for (k, row) in rows.iter().enumerate() {
        if row_catches(program, hierarchy, own, pc, row) {
            return Some(k);
        }
    }
    None
}

/// The number of the first row of a method that catches an object of this type at a pc. `None` where it passes all rows.
pub fn first_catching(
    program: &Program,
    hierarchy: &Hierarchy,
    method: MethodId,
    pc: u32,
    own: Option<&TypeRef>,
) -> Option<usize>
    requires kept { IsHierarchyOf program.now hierarchy.now }
    requires short { length program.now.classes < 2 ^ 32 }
    ensures found { IfSome result (λ k. (o : AnObject) → type_of_object program.now o ≡ option_copied own.entry → CatchesFirst program.now method pc k o) }
    ensures absent { IfNone result ((o : AnObject) → type_of_object program.now o ≡ option_copied own.entry → PassesAll program.now method pc o) }
{
    match code_at(program, method) {
        Some(code) => first_of(program, hierarchy, own, pc, code.rows.as_slice()),
        None => None,
    }
}
