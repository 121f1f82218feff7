//! Which row of an exception table catches an exception.
ghost use Rattle.std.specs.Prelude.{◌≡◌, ◌<◌, ◌^◌, length, option_map};
ghost use Rattle.jo_prog.specs.Rows;
ghost use Rattle.jo_prog.specs.Rows.{row_for};
ghost use Rattle.hierarchy.specs.Hierarchies.{IsHierarchyOf};

use hierarchy::Hierarchy;
use jo_ids::ClassId;
use jo_prog::program::{Program, Row, TypeRef};

fn covers(row: &Row, pc: u32) -> bool
    ensures { result ≡ Rows.covers row.now pc }
{
    u32::from(row.start) <= pc && pc < u32::from(row.end)
}

fn catches_class(
    program: &Program,
    hierarchy: &Hierarchy,
    named: &Option<TypeRef>,
    class: ClassId,
) -> bool
    requires kept { IsHierarchyOf program.now hierarchy.now }
    requires short { length program.now.classes < 2 ^ 32 }
    ensures { result ≡ Rows.catches_class program.now named.now class }
{
    match named {
        None => true,
        Some(named) => hierarchy.type_fits(program, &TypeRef::Class(class), named),
    }
}

fn catches(program: &Program, hierarchy: &Hierarchy, row: &Row, pc: u32, class: ClassId) -> bool
    requires kept { IsHierarchyOf program.now hierarchy.now }
    requires short { length program.now.classes < 2 ^ 32 }
    ensures { result ≡ Rows.catches_at program.now pc class row.now }
{
    covers(row, pc) && catches_class(program, hierarchy, &row.catches, class)
}

/// The handler of the first row that catches an exception of a class at a pc.
pub fn handler_for(
    program: &Program,
    hierarchy: &Hierarchy,
    rows: &[Row],
    pc: u32,
    class: ClassId,
) -> Option<u16>
    requires kept { IsHierarchyOf program.now hierarchy.now }
    requires short { length program.now.classes < 2 ^ 32 }
    ensures { result ≡ option_map (λ found. found.1.handler) (row_for program.now rows.now pc class) }
{
    for row in rows {
        if catches(program, hierarchy, row, pc, class) {
            return Some(row.handler);
        }
    }
    None
}
