//! Instructions with what they name looked up (JVM Specification SE 8, 6.5).

use crate::values::Address;
use jo_ids::{ClassId, FieldId, List, MethodId};
use jo_prog::program::TypeRef;
use jo_text::FieldDesc;

/// A key of a switch, and the pc to which it leads.
#[derive(Clone, Copy)]
pub struct Case {
    pub key: i32,
    pub target: u32,
}

/// What a thread does at a pc, apart from its values. A number that stands first is an opcode, where the name speaks of several
/// instructions; targets are pcs.
#[derive(Drop)]
pub enum Instruction {
    Passes,
    PushesNull,
    PushesInt(i32),
    /// The address of the object of a string constant.
    PushesText(Address),
    Loads(u16),
    Stores(u16),
    Increments(u16, i16),
    LoadsElement,
    StoresElement,
    Shuffles(u8),
    Computes(u8),
    Negates,
    Narrows(u8),
    Tests(u8, u32),
    Compares(u8, u32),
    ComparesReferences(u8, u32),
    TestsNull(u8, u32),
    JumpsTo(u32),
    Switches(List<Case>, u32),
    ReturnsValue(FieldDesc),
    ReturnsNothing,
    GetsStatic(FieldId),
    PutsStatic(FieldId, FieldDesc),
    GetsField(FieldId),
    PutsField(FieldId, FieldDesc),
    Creates(ClassId),
    /// Of an element type.
    CreatesArray(FieldDesc),
    Measures,
    Throws,
    Casts(TypeRef),
    Checks(TypeRef),
    Calls {
        op: u8,
        owner: TypeRef,
        method: MethodId,
        /// How many values it pops.
        count: u32,
    },
}

/// An instruction with the pc behind it.
#[derive(Drop)]
pub struct Resolved {
    pub instruction: Instruction,
    pub next: u32,
}
