//! The parts of a class file (JVM Specification SE 8, 4.1 to 4.7).
use crate::entries::Pool;
use jo_ids::List;
use jo_text::Name;

/// A class file. Attributes that mean nothing to a run aren't kept.
#[derive(Drop)]
pub struct ClassFile {
    pub minor: u16,
    pub major: u16,
    pub pool: Pool,
    pub flags: u16,
    pub this_class: u16,
    pub super_class: u16,
    pub interfaces: List<u16>,
    pub fields: List<FieldInfo>,
    pub methods: List<MethodInfo>,
}

/// A field or a method.
#[derive(Clone, Copy)]
pub enum MemberKind {
    Field,
    Method,
}

/// A field. `name`, `desc` and `constant` are pool indices.
#[derive(Drop)]
pub struct FieldInfo {
    pub flags: u16,
    pub name: u16,
    pub desc: u16,
    pub constant: Option<u16>,
}

/// A method. `name` and `desc` are pool indices.
#[derive(Drop)]
pub struct MethodInfo {
    pub flags: u16,
    pub name: u16,
    pub desc: u16,
    pub code: Option<CodeInfo>,
}

/// The code of a method.
#[derive(Drop)]
pub struct CodeInfo {
    pub max_stack: u16,
    pub max_locals: u16,
    /// The code, whose switches have zero padding, and whose invokeinterfaces have their count and a zero.
    pub bytes: Name,
    pub rows: List<RowInfo>,
}

/// A row of the exception table: pcs, and a pool index or 0.
#[derive(Drop)]
pub struct RowInfo {
    pub start: u16,
    pub end: u16,
    pub handler: u16,
    pub catch_type: u16,
}
