//! Facts about the instances and objects of a program, as data.

use dep_nodes::NodeKind;
use jo_ids::{FieldId, InstanceId, MethodId, ObjKey};

/// A method in a context.
#[derive(Clone, Copy, PartialEq, Eq)]
pub struct InstKey<C> {
    pub method: MethodId,
    pub context: C,
}

/// What holds objects besides nodes: a field of an object, the elements of an array, a static field.
#[derive(Clone, Copy, PartialEq, Eq)]
pub enum FactCell<C> {
    Field(FieldId, ObjKey<C>),
    Elements(ObjKey<C>),
    Static(FieldId),
}

/// A fact: an instance runs, a node or a cell may hold an object, a call at a pc has a target, which runs in the same thread or,
/// by `Fork`, in a new one, an instance may end with an exception, or may never end.
#[derive(Clone, Copy, PartialEq, Eq)]
pub enum Fact<C> {
    Reached(InstKey<C>),
    Holds(InstKey<C>, NodeKind, ObjKey<C>),
    CellHolds(FactCell<C>, ObjKey<C>),
    Target(InstKey<C>, u32, InstKey<C>),
    Fork(InstKey<C>, u32, InstKey<C>),
    Throws(InstKey<C>),
    Stalls(InstKey<C>),
}

/// A node of an instance that has a number.
#[derive(Clone, Copy)]
pub struct FactNode {
    pub instance: InstanceId,
    pub kind: NodeKind,
}

/// A target of a call, and whether it runs in a new thread.
#[derive(Clone, Copy)]
pub struct Target {
    pub instance: InstanceId,
    pub fork: bool,
}
