//! Facts that name instances and objects by numbers.
ghost use Rattle.std.specs.Prelude.{◌≡◌};
ghost use Rattle.dep_nodes.specs.ItemKeys.{mixed_key};
ghost use Rattle.fact_sets.specs.FactKeys.{kind_key, cell_key, holder_key, call_key, fact_key, spread};

use dep_nodes::{Keyed, NodeKind};
use jo_ids::{FieldId, InstanceId, ObjectId};

/// A field of an object, the elements of an array, a static field.
#[derive(Clone, Copy, PartialEq, Eq)]
pub enum CellNumber {
    Field(FieldId, ObjectId),
    Elements(ObjectId),
    Static(FieldId),
}

/// What holds objects: a node of an instance, or a cell.
#[derive(Clone, Copy, PartialEq, Eq)]
pub enum Holder {
    Node(InstanceId, NodeKind),
    Cell(CellNumber),
}

/// The call at a pc of an instance.
#[derive(Clone, Copy, PartialEq, Eq)]
pub struct CallPlace {
    pub instance: InstanceId,
    pub pc: u32,
}

/// A fact: an instance runs, something may hold an object, a call has a target, which runs in a new thread where the last part
/// is true, an instance may end with an exception, or may never end.
#[derive(Clone, Copy, PartialEq, Eq)]
pub enum NumberedFact {
    Reached(InstanceId),
    Holds(Holder, ObjectId),
    Calls(CallPlace, InstanceId, bool),
    Throws(InstanceId),
    Stalls(InstanceId),
}

impl Keyed for Holder {
    ghost key = { λ holder. spread (holder_key holder) };

    fn key(&self) -> u32 {
        mixed(holder_number(self), 0)
    }

    fn is(&self, other: &Holder) -> bool {
        *self == *other
    }
}

impl Keyed for CallPlace {
    ghost key = { λ call. spread (call_key call) };

    fn key(&self) -> u32 {
        mixed(call_number(self), 0)
    }

    fn is(&self, other: &CallPlace) -> bool {
        *self == *other
    }
}

impl Keyed for NumberedFact {
    ghost key = { λ fact. spread (fact_key fact) };

    fn key(&self) -> u32 {
        mixed(fact_number(self), 0)
    }

    fn is(&self, other: &NumberedFact) -> bool {
        *self == *other
    }
}

fn mixed(first: u32, second: u32) -> u32
    ensures { result ≡ mixed_key first second }
{
    ((u64::from(first) * 2654435761 + u64::from(second)) % 4294967296) as u32
}

fn kind_number(kind: &NodeKind) -> u32
    ensures { result ≡ kind_key kind.now }
{
    match kind {
        NodeKind::Entry => 0,
        NodeKind::Exit => 1,
        NodeKind::Instr(pc) => mixed(*pc, 2),
        NodeKind::Call(pc) => mixed(*pc, 3),
        NodeKind::RetVal(pc) => mixed(*pc, 4),
        NodeKind::RetKind(pc) => mixed(*pc, 5),
        NodeKind::Throw(pc) => mixed(*pc, 6),
        NodeKind::Catch(k) => mixed(*k, 7),
        NodeKind::Poll(pc, target) => mixed(mixed(*pc, *target), 8),
        NodeKind::XPoll(pc, k) => mixed(mixed(*pc, *k), 9),
        NodeKind::Arg(pc, i) => mixed(mixed(*pc, *i), 10),
        NodeKind::Param(i) => mixed(*i, 11),
        NodeKind::Kind => 12,
        NodeKind::Value => 13,
        NodeKind::Thrown => 14,
    }
}

fn cell_number(cell: &CellNumber) -> u32
    ensures { result ≡ cell_key cell.now }
{
    match cell {
        CellNumber::Field(field, object) => mixed(mixed(object.number(), field.number()), 1),
        CellNumber::Elements(object) => mixed(object.number(), 2),
        CellNumber::Static(field) => mixed(field.number(), 3),
    }
}

fn holder_number(holder: &Holder) -> u32
    ensures { result ≡ holder_key holder.now }
{
    match holder {
        Holder::Node(instance, kind) => mixed(kind_number(kind), instance.number()),
        Holder::Cell(cell) => mixed(cell_number(cell), 1),
    }
}

fn call_number(call: &CallPlace) -> u32
    ensures { result ≡ call_key call.now }
{
    mixed(call.instance.number(), call.pc)
}

fn fact_number(fact: &NumberedFact) -> u32
    ensures { result ≡ fact_key fact.now }
{
    match fact {
        NumberedFact::Reached(instance) => mixed(instance.number(), 0),
        NumberedFact::Holds(holder, object) => mixed(holder_number(holder), object.number()),
        NumberedFact::Calls(call, instance, _) => mixed(call_number(call), instance.number()),
        NumberedFact::Throws(instance) => mixed(instance.number(), 1),
        NumberedFact::Stalls(instance) => mixed(instance.number(), 2),
    }
}
