//! What nodes access by their instructions alone.
ghost use Rattle.std.specs.Prelude.{◌≡◌};
ghost use Rattle.jo_prog.specs.Operations;
ghost use Rattle.dependence.specs.HeapDependence;
ghost use Rattle.heap_deps.specs.Instructions;

use dep_nodes::NodeKind;
use dependence::flows::FlowNode;
use jo_ids::{FieldId, MethodId};
use jo_insn::Insn;
use jo_prog::labels::{Label, Labels, label_of};
use jo_prog::sites::opcode_of;

/// A field of an object, or the elements of an array.
#[derive(Clone, Copy, PartialEq, Eq)]
pub enum Part {
    Field(FieldId),
    Elements,
}

/// The access of an instruction to a part of its base, which stands so far below the top of the stack, counted from 1.
#[derive(Clone, Copy, PartialEq, Eq)]
pub struct BaseAccess {
    pub pc: u32,
    pub depth: u16,
    pub part: Part,
    pub write: bool,
}

/// The access of an instruction to a static field.
#[derive(Clone, Copy, PartialEq, Eq)]
pub struct StaticAccess {
    pub field: FieldId,
    pub write: bool,
}

fn within(low: u8, high: u8, op: u8) -> bool
    ensures { result ≡ Operations.within low high op }
{
    low <= op && op <= high
}

fn elements_at(pc: u32, depth: u16, write: bool) -> BaseAccess
    ensures { result ≡ record { pc = pc; depth = depth; part = Part.Elements; write = write } }
{
    BaseAccess {
        pc,
        depth,
        part: Part::Elements,
        write,
    }
}

fn field_at(pc: u32, depth: u16, write: bool, field: &Option<FieldId>) -> Option<BaseAccess>
    ensures { result ≡ Instructions.field_at pc depth write field.now }
{
    match field {
        Some(field) => Some(BaseAccess {
            pc,
            depth,
            part: Part::Field(*field),
            write,
        }),
        None => None,
    }
}

fn access_of(pc: u32, op: u8, field: &Option<FieldId>) -> Option<BaseAccess>
    ensures { result ≡ Instructions.access_of pc op field.now }
{
    if within(46, 53, op) {
        Some(elements_at(pc, 2, false))
    } else if within(79, 86, op) {
        Some(elements_at(pc, 3, true))
    } else if op == 180 {
        field_at(pc, 1, false, field)
    } else if op == 181 {
        field_at(pc, 2, true, field)
    } else {
        None
    }
}

/// The access of a node to a part of its base: of getfield and putfield, and of loads and stores of elements.
pub(crate) fn base_access(node: &FlowNode) -> Option<BaseAccess>
    ensures { result ≡ Instructions.base_access node.now.kind node.now.insn node.now.field }
{
    let NodeKind::Instr(pc) = node.kind else {
        return None;
    };
    match node.insn {
        Some(insn) => access_of(pc, opcode_of(insn), &node.field),
        None => None,
    }
}

fn static_of(op: u8, field: &Option<FieldId>) -> Option<StaticAccess>
    ensures { result ≡ Instructions.static_of op field.now }
{
    match field {
        Some(field) => {
            if within(178, 179, op) {
                Some(StaticAccess {
                    field: *field,
                    write: op == 179,
                })
            } else {
                None
            }
        }
        None => None,
    }
}

/// The access of an instruction to a static field: of getstatic and putstatic.
pub(crate) fn static_access(insn: &Option<Insn>, field: &Option<FieldId>) -> Option<StaticAccess>
    ensures { result ≡ Instructions.static_access insn.now field.now }
{
    match insn {
        Some(insn) => static_of(opcode_of(*insn), field),
        None => None,
    }
}

fn is_source_label(label: Option<Label>) -> bool
    ensures { result ≡ HeapDependence.is_source_label label }
{
    match label {
        Some(Label::Source(_)) => true,
        _ => false,
    }
}

/// Whether a method takes the next input of its own.
pub(crate) fn is_source(labels: &Labels, method: MethodId) -> bool
    ensures { result ≡ Instructions.is_source labels.now method }
{
    is_source_label(label_of(labels, method))
}
