//! What stands at a pc of a method, and what it names.
ghost use Rattle.std.specs.Prelude.{◌≡◌, ℕ, Some};
ghost use Rattle.std.specs.Option.{option_copied};
ghost use Rattle.jo_prog.specs.Calls;
ghost use Rattle.jo_prog.specs.Program.{operand_at as operand_found};
ghost use Rattle.jo_prog.specs.Operations;
ghost use Rattle.hierarchy.specs.Hierarchies.{IsHierarchyOf};
ghost use Rattle.dependence.specs.WideGraph;
ghost use Rattle.flow_graph.specs.Steps;

use dep_nodes::NodeKind;
use hierarchy::Hierarchy;
use jo_ids::{ClassId, FieldId, Id, MethodId};
use jo_insn::{Insn, decode};
use jo_prog::calls::{Taken, taken_from};
use jo_prog::program::{Operand, Program, Row, TypeRef, class_at, code_at, method_at};
use jo_prog::sites::{Cause, may_raise, opcode_of};

/// How many bytes code has at most.
const LONGEST_CODE: usize = 65_535;

// ---- opcodes

fn within(low: u8, high: u8, op: u8) -> bool
    ensures { result ≡ Operations.within low high op }
{
    low <= op && op <= high
}

/// Whether it is the opcode of a call.
pub(crate) fn is_call(op: u8) -> bool
    ensures { result ≡ WideGraph.is_call op }
{
    within(182, 185, op)
}

/// Whether it is the opcode of a return.
pub(crate) fn is_return(op: u8) -> bool
    ensures { result ≡ WideGraph.is_return op }
{
    within(172, 177, op)
}

/// Whether the code goes on behind an instruction with this opcode, which is no call.
pub(crate) fn goes_on(op: u8) -> bool
    ensures { result ≡ WideGraph.goes_on op }
{
    !(op == 167 || op == 200 || within(170, 177, op) || is_call(op) || op == 191)
}

/// Whether an instruction with this opcode may raise an exception.
pub(crate) fn may_throw(op: u8) -> bool
    ensures { result ≡ WideGraph.may_throw op }
{
    may_raise(Cause::ZeroDivisor, op)
        || may_raise(Cause::NullBase, op)
        || may_raise(Cause::FailingCast, op)
        || may_raise(Cause::WrongElement, op)
        || may_raise(Cause::NegativeLength, op)
        || may_raise(Cause::BadIndex, op)
        || may_raise(Cause::SecondStart, op)
        || may_raise(Cause::MissingInterface, op)
}

// ---- places of the code

/// The instruction at a pc, and the next pc.
pub(crate) fn insn_at(program: &Program, method: MethodId, pc: u32) -> Option<(Insn, u32)>
    ensures { result ≡ WideGraph.insn_at program.now method pc }
{
    let Some(code) = code_at(program, method) else {
        return None;
    };
    let bytes = code.bytes.as_slice();
    if bytes.len() > LONGEST_CODE {
        return None;
    }
    match decode(bytes, pc) {
        Ok(found) => Some(found),
        Err(_) => None,
    }
}

/// The node at which a thread stands that comes to a pc.
pub(crate) fn first_at(program: &Program, method: MethodId, pc: u32) -> Option<NodeKind>
    ensures { result ≡ Steps.first_at program.now method pc }
{
    match insn_at(program, method, pc) {
        Some((insn, _)) => {
            if is_call(opcode_of(insn)) {
                Some(NodeKind::Call(pc))
            } else {
                Some(NodeKind::Instr(pc))
            }
        }
        None => None,
    }
}

/// A row of the exception table.
pub(crate) fn row_at(program: &Program, method: MethodId, k: u32) -> Option<&Row>
    ensures { option_copied result ≡ WideGraph.row_at program.now method k }
{
    let Some(code) = code_at(program, method) else {
        return None;
    };
    code.rows.as_slice().get(k as usize)
}

// ---- names

/// What an instruction names by a pool index.
fn named_by(program: &Program, method: MethodId, index: u16) -> Option<&Operand>
    ensures { option_copied result ≡ operand_found program.now method index }
{
    let class = class_at(program, method_at(program, method)?.class)?;
    class.operands.as_slice().get(index as usize)
}

/// What the instruction of a method names.
pub(crate) fn operand_of(program: &Program, method: MethodId, insn: Insn) -> Option<&Operand>
    ensures { (next : ℕ) → option_copied result ≡ WideGraph.operand_of program.now method (Some (insn, next)) }
{
    let Insn::Pooled { index, .. } = insn else {
        return None;
    };
    named_by(program, method, index)
}

fn receiver_class(owner: &TypeRef) -> ClassId
    ensures { result ≡ Calls.receiver_class owner.now }
{
    match owner {
        TypeRef::Class(class) => *class,
        TypeRef::Array(_) => Id::of(0),
    }
}

fn resolved_by(
    program: &Program,
    hierarchy: &Hierarchy,
    operand: Option<&Operand>,
) -> Option<MethodId>
    requires { IsHierarchyOf program.now hierarchy.now }
    ensures { result ≡ WideGraph.resolved_by program.now (option_copied operand.entry) }
{
    let Some(Operand::Member(member)) = operand else {
        return None;
    };
    hierarchy.resolve(
        program,
        receiver_class(&member.owner),
        member.name.as_slice(),
        member.desc.as_slice(),
    )
}

fn field_by(program: &Program, hierarchy: &Hierarchy, operand: Option<&Operand>) -> Option<FieldId>
    requires { IsHierarchyOf program.now hierarchy.now }
    ensures { result ≡ WideGraph.field_by program.now (option_copied operand.entry) }
{
    let Some(Operand::Member(member)) = operand else {
        return None;
    };
    match &member.owner {
        TypeRef::Class(class) => hierarchy.resolve_field(
            program,
            *class,
            member.name.as_slice(),
            member.desc.as_slice(),
        ),
        TypeRef::Array(_) => None,
    }
}

/// The method that an instruction resolves to.
fn method_of_insn(
    program: &Program,
    hierarchy: &Hierarchy,
    method: MethodId,
    insn: Insn,
) -> Option<MethodId>
    requires { IsHierarchyOf program.now hierarchy.now }
    ensures { (next : ℕ) → result ≡ Steps.method_of program.now method (Some (insn, next)) }
{
    if !is_call(opcode_of(insn)) {
        return None;
    }
    let operand = operand_of(program, method, insn);
    let found = resolved_by(program, hierarchy, operand);
    found
}

/// The field that an instruction resolves to.
fn field_of_insn(
    program: &Program,
    hierarchy: &Hierarchy,
    method: MethodId,
    insn: Insn,
) -> Option<FieldId>
    requires { IsHierarchyOf program.now hierarchy.now }
    ensures { (next : ℕ) → result ≡ Steps.field_of program.now method (Some (insn, next)) }
{
    if !within(178, 181, opcode_of(insn)) {
        return None;
    }
    let operand = operand_of(program, method, insn);
    let found = field_by(program, hierarchy, operand);
    found
}

/// The method that the call at a pc resolves to.
pub(crate) fn resolved_at(
    program: &Program,
    hierarchy: &Hierarchy,
    method: MethodId,
    pc: u32,
) -> Option<MethodId>
    requires { IsHierarchyOf program.now hierarchy.now }
    ensures { result ≡ WideGraph.resolved_at program.now method pc }
{
    match insn_at(program, method, pc) {
        Some((insn, _)) => method_of_insn(program, hierarchy, method, insn),
        None => None,
    }
}

/// The field that the instruction at a pc resolves to.
pub(crate) fn field_at(
    program: &Program,
    hierarchy: &Hierarchy,
    method: MethodId,
    pc: u32,
) -> Option<FieldId>
    requires { IsHierarchyOf program.now hierarchy.now }
    ensures { result ≡ WideGraph.resolved_field_at program.now method pc }
{
    match insn_at(program, method, pc) {
        Some((insn, _)) => field_of_insn(program, hierarchy, method, insn),
        None => None,
    }
}

/// Whether the call at a pc resolves to a native method of the files.
pub(crate) fn calls_native(
    program: &Program,
    hierarchy: &Hierarchy,
    method: MethodId,
    pc: u32,
) -> bool
    requires { IsHierarchyOf program.now hierarchy.now }
    ensures { result ≡ WideGraph.calls_native program.now method pc }
{
    let resolved = resolved_at(program, hierarchy, method, pc);
    match taken_from(program, resolved) {
        Taken::Native(_) => true,
        _ => false,
    }
}
