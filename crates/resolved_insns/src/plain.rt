//! Instructions of one byte, of locals, and jumps.
ghost use Rattle.std.specs.Prelude.{◌≡◌, ◌<◌, ◌^◌, Some, option_and_then, IfOk, pos, ◌+ℤ◌};
ghost use Rattle.jo_prog.specs.declared.program.Program.{Program as OfProgram};
ghost use Rattle.jo_prog.specs.Operations;
ghost use Rattle.jo_prog.specs.Program.{method_at as method_with};
ghost use Rattle.machine.specs.Instructions as machine;
ghost use Rattle.jvm_values.specs.Resolved.{IsSeen};
ghost use Rattle.resolved_insns.specs.Plain.{later, plain_without};

use jo_ids::{Memory, MethodId};
use jo_prog::program::{Method, Program, method_at};
use jo_text::{FieldDesc, MethodDesc};
use jo_types::method_type;
use jvm_values::Instruction;
use std::alloc::Global;

/// Whether an opcode is one of these in a row.
pub(crate) fn within(low: u8, high: u8, op: u8) -> bool
    ensures { result ≡ Operations.within low high op }
{
    low <= op && op <= high
}

fn result_in(found: Option<MethodDesc>) -> Option<FieldDesc>
    ensures { result ≡ machine.result_of found }
{
    match found {
        Some(desc) => desc.result,
        None => None,
    }
}

fn desc_of(alloc: Global, program: &Program, method: MethodId) -> Result<Option<MethodDesc>, Memory>
    ensures { IfOk result (λ found. found ≡ machine.method_desc (method_with program.now method)) }
{
    match method_at(program, method) {
        Some(method) => {
            let found = method_type(alloc, method.desc.as_slice())?;
            Ok(found)
        }
        None => Ok(None),
    }
}

/// Where a method returns a value.
fn returned(
    alloc: Global,
    program: &Program,
    method: MethodId,
) -> Result<Option<Instruction>, Memory>
    ensures { IfOk result (IsSeen program.now (machine.returned (machine.result_of (machine.method_desc (method_with program.now method))))) }
{
    let desc = desc_of(alloc, program, method)?;
    match result_in(desc) {
        Some(desc) => Ok(Some(Instruction::ReturnsValue(desc))),
        None => Ok(None),
    }
}

fn is_element_load(op: u8) -> bool
    ensures { result ≡ machine.is_element_load op }
{
    op == 46 || within(50, 53, op)
}

fn is_element_store(op: u8) -> bool
    ensures { result ≡ machine.is_element_store op }
{
    op == 79 || within(83, 86, op)
}

/// Those from 87 on that return no value.
fn later_form(op: u8) -> Option<Instruction>
    ensures { (program : OfProgram) → IsSeen program (later op) result }
{
    if within(87, 95, op) {
        Some(Instruction::Shuffles(op))
    } else if op == 116 {
        Some(Instruction::Negates)
    } else if within(96, 130, op) {
        Some(Instruction::Computes(op))
    } else if within(145, 147, op) {
        Some(Instruction::Narrows(op))
    } else if op == 177 {
        Some(Instruction::ReturnsNothing)
    } else if op == 190 {
        Some(Instruction::Measures)
    } else if op == 191 {
        Some(Instruction::Throws)
    } else {
        None
    }
}

/// An instruction of one byte that returns no value.
fn plain_form(op: u8) -> Option<Instruction>
    ensures { (program : OfProgram) → IsSeen program (plain_without op) result }
{
    if op == 0 {
        Some(Instruction::Passes)
    } else if op == 1 {
        Some(Instruction::PushesNull)
    } else if within(2, 8, op) {
        Some(Instruction::PushesInt(i32::from(op) - 3))
    } else if within(26, 29, op) {
        Some(Instruction::Loads(u16::from(op - 26)))
    } else if within(42, 45, op) {
        Some(Instruction::Loads(u16::from(op - 42)))
    } else if is_element_load(op) {
        Some(Instruction::LoadsElement)
    } else if within(59, 62, op) {
        Some(Instruction::Stores(u16::from(op - 59)))
    } else if within(75, 78, op) {
        Some(Instruction::Stores(u16::from(op - 75)))
    } else if is_element_store(op) {
        Some(Instruction::StoresElement)
    } else {
        later_form(op)
    }
}

/// An instruction of one byte.
pub(crate) fn plain(
    alloc: Global,
    program: &Program,
    method: MethodId,
    op: u8,
) -> Result<Option<Instruction>, Memory>
    ensures { IfOk result (IsSeen program.now (machine.plain_instruction (machine.method_desc (method_with program.now method)) op)) }
{
    if op == 172 || op == 176 {
        let found = returned(alloc, program, method)?;
        return Ok(found);
    }
    Ok(plain_form(op))
}

pub(crate) fn local(op: u8, index: u16) -> Option<Instruction>
    ensures { (program : OfProgram) → IsSeen program (machine.local_instruction op index) result }
{
    if op == 21 || op == 25 {
        Some(Instruction::Loads(index))
    } else {
        Some(Instruction::Stores(index))
    }
}

/// The pc so far from a pc.
pub(crate) fn pc_behind(pc: u32, by: i32) -> u32
    requires { pc < 2 ^ 16 }
    ensures { result ≡ machine.pc_behind pc by }
{
    (i64::from(pc) + i64::from(by)).unsigned_abs() as u32
}

pub(crate) fn jump(op: u8, target: u32) -> Option<Instruction>
    ensures { (program : OfProgram) → IsSeen program (machine.jump_instruction op target) result }
{
    if within(153, 158, op) {
        Some(Instruction::Tests(op, target))
    } else if within(159, 164, op) {
        Some(Instruction::Compares(op, target))
    } else if within(165, 166, op) {
        Some(Instruction::ComparesReferences(op, target))
    } else if within(198, 199, op) {
        Some(Instruction::TestsNull(op, target))
    } else {
        Some(Instruction::JumpsTo(target))
    }
}
