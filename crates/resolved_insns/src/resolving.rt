//! One instruction with what it names looked up.
ghost use Rattle.std.specs.Prelude.{◌≡◌, ℕ, ◌<◌, ◌^◌, length, Ok, Some, IfOk};
ghost use Rattle.jo_prog.specs.declared.program.Program.{Program as OfProgram};
ghost use Rattle.jo_insn.specs.declared.instructions.Insn.TheVariants.{TableSwitch, LookupSwitch};
ghost use Rattle.jo_insn.specs.Jumps.{IsPlacedIn};
ghost use Rattle.machine.specs.Instructions as machine;
ghost use Rattle.hierarchy.specs.Hierarchies.{IsHierarchyOf};
ghost use Rattle.jvm_values.specs.Resolved.{IsSeen, IsSeenAt};
ghost use Rattle.resolved_insns.specs.Strings.{AreStringsOf};
ghost use Rattle.resolved_insns.specs.Tables;
ghost use Rattle.resolved_insns.specs.Tables.{IsCallIn, HasCall, IsSlot};

use crate::operands::pooled;
use crate::plain::{jump, local, pc_behind, plain};
use crate::strings::Strings;
use crate::switches::{cases_in_row, cases_of_pairs};
use hierarchy::Hierarchy;
use jo_ids::{Memory, MethodId};
use jo_insn::{Insn, Placed, behind, decode};
use jo_prog::program::{Code, Program, code_at};
use jo_text::{Base, FieldDesc};
use jvm_values::{Instruction, Resolved};
use std::alloc::Global;

/// How many bytes code has at most.
pub(crate) const LONGEST_CODE: usize = 65_535;

/// The element type of a newarray.
fn kind_type(kind: u8) -> FieldDesc
    ensures { result ≡ machine.kind_type kind }
{
    let base = match kind {
        4 => Base::Boolean,
        5 => Base::Char,
        8 => Base::Byte,
        9 => Base::Short,
        _ => Base::Int,
    };
    FieldDesc { dims: 0, base }
}

fn table_switch(
    alloc: Global,
    code: &[u8],
    pc: u32,
    next: u32,
    other: i32,
    low: i32,
    high: i32,
    at: u32,
) -> Result<Instruction, Memory>
    requires short { length code.now < 2 ^ 16 }
    requires place { pc < 2 ^ 16 }
    requires placed { IsPlacedIn code.now (record { pc = pc; insn = TableSwitch other low high at; next = next }) }
    ensures { IfOk result (λ found. (program : OfProgram) (m : ℕ) → IsSeen program (machine.instruction_of program m code.now pc (TableSwitch other low high at)) (Some found)) }
{
    let count = u64::from(high.abs_diff(low)) + 1;
    let cases = cases_in_row(alloc, pc, low, count, behind(code, at as usize))?;
    Ok(Instruction::Switches(cases, pc_behind(pc, other)))
}

fn lookup_switch(
    alloc: Global,
    code: &[u8],
    pc: u32,
    next: u32,
    other: i32,
    pairs: u32,
    at: u32,
) -> Result<Instruction, Memory>
    requires short { length code.now < 2 ^ 16 }
    requires place { pc < 2 ^ 16 }
    requires placed { IsPlacedIn code.now (record { pc = pc; insn = LookupSwitch other pairs at; next = next }) }
    ensures { IfOk result (λ found. (program : OfProgram) (m : ℕ) → IsSeen program (machine.instruction_of program m code.now pc (LookupSwitch other pairs at)) (Some found)) }
{
    let keys = behind(code, at as usize);
    let offsets = behind(code, at as usize + 4);
    let cases = cases_of_pairs(alloc, pc, pairs, keys, offsets)?;
    Ok(Instruction::Switches(cases, pc_behind(pc, other)))
}

fn instruction_of(
    alloc: Global,
    program: &Program,
    hierarchy: &Hierarchy,
    strings: &Strings,
    method: MethodId,
    code: &[u8],
    placed: &Placed,
) -> Result<Option<Instruction>, Memory>
    requires kept { IsHierarchyOf program.now hierarchy.now }
    requires strings { AreStringsOf program.now strings.now }
    requires short { length code.now < 2 ^ 16 }
    requires place { placed.now.pc < 2 ^ 16 }
    requires placed { IsPlacedIn code.now placed.now }
    ensures { IfOk result (IsSeen program.now (machine.instruction_of program.now method code.now placed.now.pc placed.now.insn)) }
{
    let pc = placed.pc;
    match placed.insn {
        Insn::Plain(op) => {
            let found = plain(alloc, program, method, op)?;
            Ok(found)
        }
        Insn::Local { op, index, .. } => Ok(local(op, index)),
        Insn::Iinc { index, by, .. } => Ok(Some(Instruction::Increments(index, by))),
        Insn::Push { value, .. } => Ok(Some(Instruction::PushesInt(value))),
        Insn::Pooled { op, index } => {
            let found = pooled(alloc, program, hierarchy, strings, method, op, index)?;
            Ok(found)
        }
        Insn::Array(kind) => Ok(Some(Instruction::CreatesArray(kind_type(kind)))),
        Insn::Jump { op, by } => Ok(jump(op, pc_behind(pc, by))),
        Insn::TableSwitch {
            other,
            low,
            high,
            at,
        } => {
            let found = table_switch(alloc, code, pc, placed.next, other, low, high, at)?;
            Ok(Some(found))
        }
        Insn::LookupSwitch { other, pairs, at } => {
            let found = lookup_switch(alloc, code, pc, placed.next, other, pairs, at)?;
            Ok(Some(found))
        }
    }
}

/// An instruction of a method with the pc behind it, where what it names is found.
pub(crate) fn resolve(
    alloc: Global,
    program: &Program,
    hierarchy: &Hierarchy,
    strings: &Strings,
    method: MethodId,
    code: &[u8],
    placed: &Placed,
) -> Result<Option<Resolved>, Memory>
    requires kept { IsHierarchyOf program.now hierarchy.now }
    requires strings { AreStringsOf program.now strings.now }
    requires short { length code.now < 2 ^ 16 }
    requires place { placed.now.pc < 2 ^ 16 }
    requires placed { IsPlacedIn code.now placed.now }
    ensures { IfOk result (IsSeenAt program.now (machine.with_next program.now method code.now placed.now.pc (Ok (placed.now.insn, placed.now.next)))) }
{
    let found = instruction_of(alloc, program, hierarchy, strings, method, code, placed)?;
    match found {
        Some(instruction) => Ok(Some(Resolved {
            instruction,
            next: placed.next,
        })),
        None => Ok(None),
    }
}

fn is_pooled(insn: Insn) -> bool
    ensures { result ≡ Tables.is_pooled insn }
{
    matches!(insn, Insn::Pooled { .. })
}

/// The same of an instruction that names an operand. `None` for all others.
fn resolve_pooled(
    alloc: Global,
    program: &Program,
    hierarchy: &Hierarchy,
    strings: &Strings,
    method: MethodId,
    code: &[u8],
    placed: &Placed,
) -> Result<Option<Resolved>, Memory>
    requires kept { IsHierarchyOf program.now hierarchy.now }
    requires strings { AreStringsOf program.now strings.now }
    requires short { length code.now < 2 ^ 16 }
    requires place { placed.now.pc < 2 ^ 16 }
    requires placed { IsPlacedIn code.now placed.now }
    ensures { IfOk result (IsCallIn program.now (machine.with_next program.now method code.now placed.now.pc (Ok (placed.now.insn, placed.now.next)))) }
{
    if !is_pooled(placed.insn) {
        return Ok(None);
    }
    let found = resolve(alloc, program, hierarchy, strings, method, code, placed)?;
    Ok(found)
}

/// The instruction at a pc of some code, where it names an operand and what it names is found.
pub(crate) fn pooled_at(
    alloc: Global,
    program: &Program,
    hierarchy: &Hierarchy,
    strings: &Strings,
    method: MethodId,
    code: &[u8],
    pc: u32,
) -> Result<Option<Resolved>, Memory>
    requires kept { IsHierarchyOf program.now hierarchy.now }
    requires strings { AreStringsOf program.now strings.now }
    requires short { length code.now < 2 ^ 16 }
    ensures { IfOk result (HasCall program.now method code.now pc) }
{
    match decode(code, pc) {
        Ok((insn, next)) => {
            let placed = Placed { pc, insn, next };
            let found = resolve_pooled(alloc, program, hierarchy, strings, method, code, &placed)?;
            Ok(found)
        }
        Err(_) => Ok(None),
    }
}

/// The instruction at a pc of some code with the pc behind it, where what it names is found.
fn resolve_in(
    alloc: Global,
    program: &Program,
    hierarchy: &Hierarchy,
    strings: &Strings,
    method: MethodId,
    code: &[u8],
    pc: u32,
) -> Result<Option<Resolved>, Memory>
    requires kept { IsHierarchyOf program.now hierarchy.now }
    requires strings { AreStringsOf program.now strings.now }
    requires short { length code.now < 2 ^ 16 }
    ensures { IfOk result (IsSlot program.now method code.now pc) }
{
    match decode(code, pc) {
        Ok((insn, next)) => {
            let placed = Placed { pc, insn, next };
            let found = resolve(alloc, program, hierarchy, strings, method, code, &placed)?;
            Ok(found)
        }
        Err(_) => Ok(None),
    }
}

fn resolve_in_code(
    alloc: Global,
    program: &Program,
    hierarchy: &Hierarchy,
    strings: &Strings,
    method: MethodId,
    code: &Code,
    pc: u32,
) -> Result<Option<Resolved>, Memory>
    requires kept { IsHierarchyOf program.now hierarchy.now }
    requires strings { AreStringsOf program.now strings.now }
    ensures { IfOk result (IsSeenAt program.now (machine.instruction_in program.now method (Some code.now) pc)) }
{
    let bytes = code.bytes.as_slice();
    if bytes.len() > LONGEST_CODE {
        return Ok(None);
    }
    let found = resolve_in(alloc, program, hierarchy, strings, method, bytes, pc)?;
    Ok(found)
}

/// The instruction at any pc of a method with the pc behind it, where what it names is found.
pub fn resolve_at(
    alloc: Global,
    program: &Program,
    hierarchy: &Hierarchy,
    strings: &Strings,
    method: MethodId,
    pc: u32,
) -> Result<Option<Resolved>, Memory>
    requires kept { IsHierarchyOf program.now hierarchy.now }
    requires strings { AreStringsOf program.now strings.now }
    ensures { IfOk result (IsSeenAt program.now (machine.instruction_at program.now method pc)) }
{
    match code_at(program, method) {
        Some(code) => {
            let found = resolve_in_code(alloc, program, hierarchy, strings, method, code, pc)?;
            Ok(found)
        }
        None => Ok(None),
    }
}
