//! How many places instructions pop and push, and which local they read or write.
ghost use Rattle.std.specs.Prelude.{◌≡◌, None, Some, Option, ℕ, IfOk, length, option_map, if◌then◌else◌};
ghost use Rattle.std.specs.Option.{option_copied};
ghost use Rattle.jo_prog.specs.Typing.{Kind};
ghost use Rattle.jo_prog.specs.declared.program.Program.{Program};
ghost use Rattle.jo_prog.specs.declared.program.MemberRef.{MemberRef};
ghost use Rattle.jo_prog.specs.Operations;
ghost use Rattle.jo_prog.specs.MethodTypes.{field_desc_in, method_desc_in};
ghost use Rattle.jo_prog.specs.InsnTyping.{field_by, call_effect, constant_effect, short_local_effect, array_effect, move_effect, arithmetic_effect, leaving_effect, plain_effect, local_effect, jump_effect, constant_of, array_over, type_effect, member_effect, named_effect, pooled_effect, effect_of};
ghost use Rattle.jo_prog.specs.Program.{operand_at, method_at};
ghost use Rattle.typing_heights.specs.Sizes.{size_of};
ghost use Rattle.typing_heights.specs.Subjects.{program_of, IsSubject};

use crate::subjects::Subject;
use jo_ids::Memory;
use jo_insn::Insn;
use jo_prog::program::{MemberRef, Method, Operand, Program, TypeRef, class_at};
use jo_text::{DescFault, MethodDesc, is_field_desc, read_method_desc};
use std::alloc::{AllocError, Global};

/// How many places an instruction pops and pushes, and the locals that it reads and writes.
#[derive(Clone, Copy)]
pub(crate) struct Size {
    pub(crate) pops: usize,
    pub(crate) pushes: u8,
    pub(crate) reads: Option<u16>,
    pub(crate) writes: Option<u16>,
}

pub fn within(low: u8, high: u8, op: u8) -> bool
    ensures { result ≡ Operations.within low high op }
{
    low <= op && op <= high
}

pub(crate) fn of_stack(pops: usize, pushes: u8) -> Size
    ensures { result ≡ record { pops = pops; pushes = pushes; reads = None; writes = None } }
{
    Size {
        pops,
        pushes,
        reads: None,
        writes: None,
    }
}

/// Of an instruction that pushes what a local holds.
fn of_load(local: u16) -> Size
    ensures { result ≡ record { pops = 0; pushes = 1; reads = Some local; writes = None } }
{
    Size {
        pops: 0,
        pushes: 1,
        reads: Some(local),
        writes: None,
    }
}

/// Of an instruction that pops into a local.
fn of_store(local: u16) -> Size
    ensures { result ≡ record { pops = 1; pushes = 0; reads = None; writes = Some local } }
{
    Size {
        pops: 1,
        pushes: 0,
        reads: None,
        writes: Some(local),
    }
}

/// Of `iinc`.
fn of_step(local: u16) -> Size
    ensures { result ≡ record { pops = 0; pushes = 0; reads = Some local; writes = Some local } }
{
    Size {
        pops: 0,
        pushes: 0,
        reads: Some(local),
        writes: Some(local),
    }
}

fn constant_size(op: u8) -> Option<Size>
    ensures { result ≡ option_map size_of (constant_effect op) }
{
    if op == 0 {
        Some(of_stack(0, 0))
    } else if op == 1 {
        Some(of_stack(0, 1))
    } else if within(2, 8, op) {
        Some(of_stack(0, 1))
    } else {
        None
    }
}

fn short_local_size(op: u8) -> Option<Size>
    ensures { result ≡ option_map size_of (short_local_effect op) }
{
    if within(26, 29, op) {
        Some(of_load(u16::from(op - 26)))
    } else if within(42, 45, op) {
        Some(of_load(u16::from(op - 42)))
    } else if within(59, 62, op) {
        Some(of_store(u16::from(op - 59)))
    } else if within(75, 78, op) {
        Some(of_store(u16::from(op - 75)))
    } else {
        None
    }
}

fn array_size(op: u8) -> Option<Size>
    ensures { result ≡ option_map size_of (array_effect op) }
{
    if op == 50 {
        Some(of_stack(2, 1))
    } else if op == 46 || within(51, 53, op) {
        Some(of_stack(2, 1))
    } else if op == 83 {
        Some(of_stack(3, 0))
    } else if op == 79 || within(84, 86, op) {
        Some(of_stack(3, 0))
    } else if op == 190 {
        Some(of_stack(1, 1))
    } else {
        None
    }
}

fn move_size(op: u8) -> Option<Size>
    ensures { result ≡ option_map size_of (move_effect op) }
{
    if op == 87 {
        Some(of_stack(1, 0))
    } else if op == 88 {
        Some(of_stack(2, 0))
    } else if op == 89 {
        Some(of_stack(1, 2))
    } else if op == 90 {
        Some(of_stack(2, 3))
    } else if op == 91 {
        Some(of_stack(3, 4))
    } else if op == 92 {
        Some(of_stack(2, 4))
    } else if op == 93 {
        Some(of_stack(3, 5))
    } else if op == 94 {
        Some(of_stack(4, 6))
    } else if op == 95 {
        Some(of_stack(2, 2))
    } else {
        None
    }
}

fn arithmetic_size(op: u8) -> Option<Size>
    ensures { result ≡ option_map size_of (arithmetic_effect op) }
{
    if op == 116 || within(145, 147, op) {
        Some(of_stack(1, 1))
    } else if within(96, 130, op) {
        Some(of_stack(2, 1))
    } else {
        None
    }
}

fn leaving_size(op: u8) -> Option<Size>
    ensures { (kind : Option Kind) → result ≡ option_map size_of (leaving_effect kind op) }
{
    if op == 172 {
        Some(of_stack(1, 0))
    } else if op == 176 {
        Some(of_stack(1, 0))
    } else if op == 177 {
        Some(of_stack(0, 0))
    } else if op == 191 {
        Some(of_stack(1, 0))
    } else {
        None
    }
}

/// Of an instruction without operands.
fn plain_size(op: u8) -> Size
    ensures { (kind : Option Kind) → result ≡ size_of (plain_effect kind op) }
{
    if let Some(size) = constant_size(op) {
        return size;
    }
    if let Some(size) = short_local_size(op) {
        return size;
    }
    if let Some(size) = array_size(op) {
        return size;
    }
    if let Some(size) = move_size(op) {
        return size;
    }
    if let Some(size) = arithmetic_size(op) {
        return size;
    }
    match leaving_size(op) {
        Some(size) => size,
        None => of_stack(0, 0),
    }
}

fn local_size(op: u8, local: u16) -> Size
    ensures { result ≡ size_of (local_effect op local) }
{
    if op == 21 {
        of_load(local)
    } else if op == 25 {
        of_load(local)
    } else if op == 54 {
        of_store(local)
    } else if op == 58 {
        of_store(local)
    } else {
        of_stack(0, 0)
    }
}

fn jump_size(op: u8) -> Size
    ensures { result ≡ size_of (jump_effect op) }
{
    if within(153, 158, op) {
        of_stack(1, 0)
    } else if within(159, 164, op) {
        of_stack(2, 0)
    } else if within(165, 166, op) {
        of_stack(2, 0)
    } else if within(198, 199, op) {
        of_stack(1, 0)
    } else {
        of_stack(0, 0)
    }
}

/// Of `ldc` and `ldc_w`.
fn constant_operand_size(operand: Option<&Operand>) -> Size
    ensures { result ≡ size_of (constant_of (option_copied operand.entry)) }
{
    match operand {
        Some(Operand::Int(_)) => of_stack(0, 1),
        Some(Operand::Text(_)) => of_stack(0, 1),
        _ => of_stack(0, 0),
    }
}

/// Of `anewarray`.
fn array_of_size(program: &Program, element: &TypeRef) -> Size
    ensures { result ≡ size_of (array_over program.now element.now) }
{
    match element {
        TypeRef::Class(class) => match class_at(program, *class) {
            Some(_) => of_stack(1, 1),
            None => of_stack(0, 0),
        },
        TypeRef::Array(_) => of_stack(1, 1),
    }
}

fn type_size(program: &Program, op: u8, named: &TypeRef) -> Size
    ensures { result ≡ size_of (type_effect program.now op named.now) }
{
    if op == 187 {
        of_stack(0, 1)
    } else if op == 189 {
        array_of_size(program, named)
    } else if op == 192 {
        of_stack(1, 1)
    } else if op == 193 {
        of_stack(1, 1)
    } else {
        of_stack(0, 0)
    }
}

fn field_size(op: u8, member: &MemberRef) -> Size
    ensures { (program : Program) → result ≡ size_of (field_by program op member.now.owner (field_desc_in member.now.desc)) }
{
    if !is_field_desc(member.desc.as_slice()) {
        return of_stack(0, 0);
    }
    if op == 178 {
        of_stack(0, 1)
    } else if op == 179 {
        of_stack(1, 0)
    } else if op == 180 {
        of_stack(1, 1)
    } else {
        of_stack(2, 0)
    }
}

/// Of a call of a method with that descriptor.
fn described_size(op: u8, desc: &MethodDesc) -> Size
    ensures { (program : Program) (current : ℕ) (ref : MemberRef) → result ≡ size_of (call_effect program op current ref (Some desc.now)) }
{
    let receiver = if op == 184 { 0 } else { 1 };
    let results = if desc.result.is_some() { 1 } else { 0 };
    of_stack(desc.params.as_slice().len() + receiver, results)
}

fn call_size(alloc: Global, op: u8, member: &MemberRef) -> Result<Size, Memory>
    ensures { IfOk result (λ size. (program : Program) (current : ℕ) → size ≡ size_of (call_effect program op current member.now (method_desc_in member.now.desc))) }
{
    match read_method_desc(alloc, member.desc.as_slice()) {
        Ok(desc) => Ok(described_size(op, &desc)),
        Err(DescFault::Bad) => Ok(of_stack(0, 0)),
        Err(DescFault::Memory) => Err(AllocError),
    }
}

fn member_size(alloc: Global, op: u8, member: &MemberRef) -> Result<Size, Memory>
    ensures { IfOk result (λ size. (program : Program) (current : ℕ) → size ≡ size_of (member_effect program current op member.now)) }
{
    if within(178, 181, op) {
        Ok(field_size(op, member))
    } else if within(182, 185, op) {
        call_size(alloc, op, member)
    } else {
        Ok(of_stack(0, 0))
    }
}

/// Of an instruction that names an operand.
fn operand_size(
    alloc: Global,
    program: &Program,
    op: u8,
    operand: Option<&Operand>,
) -> Result<Size, Memory>
    ensures { IfOk result (λ size. (current : ℕ) → size ≡ size_of (pooled_effect program.now current op (option_copied operand.entry))) }
{
    if within(18, 19, op) {
        return Ok(constant_operand_size(operand));
    }
    match operand {
        Some(Operand::OfType(named)) => Ok(type_size(program, op, named)),
        Some(Operand::Member(member)) => member_size(alloc, op, member),
        _ => Ok(of_stack(0, 0)),
    }
}

/// What an instruction of the method names by this pool index.
pub fn operand_at<'p>(program: &'p Program, method: &Method, index: u16) -> Option<&'p Operand>
    ensures { (m : ℕ) → method_at program.now m ≡ Some method.now → option_copied result ≡ operand_at program.now m index }
{
    let class = class_at(program, method.class)?;
    class.operands.as_slice().get(index as usize)
}

/// Of an instruction of the method.
#[tactic(auto, unfolding(jo_prog::specs::InsnTyping::effect_of))]
pub(crate) fn insn_size(alloc: Global, subject: &Subject<'_>, insn: Insn) -> Result<Size, Memory>
    requires { IsSubject subject.now }
    ensures { IfOk result (λ size. size ≡ size_of (effect_of (program_of subject.now) subject.now.number subject.now.method.now insn)) }
{
    match insn {
        Insn::Plain(op) => Ok(plain_size(op)),
        Insn::Local { op, index, .. } => Ok(local_size(op, index)),
        Insn::Iinc { index, .. } => Ok(of_step(index)),
        Insn::Push { .. } => Ok(of_stack(0, 1)),
        Insn::Pooled { op, index } => {
            let operand = operand_at(subject.program, subject.method, index);
            operand_size(alloc, subject.program, op, operand)
        }
        Insn::Array(_) => Ok(of_stack(1, 1)),
        Insn::Jump { op, .. } => Ok(jump_size(op)),
        Insn::TableSwitch { .. } => Ok(of_stack(1, 0)),
        Insn::LookupSwitch { .. } => Ok(of_stack(1, 0)),
    }
}
