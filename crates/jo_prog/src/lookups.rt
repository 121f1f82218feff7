//! What stands at a number or a pc of a program.
ghost use Rattle.std.specs.Prelude.{◌≡◌, ◌↔◌, ℕ, ◌+◌, ◌<◌, ◌^◌, ◌≤◌, option_map, option_and_then, Some, IfSome, IsTrue, length, ◌&&◌};
ghost use Rattle.std.specs.Option.{option_copied};
ghost use Rattle.jo_prog.specs.Program.{method_at, class_at, code_at, operation_in, operation_at, first_with, resolve_operand, operand_at, callee_of, callee_at, is_class_named, class_named};
ghost use Rattle.std.specs.Str.{bytes_eq};

use crate::operations::{Operation, operation_of};
use crate::program::{Class, Code, Method, Operand, Program, TypeRef};
use jo_ids::{ClassId, MethodId};
use jo_insn::decode;

/// How many bytes code has at most.
const LONGEST_CODE: usize = 65_535;

/// The method with that number, if the program has it.
pub fn method_at(program: &Program, method: MethodId) -> Option<&Method>
    ensures { option_copied result ≡ method_at program.now method }
{
    program.methods.as_slice().get(method.number() as usize)
}

/// The class with that number, if the program has it.
pub fn class_at(program: &Program, class: ClassId) -> Option<&Class>
    ensures { option_copied result ≡ class_at program.now class }
{
    program.classes.as_slice().get(class.number() as usize)
}

/// The code of a method. `None` for a native method and for a number that no method has.
pub fn code_at(program: &Program, method: MethodId) -> Option<&Code>
    ensures { option_copied result ≡ code_at program.now method }
{
    method_at(program, method)?.code.as_ref()
}

/// What the instruction at a pc of this code does, and the pc behind it.
pub(crate) fn operation_in(code: &Code, pc: usize) -> Option<(Operation, usize)>
    ensures value { result ≡ operation_in (Some code.now) pc }
    ensures above { IfSome result (λ found. pc < found.1) }
    ensures inside { IfSome result (λ found. found.1 ≤ length code.now.bytes) }
    ensures short { IfSome result (λ found. found.1 < 2 ^ 16) }
{
    let bytes = code.bytes.as_slice();
    if bytes.len() > LONGEST_CODE {
        return None;
    }
    if pc >= bytes.len() {
        return None;
    }
    match decode(bytes, pc as u32) {
        Ok((insn, next)) => Some((operation_of(insn), next as usize)),
        Err(_) => None,
    }
}

/// What the instruction at a pc of a method does, and the pc behind it. `None` where no instruction stands.
pub fn operation_at(program: &Program, method: MethodId, pc: u32) -> Option<(Operation, u32)>
    ensures { result ≡ operation_at program.now method pc }
{
    let (operation, next) = operation_in(code_at(program, method)?, pc as usize)?;
    Some((operation, next as u32))
}

fn has_signature(method: &Method, name: &[u8], desc: &[u8]) -> bool
    ensures { result ≡ (bytes_eq method.now.name name.now && bytes_eq method.now.desc desc.now) }
{
    method.name.as_slice() == name && method.desc.as_slice() == desc
}

pub(crate) fn first_with(
    program: &Program,
    name: &[u8],
    desc: &[u8],
    methods: &[MethodId],
) -> Option<MethodId>
    ensures { result ≡ first_with program.now name.now desc.now methods.now }
{
    for m in methods {
        if let Some(method) = method_at(program, *m) {
            if has_signature(method, name, desc) {
                return Some(*m);
            }
        }
    }
    None
}

fn resolve_operand(program: &Program, operand: &Operand) -> Option<MethodId>
    ensures { result ≡ resolve_operand program.now (Some operand.now) }
{
    let Operand::Member(member) = operand else {
        return None;
    };
    let TypeRef::Class(owner) = &member.owner else {
        return None;
    };
    let class = class_at(program, *owner)?;
    first_with(
        program,
        member.name.as_slice(),
        member.desc.as_slice(),
        class.methods.as_slice(),
    )
}

/// What an instruction of a method names by this pool index.
fn operand_at(program: &Program, method: MethodId, index: u16) -> Option<&Operand>
    ensures { option_copied result ≡ operand_at program.now method index }
{
    let class = class_at(program, method_at(program, method)?.class)?;
    class.operands.as_slice().get(index as usize)
}

/// The method that an operation of a method names.
pub(crate) fn callee_of(
    program: &Program,
    method: MethodId,
    operation: Operation,
) -> Option<MethodId>
    ensures { (next : ℕ) → result ≡ callee_of program.now method (Some (operation, next)) }
{
    let Operation::InvokeStatic(index) = operation else {
        return None;
    };
    resolve_operand(program, operand_at(program, method, index)?)
}

/// The method that the call at a pc of a method names. `None` where no call stands, and where no method is found.
pub fn callee_at(program: &Program, method: MethodId, pc: u32) -> Option<MethodId>
    ensures { result ≡ callee_at program.now method pc }
{
    let (operation, _) = operation_in(code_at(program, method)?, pc as usize)?;
    callee_of(program, method, operation)
}

/// Whether so many things have numbers.
pub(crate) fn has_numbers(count: usize) -> bool
    ensures { IsTrue result ↔ (count < 2 ^ 32) }
{
    count <= u32::MAX as usize
}

fn is_class_named(class: &Class, name: &[u8]) -> bool
    ensures { result ≡ is_class_named name.now class.now }
{
    class.name.as_slice() == name
}

/// The place of the first class with that name.
pub(crate) fn class_named(program: &Program, name: &[u8]) -> Option<usize>
    ensures { result ≡ class_named program.now name.now }
{
    for (place, class) in program.classes.as_slice().iter().enumerate() {
        if is_class_named(class, name) {
            return Some(place);
        }
    }
    None
}
