//! The types of what sites make.
ghost use Rattle.std.specs.Prelude.{◌≡◌, ℕ, None, Some, IfOk, option_and_then};
ghost use Rattle.std.specs.Option.{option_copied};
ghost use Rattle.jo_prog.specs.Program.{operand_at as operand_found};
ghost use Rattle.dependence.specs.WideGraph;
ghost use Rattle.dependence.specs.FlowGraph;
ghost use Rattle.jo_text.specs.declared.descriptors.Base.TheVariants.{Class as OfName};
ghost use Rattle.object_types.specs.Made;

use crate::copies::{copy_name, copy_type, copy_under};
use jo_ids::{ClassId, Memory, MethodId};
use jo_insn::{Insn, decode};
use jo_prog::program::{Operand, Program, TypeRef, class_at, code_at, method_at};
use jo_prog::sites::{Site, opcode_of};
use jo_text::{Base, FieldDesc};
use std::alloc::Global;

/// How many bytes code has at most.
const LONGEST_CODE: usize = 65_535;

fn insn_at(program: &Program, method: MethodId, pc: u32) -> Option<(Insn, u32)>
    ensures { result ≡ WideGraph.insn_at program.now method pc }
{
    let Some(code) = code_at(program, method) else {
        return None;
    };
    let bytes = code.bytes.as_slice();
    if bytes.len() > LONGEST_CODE {
        return None;
    }
    match decode(bytes, pc) {
        Ok(found) => Some(found),
        Err(_) => None,
    }
}

/// What an instruction names by a pool index.
fn named_by(program: &Program, method: MethodId, index: u16) -> Option<&Operand>
    ensures { option_copied result ≡ operand_found program.now method index }
{
    let class = class_at(program, method_at(program, method)?.class)?;
    class.operands.as_slice().get(index as usize)
}

/// What the instruction of a method names.
fn operand_of(program: &Program, method: MethodId, insn: Insn) -> Option<&Operand>
    ensures { (next : ℕ) → option_copied result ≡ WideGraph.operand_of program.now method (Some (insn, next)) }
{
    let Insn::Pooled { index, .. } = insn else {
        return None;
    };
    named_by(program, method, index)
}

fn type_in(operand: Option<&Operand>) -> Option<&TypeRef>
    ensures { option_copied result ≡ FlowGraph.type_in (option_copied operand.entry) }
{
    let Some(Operand::OfType(named)) = operand else {
        return None;
    };
    Some(named)
}

/// The type that an instruction names.
fn type_named(program: &Program, method: MethodId, insn: Insn) -> Option<&TypeRef>
    ensures { (next : ℕ) → option_copied result ≡ FlowGraph.type_in (WideGraph.operand_of program.now method (Some (insn, next))) }
{
    let operand = operand_of(program, method, insn);
    let named = type_in(operand);
    named
}

fn element_base(kind: u8) -> Option<Base>
    ensures { result ≡ FlowGraph.element_base kind }
{
    if kind == 4 {
        Some(Base::Boolean)
    } else if kind == 5 {
        Some(Base::Char)
    } else if kind == 8 {
        Some(Base::Byte)
    } else if kind == 9 {
        Some(Base::Short)
    } else if kind == 10 {
        Some(Base::Int)
    } else {
        None
    }
}

fn array_with(base: Option<Base>) -> Option<TypeRef>
    ensures { result ≡ FlowGraph.array_with 1 base }
{
    match base {
        Some(base) => Some(TypeRef::Array(FieldDesc { dims: 1, base })),
        None => None,
    }
}

fn array_of_class(alloc: Global, name: &[u8]) -> Result<Option<TypeRef>, Memory>
    ensures { IfOk result (λ array. array ≡ FlowGraph.array_with 1 (Some (OfName name.now))) }
{
    let name = copy_name(alloc, name)?;
    Ok(array_with(Some(Base::Class(name))))
}

/// The array type with elements of a type. Past 255 dimensions there is none: for it memory is said to be wanting.
pub(crate) fn array_over(
    alloc: Global,
    program: &Program,
    element: &TypeRef,
) -> Result<Option<TypeRef>, Memory>
    ensures { IfOk result (λ array. array ≡ FlowGraph.array_over program.now element.now) }
{
    match element {
        TypeRef::Class(class) => match class_at(program, *class) {
            Some(class) => array_of_class(alloc, class.name.as_slice()),
            None => Ok(None),
        },
        TypeRef::Array(desc) => {
            let Some(dims) = desc.dims.checked_add(1) else {
                return Err(Memory);
            };
            let array = copy_under(alloc, dims, &desc.base)?;
            Ok(Some(array))
        }
    }
}

fn copied(alloc: Global, named: Option<&TypeRef>) -> Result<Option<TypeRef>, Memory>
    ensures { IfOk result (λ copy. copy ≡ option_copied named.entry) }
{
    match named {
        Some(named) => {
            let copy = copy_type(alloc, named)?;
            Ok(Some(copy))
        }
        None => Ok(None),
    }
}

fn over_named(
    alloc: Global,
    program: &Program,
    named: Option<&TypeRef>,
) -> Result<Option<TypeRef>, Memory>
    ensures { IfOk result (λ array. array ≡ option_and_then (FlowGraph.array_over program.now) (option_copied named.entry)) }
{
    match named {
        Some(named) => array_over(alloc, program, named),
        None => Ok(None),
    }
}

// ---- what instructions make

fn array_kind(insn: Insn) -> Option<u8>
    ensures { result ≡ Made.array_kind insn }
{
    let Insn::Array(kind) = insn else {
        return None;
    };
    Some(kind)
}

/// What an instruction that names a class makes: an object of it, or an array over it.
fn made_of_class(
    alloc: Global,
    program: &Program,
    method: MethodId,
    insn: Insn,
) -> Result<Option<TypeRef>, Memory>
    ensures { IfOk result (λ made. (next : ℕ) → made ≡ Made.made_as program.now method None insn next) }
{
    let named = type_named(program, method, insn);
    if opcode_of(insn) == 187 {
        copied(alloc, named)
    } else {
        over_named(alloc, program, named)
    }
}

fn made_by(
    alloc: Global,
    program: &Program,
    method: MethodId,
    insn: Insn,
) -> Result<Option<TypeRef>, Memory>
    ensures { IfOk result (λ made. (next : ℕ) → made ≡ Made.made_as program.now method (Made.array_kind insn) insn next) }
{
    match array_kind(insn) {
        Some(kind) => Ok(array_with(element_base(kind))),
        None => made_of_class(alloc, program, method, insn),
    }
}

fn type_made(
    alloc: Global,
    program: &Program,
    method: MethodId,
    pc: u32,
) -> Result<Option<TypeRef>, Memory>
    ensures { IfOk result (λ made. made ≡ FlowGraph.type_made program.now method (WideGraph.insn_at program.now method pc)) }
{
    match insn_at(program, method, pc) {
        Some((insn, _)) => made_by(alloc, program, method, insn),
        None => Ok(None),
    }
}

/// The type of what is made at a site.
pub(crate) fn type_at(
    alloc: Global,
    program: &Program,
    site: &Site,
) -> Result<Option<TypeRef>, Memory>
    ensures { IfOk result (λ made. made ≡ FlowGraph.type_of_site program.now (Some site.now)) }
{
    match site {
        Site::Text => Ok(Some(TypeRef::Class(ClassId::of(1)))),
        Site::Args => array_of_class(alloc, b"java/lang/String"),
        Site::Alloc { method, pc } => type_made(alloc, program, *method, *pc),
        Site::Call { .. } => Ok(None),
        Site::Raise { class, .. } => Ok(Some(TypeRef::Class(*class))),
    }
}
