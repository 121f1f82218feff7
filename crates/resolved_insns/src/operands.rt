//! Instructions that name an operand.
ghost use Rattle.std.specs.Prelude.{◌≡◌, ℕ, List as Items, Some, None, IfOk};
ghost use Rattle.std.specs.Option.{option_copied};
ghost use Rattle.jo_prog.specs.declared.program.Program.{Program as OfProgram};
ghost use Rattle.jo_prog.specs.declared.program.Operand.TheVariants.{Text as OfText};
ghost use Rattle.jo_prog.specs.Constants.{string_address};
ghost use Rattle.jo_prog.specs.Calls;
ghost use Rattle.jo_prog.specs.Program.{class_at as class_with, operand_at as operand_with};
ghost use Rattle.machine.specs.Instructions as machine;
ghost use Rattle.machine.specs.Instructions.{pushes_text};
ghost use Rattle.hierarchy.specs.Hierarchies.{IsHierarchyOf};
ghost use Rattle.jvm_values.specs.Resolved.{IsSeen};
ghost use Rattle.resolved_insns.specs.Strings.{AreStringsOf};

use crate::plain::within;
use crate::strings::Strings;
use hierarchy::Hierarchy;
use jo_ids::{ClassId, FieldId, Id, Memory, MethodId};
use jo_prog::laws::strings_have_objects;
use jo_prog::program::{MemberRef, Operand, Program, TypeRef, class_at, method_at};
use jo_text::{Base, FieldDesc, MethodDesc, Name};
use jo_types::{copy_desc, copy_name, copy_type, field_type, method_type};
use jvm_values::Instruction;
use std::alloc::{AllocError, Global};

/// What an instruction of a method names by this pool index.
fn operand_at(program: &Program, method: MethodId, index: u16) -> Option<&Operand>
    ensures { option_copied result ≡ operand_with program.now method index }
{
    let class = class_at(program, method_at(program, method)?.class)?;
    class.operands.as_slice().get(index as usize)
}

fn of_text(program: &Program, strings: &Strings, text: &[u8]) -> Option<Instruction>
    requires kept { AreStringsOf program.now strings.now }
    requires there { (address : ℕ) × (string_address program.now text.now ≡ Some address) }
    ensures { IsSeen program.now (Some (pushes_text text.now)) result }
{
    strings_have_objects();
    match strings.address(program, text) {
        Some(address) => Some(Instruction::PushesText(address)),
        None => None,
    }
}

// ---- types

fn class_name(alloc: Global, program: &Program, class: ClassId) -> Result<Name, Memory>
    ensures { IfOk result (λ name. name ≡ machine.class_name (class_with program.now class)) }
{
    match class_at(program, class) {
        Some(class) => {
            let name = copy_name(alloc, &class.name)?;
            Ok(name)
        }
        None => Ok(Name::new(alloc)),
    }
}

fn element_type(alloc: Global, program: &Program, named: &TypeRef) -> Result<FieldDesc, Memory>
    ensures { IfOk result (λ desc. desc ≡ machine.element_type program.now named.now) }
{
    match named {
        TypeRef::Class(class) => {
            let name = class_name(alloc, program, *class)?;
            Ok(FieldDesc {
                dims: 0,
                base: Base::Class(name),
            })
        }
        TypeRef::Array(desc) => {
            let desc = copy_desc(alloc, desc)?;
            Ok(desc)
        }
    }
}

fn of_type(
    alloc: Global,
    program: &Program,
    op: u8,
    named: &TypeRef,
) -> Result<Option<Instruction>, Memory>
    ensures { IfOk result (IsSeen program.now (machine.names_type program.now op named.now)) }
{
    // no array is made by new
    if op == 187 {
        match named {
            TypeRef::Class(class) => Ok(Some(Instruction::Creates(*class))),
            TypeRef::Array(_) => Ok(None),
        }
    } else if op == 189 {
        let desc = element_type(alloc, program, named)?;
        Ok(Some(Instruction::CreatesArray(desc)))
    } else if op == 192 {
        let named = copy_type(alloc, named)?;
        Ok(Some(Instruction::Casts(named)))
    } else if op == 193 {
        let named = copy_type(alloc, named)?;
        Ok(Some(Instruction::Checks(named)))
    } else {
        Ok(None)
    }
}

// ---- members

fn field_named(program: &Program, hierarchy: &Hierarchy, member: &MemberRef) -> Option<FieldId>
    requires { IsHierarchyOf program.now hierarchy.now }
    ensures { result ≡ machine.field_named program.now member.now }
{
    match &member.owner {
        TypeRef::Class(owner) => hierarchy.resolve_field(
            program,
            *owner,
            member.name.as_slice(),
            member.desc.as_slice(),
        ),
        TypeRef::Array(_) => None,
    }
}

fn field_instruction(op: u8, field: FieldId, desc: FieldDesc) -> Instruction
    ensures { (program : OfProgram) → IsSeen program (Some (machine.field_instruction op field desc)) (Some result) }
{
    if op == 178 {
        Instruction::GetsStatic(field)
    } else if op == 179 {
        Instruction::PutsStatic(field, desc)
    } else if op == 180 {
        Instruction::GetsField(field)
    } else {
        Instruction::PutsField(field, desc)
    }
}

fn of_field(
    alloc: Global,
    program: &Program,
    hierarchy: &Hierarchy,
    op: u8,
    member: &MemberRef,
) -> Result<Option<Instruction>, Memory>
    requires { IsHierarchyOf program.now hierarchy.now }
    ensures { IfOk result (IsSeen program.now (machine.names_field program.now op member.now)) }
{
    let named = field_named(program, hierarchy, member);
    let found = field_type(alloc, member.desc.as_slice())?;
    match named {
        Some(field) => match found {
            Some(desc) => Ok(Some(field_instruction(op, field, desc))),
            None => Ok(None),
        },
        None => Ok(None),
    }
}

/// The class whose methods a type has: an array those of java/lang/Object.
fn receiver_class(owner: &TypeRef) -> ClassId
    ensures { result ≡ Calls.receiver_class owner.now }
{
    match owner {
        TypeRef::Class(class) => *class,
        TypeRef::Array(_) => Id::of(0),
    }
}

fn method_named(program: &Program, hierarchy: &Hierarchy, member: &MemberRef) -> Option<MethodId>
    requires { IsHierarchyOf program.now hierarchy.now }
    ensures { result ≡ machine.method_named program.now member.now }
{
    hierarchy.resolve(
        program,
        receiver_class(&member.owner),
        member.name.as_slice(),
        member.desc.as_slice(),
    )
}

/// How many values a call pops: its parameters, and the receiver but for invokestatic.
fn values_taken(op: u8, desc: &MethodDesc) -> Result<u32, Memory>
    ensures { IfOk result (λ count. count ≡ machine.values_taken op desc.now) }
{
    let Ok(count) = u32::try_from(desc.params.as_slice().len()) else {
        return Err(AllocError);
    };
    if op == 184 {
        return Ok(count);
    }
    count.checked_add(1).ok_or(AllocError)
}

fn call_of(
    alloc: Global,
    op: u8,
    owner: &TypeRef,
    method: MethodId,
    desc: &MethodDesc,
) -> Result<Instruction, Memory>
    ensures { IfOk result (λ found. (program : OfProgram) → IsSeen program (Some (machine.calls op owner.now method (machine.values_taken op desc.now))) (Some found)) }
{
    let owner = copy_type(alloc, owner)?;
    let count = values_taken(op, desc)?;
    Ok(Instruction::Calls {
        op,
        owner,
        method,
        count,
    })
}

fn of_method(
    alloc: Global,
    program: &Program,
    hierarchy: &Hierarchy,
    op: u8,
    member: &MemberRef,
) -> Result<Option<Instruction>, Memory>
    requires { IsHierarchyOf program.now hierarchy.now }
    ensures { IfOk result (IsSeen program.now (machine.names_method program.now op member.now)) }
{
    let named = method_named(program, hierarchy, member);
    let found = method_type(alloc, member.desc.as_slice())?;
    match named {
        Some(method) => match found {
            Some(desc) => {
                let call = call_of(alloc, op, &member.owner, method, &desc)?;
                Ok(Some(call))
            }
            None => Ok(None),
        },
        None => Ok(None),
    }
}

fn of_member(
    alloc: Global,
    program: &Program,
    hierarchy: &Hierarchy,
    op: u8,
    member: &MemberRef,
) -> Result<Option<Instruction>, Memory>
    requires { IsHierarchyOf program.now hierarchy.now }
    ensures { IfOk result (IsSeen program.now (machine.names_member program.now op member.now)) }
{
    if within(178, 181, op) {
        let found = of_field(alloc, program, hierarchy, op, member)?;
        Ok(found)
    } else {
        let found = of_method(alloc, program, hierarchy, op, member)?;
        Ok(found)
    }
}

fn of_operand(
    alloc: Global,
    program: &Program,
    hierarchy: &Hierarchy,
    strings: &Strings,
    op: u8,
    operand: &Operand,
) -> Result<Option<Instruction>, Memory>
    requires kept { IsHierarchyOf program.now hierarchy.now }
    requires strings { AreStringsOf program.now strings.now }
    requires texts { (text : Items ℕ) → operand.now ≡ OfText text → (address : ℕ) × (string_address program.now text ≡ Some address) }
    ensures { IfOk result (IsSeen program.now (machine.pooled_instruction program.now op (Some operand.now))) }
{
    match operand {
        Operand::Unused => Ok(None),
        Operand::Int(z) => Ok(Some(Instruction::PushesInt(*z))),
        Operand::Text(text) => Ok(of_text(program, strings, text.as_slice())),
        Operand::OfType(named) => {
            let found = of_type(alloc, program, op, named)?;
            Ok(found)
        }
        Operand::Member(member) => {
            let found = of_member(alloc, program, hierarchy, op, member)?;
            Ok(found)
        }
    }
}

/// An instruction that names the operand of its method's class with this index.
pub(crate) fn pooled(
    alloc: Global,
    program: &Program,
    hierarchy: &Hierarchy,
    strings: &Strings,
    method: MethodId,
    op: u8,
    index: u16,
) -> Result<Option<Instruction>, Memory>
    requires kept { IsHierarchyOf program.now hierarchy.now }
    requires strings { AreStringsOf program.now strings.now }
    ensures { IfOk result (IsSeen program.now (machine.pooled_instruction program.now op (operand_with program.now method index))) }
{
    strings_have_objects();
    match operand_at(program, method, index) {
        Some(operand) => {
            let found = of_operand(alloc, program, hierarchy, strings, op, operand)?;
            Ok(found)
        }
        None => Ok(None),
    }
}
