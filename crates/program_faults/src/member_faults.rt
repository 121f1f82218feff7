//! Members that instructions can't take.
ghost use Rattle.std.specs.Prelude.{◌≡◌, ◌<◌, ◌^◌, length, slice_get, IfOk};
ghost use Rattle.std.specs.List.{list_any};
ghost use Rattle.std.specs.Option.{option_copied};
ghost use Rattle.jo_prog.specs.Hierarchy.{is_static_method as is_static_in};
ghost use Rattle.jo_prog.specs.Program.{method_at as method_with};
ghost use Rattle.hierarchy.specs.Resolutions.{AreResolutionsOf};
ghost use Rattle.program_faults.specs.FirstFaults.{IsFirstIfAny};
ghost use Rattle.program_faults.specs.MemberFaults;
ghost use Rattle.program_faults.specs.MemberFaults.{LacksMember};

use crate::supers::is_interface;
use crate::uses::{Use, operand_in, uses_of};
use hierarchy::resolutions::{Member, Resolutions};
use jo_ids::{ClassId, FieldId, Memory, MethodId};
use jo_insn::{ACC_STATIC, has_flag};
use jo_prog::members::field_at;
use jo_prog::program::{Operand, Program, TypeRef, method_at};
use std::alloc::Global;

/// getstatic, putstatic, getfield and putfield.
fn takes_field(op: u8) -> bool
    ensures { result ≡ MemberFaults.takes_field op }
{
    matches!(op, 178..=181)
}

/// The calls.
fn takes_method(op: u8) -> bool
    ensures { result ≡ MemberFaults.takes_method op }
{
    matches!(op, 182..=185)
}

/// getstatic, putstatic and invokestatic.
fn needs_static(op: u8) -> bool
    ensures { result ≡ MemberFaults.needs_static op }
{
    op == 178 || op == 179 || op == 184
}

/// invokevirtual and invokespecial.
fn needs_class(op: u8) -> bool
    ensures { result ≡ MemberFaults.needs_class op }
{
    op == 182 || op == 183
}

fn is_static_field(program: &Program, field: FieldId) -> bool
    ensures { result ≡ MemberFaults.is_static_field (slice_get program.now.fields field) }
{
    match field_at(program, field) {
        Some(field) => has_flag(ACC_STATIC, field.flags),
        None => false,
    }
}

fn is_static_method(program: &Program, method: MethodId) -> bool
    ensures { result ≡ is_static_in (method_with program.now method) }
{
    match method_at(program, method) {
        Some(method) => has_flag(ACC_STATIC, method.flags),
        None => false,
    }
}

fn is_as_needed(needed: bool, is_static: bool) -> bool
    ensures { result ≡ MemberFaults.is_as_needed needed is_static }
{
    if needed { is_static } else { !is_static }
}

/// Whether an instruction with this opcode can take the member that its operand resolves to.
fn can_take(program: &Program, op: u8, member: &Option<Member>) -> bool
    ensures { result ≡ MemberFaults.can_take program.now op member.now }
{
    match member {
        None => false,
        Some(Member::Field(field)) => {
            takes_field(op) && is_as_needed(needs_static(op), is_static_field(program, *field))
        }
        Some(Member::Method(method)) => {
            takes_method(op) && is_as_needed(needs_static(op), is_static_method(program, *method))
        }
    }
}

/// Whether the operand is a member of an interface, by the class that it names.
fn names_interface(program: &Program, operand: Option<&Operand>) -> bool
    ensures { result ≡ MemberFaults.names_interface program.now (option_copied operand.entry) }
{
    let Some(Operand::Member(member)) = operand else {
        return false;
    };
    match &member.owner {
        TypeRef::Class(owner) => is_interface(program, *owner),
        TypeRef::Array(_) => false,
    }
}

fn takes_member(op: u8) -> bool
    ensures { result ≡ MemberFaults.takes_member op }
{
    takes_field(op) || takes_method(op)
}

fn is_wrong_use(program: &Program, resolutions: &Resolutions, class: ClassId, used: Use) -> bool
    requires { AreResolutionsOf program.now resolutions.now }
    ensures { result ≡ MemberFaults.is_wrong_use program.now class used }
{
    if !takes_member(used.op) {
        return false;
    }
    let member = resolutions.resolved(program, class, used.index);
    if !can_take(program, used.op, &member) {
        return true;
    }
    needs_class(used.op) && names_interface(program, operand_in(program, class, used.index))
}

fn some_wrong_use(
    program: &Program,
    resolutions: &Resolutions,
    class: ClassId,
    uses: &[Use],
) -> bool
    requires { AreResolutionsOf program.now resolutions.now }
    ensures { result ≡ list_any (MemberFaults.is_wrong_use program.now class) uses.now }
{
    for used in uses {
        if is_wrong_use(program, resolutions, class, *used) {
            return true;
        }
    }
    false
}

fn lacks_member(
    alloc: Global,
    program: &Program,
    resolutions: &Resolutions,
    class: ClassId,
) -> Result<bool, Memory>
    requires { AreResolutionsOf program.now resolutions.now }
    ensures { IfOk result (λ lacks. lacks ≡ MemberFaults.lacks_member program.now class) }
{
    let uses = uses_of(alloc, program, class)?;
    Ok(some_wrong_use(program, resolutions, class, uses.as_slice()))
}

/// The first class with an instruction that can't take the member that it names.
pub fn missing_member(
    alloc: Global,
    program: &Program,
    resolutions: &Resolutions,
) -> Result<Option<ClassId>, Memory>
    requires short { length program.now.classes < 2 ^ 32 }
    requires resolved { AreResolutionsOf program.now resolutions.now }
    ensures { IfOk result (λ class. IsFirstIfAny (LacksMember program.now) class) }
{
    let count = program.classes.as_slice().len() as u32;
    for number in 0..count {
        let class = ClassId::of(number);
        let lacks = lacks_member(alloc, program, resolutions, class)?;
        if lacks {
            return Ok(Some(class));
        }
    }
    Ok(None)
}
