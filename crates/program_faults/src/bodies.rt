//! Calls that would find no body, and objects of classes that can have none.
ghost use Rattle.std.specs.Prelude.{◌≡◌, ◌↔◌, ◌<◌, ◌^◌, length, IfOk, IsTrue};
ghost use Rattle.std.specs.List.{list_any};
ghost use Rattle.std.specs.Option.{option_copied};
ghost use Rattle.hierarchy.specs.Hierarchies.{IsHierarchyOf};
ghost use Rattle.hierarchy.specs.Resolutions.{AreResolutionsOf};
ghost use Rattle.program_faults.specs.FirstFaults.{IsFirstIfAny};
ghost use Rattle.program_faults.specs.UsedOperands.{methods_of as own_methods};
ghost use Rattle.program_faults.specs.BodyFaults;
ghost use Rattle.program_faults.specs.BodyFaults.{LacksBody, IsNotImplemented};

use crate::supers::ACC_INTERFACE;
use crate::uses::{Use, methods_of, operand_in, uses_of};
use hierarchy::Hierarchy;
use hierarchy::resolutions::{Member, Resolutions};
use jo_ids::{ClassId, Memory, MethodId};
use jo_insn::{ACC_ABSTRACT, has_flag};
use jo_prog::calls::{Taken, taken_from};
use jo_prog::program::{Operand, Program, TypeRef, class_at, method_at};
use std::alloc::Global;

/// The opcode `new`.
const NEW: u8 = 187;

/// Whether the class with that number is abstract or an interface.
fn is_abstract(program: &Program, class: ClassId) -> bool
    ensures { result ≡ BodyFaults.is_abstract program.now class }
{
    match class_at(program, class) {
        Some(class) => has_flag(ACC_ABSTRACT, class.flags) || has_flag(ACC_INTERFACE, class.flags),
        None => false,
    }
}

fn is_abstract_method(program: &Program, method: MethodId) -> bool
    ensures { result ≡ BodyFaults.is_abstract_method program.now method }
{
    match method_at(program, method) {
        Some(method) => has_flag(ACC_ABSTRACT, method.flags),
        None => false,
    }
}

fn is_nothing(taken: Taken) -> bool
    ensures { result ≡ BodyFaults.is_nothing taken }
{
    matches!(taken, Taken::Nothing)
}

/// Whether the method is abstract, and the class selects no body for it.
fn is_unselected(program: &Program, hierarchy: &Hierarchy, class: ClassId, method: MethodId) -> bool
    requires { IsHierarchyOf program.now hierarchy.now }
    ensures { result ≡ BodyFaults.is_unselected program.now class method }
{
    if !is_abstract_method(program, method) {
        return false;
    }
    let selected = hierarchy.select(program, class, method);
    is_nothing(taken_from(program, selected))
}

/// Whether some of these methods is.
fn some_unselected(
    program: &Program,
    hierarchy: &Hierarchy,
    class: ClassId,
    methods: &[MethodId],
) -> bool
    requires { IsHierarchyOf program.now hierarchy.now }
    ensures { result ≡ list_any (BodyFaults.is_unselected program.now class) methods.now }
{
    for method in methods {
        if is_unselected(program, hierarchy, class, *method) {
            return true;
        }
    }
    false
}

/// Whether some method of these classes is.
fn some_unselected_above(
    program: &Program,
    hierarchy: &Hierarchy,
    class: ClassId,
    above: &[ClassId],
) -> bool
    requires { IsHierarchyOf program.now hierarchy.now }
    ensures { result ≡ list_any (BodyFaults.has_unselected program.now class) above.now }
{
    for other in above {
        if some_unselected(program, hierarchy, class, methods_of(program, *other)) {
            return true;
        }
    }
    false
}

fn lacks_body(program: &Program, hierarchy: &Hierarchy, class: ClassId) -> bool
    requires kept { IsHierarchyOf program.now hierarchy.now }
    requires below { class < length program.now.classes }
    ensures { IsTrue result ↔ LacksBody program.now class }
{
    if is_abstract(program, class) {
        return false;
    }
    let above = hierarchy.supertypes(program, class);
    some_unselected_above(program, hierarchy, class, above)
}

/// What an invokestatic or invokespecial of a class takes for the member that its operand resolves to.
fn taken_by(
    program: &Program,
    hierarchy: &Hierarchy,
    op: u8,
    class: ClassId,
    member: &Option<Member>,
) -> Taken
    requires { IsHierarchyOf program.now hierarchy.now }
    ensures { result ≡ BodyFaults.taken_by program.now op class member.now }
{
    match member {
        Some(Member::Method(method)) => hierarchy.takes(program, op, class, *method, class),
        _ => Taken::Nothing,
    }
}

fn takes_one(op: u8) -> bool
    ensures { result ≡ BodyFaults.takes_one op }
{
    op == 183 || op == 184
}

fn calls_nothing(
    program: &Program,
    hierarchy: &Hierarchy,
    resolutions: &Resolutions,
    class: ClassId,
    used: Use,
) -> bool
    requires kept { IsHierarchyOf program.now hierarchy.now }
    requires resolved { AreResolutionsOf program.now resolutions.now }
    ensures { result ≡ BodyFaults.calls_nothing program.now class used }
{
    if !takes_one(used.op) {
        return false;
    }
    let member = resolutions.resolved(program, class, used.index);
    is_nothing(taken_by(program, hierarchy, used.op, class, &member))
}

/// Whether the operand is an abstract class or an interface.
fn names_abstract(program: &Program, operand: Option<&Operand>) -> bool
    ensures { result ≡ BodyFaults.names_abstract program.now (option_copied operand.entry) }
{
    match operand {
        Some(Operand::OfType(TypeRef::Class(class))) => is_abstract(program, *class),
        _ => false,
    }
}

fn makes_abstract(program: &Program, class: ClassId, used: Use) -> bool
    ensures { result ≡ BodyFaults.makes_abstract program.now class used }
{
    used.op == NEW && names_abstract(program, operand_in(program, class, used.index))
}

fn some_bodiless_use(
    program: &Program,
    hierarchy: &Hierarchy,
    resolutions: &Resolutions,
    class: ClassId,
    uses: &[Use],
) -> bool
    requires kept { IsHierarchyOf program.now hierarchy.now }
    requires resolved { AreResolutionsOf program.now resolutions.now }
    ensures { result ≡ list_any (BodyFaults.is_bodiless_use program.now class) uses.now }
{
    for used in uses {
        if calls_nothing(program, hierarchy, resolutions, class, *used)
            || makes_abstract(program, class, *used)
        {
            return true;
        }
    }
    false
}

fn uses_no_body(
    alloc: Global,
    program: &Program,
    hierarchy: &Hierarchy,
    resolutions: &Resolutions,
    class: ClassId,
) -> Result<bool, Memory>
    requires kept { IsHierarchyOf program.now hierarchy.now }
    requires resolved { AreResolutionsOf program.now resolutions.now }
    ensures { IfOk result (λ uses. uses ≡ BodyFaults.uses_no_body program.now class) }
{
    let uses = uses_of(alloc, program, class)?;
    Ok(some_bodiless_use(program, hierarchy, resolutions, class, uses.as_slice()))
}

fn is_not_implemented(
    alloc: Global,
    program: &Program,
    hierarchy: &Hierarchy,
    resolutions: &Resolutions,
    class: ClassId,
) -> Result<bool, Memory>
    requires kept { IsHierarchyOf program.now hierarchy.now }
    requires resolved { AreResolutionsOf program.now resolutions.now }
    requires below { class < length program.now.classes }
    ensures { IfOk result (λ lacks. IsTrue lacks ↔ IsNotImplemented program.now class) }
{
    if lacks_body(program, hierarchy, class) {
        return Ok(true);
    }
    let uses = uses_no_body(alloc, program, hierarchy, resolutions, class)?;
    Ok(uses)
}

/// The first class that lacks a body for an abstract method, or has an instruction that would find none.
pub fn not_implemented(
    alloc: Global,
    program: &Program,
    hierarchy: &Hierarchy,
    resolutions: &Resolutions,
) -> Result<Option<ClassId>, Memory>
    requires short { length program.now.classes < 2 ^ 32 }
    requires kept { IsHierarchyOf program.now hierarchy.now }
    requires resolved { AreResolutionsOf program.now resolutions.now }
    ensures { IfOk result (λ class. IsFirstIfAny (IsNotImplemented program.now) class) }
{
    let count = program.classes.as_slice().len() as u32;
    for number in 0..count {
        let class = ClassId::of(number);
        let lacks = is_not_implemented(alloc, program, hierarchy, resolutions, class)?;
        if lacks {
            return Ok(Some(class));
        }
    }
    Ok(None)
}
