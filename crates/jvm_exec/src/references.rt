//! Instructions that look at references.
ghost use Rattle.std.specs.Prelude.{◌≡◌, ◌<◌, ◌^◌, ◌==◌, length, Some, None, option_map};
ghost use Rattle.machine.specs.Execution as machine;
ghost use Rattle.hierarchy.specs.Hierarchies.{IsHierarchyOf};
ghost use Rattle.jvm_values.specs.Values.{popped_values};
ghost use Rattle.jvm_exec.specs.Outcomes.{outcome_of};
ghost use Rattle.jvm_exec.specs.Forms.{same_address, is_null, compared_references, null_tested, thrown, cast_one, cast_of, check_one, checked};

use crate::ints::jump_if;
use crate::outcomes::{Effect, Outcome};
use crate::shapes::{one_reference, two_references};
use hierarchy::Hierarchy;
use jo_prog::program::{Program, TypeRef};
use jo_prog::sites::Cause;
use jvm_values::{Address, Heap, Value, is_of_type};

fn is_same(a: Option<Address>, b: Option<Address>) -> bool
    ensures { result ≡ same_address a b }
{
    match a {
        None => b.is_none(),
        Some(a) => match b {
            None => false,
            Some(b) => a == b,
        },
    }
}

/// if_acmpeq, or else if_acmpne.
fn passes(op: u8, same: bool) -> bool
    ensures { result ≡ machine.reference_test op same }
{
    if op == 165 { same } else { !same }
}

pub(crate) fn compare_references<'i>(op: u8, target: u32, values: &[Value]) -> Option<Outcome<'i>>
    ensures { option_map outcome_of result ≡ compared_references op target (popped_values values.now) }
{
    match two_references(values) {
        Some((a, b)) => Some(jump_if(target, passes(op, is_same(a, b)))),
        None => None,
    }
}

/// ifnull, or else ifnonnull.
fn passes_null(op: u8, is_null: bool) -> bool
    ensures { result ≡ machine.null_test op is_null }
{
    if op == 198 { is_null } else { !is_null }
}

pub(crate) fn test_null<'i>(op: u8, target: u32, values: &[Value]) -> Option<Outcome<'i>>
    ensures { option_map outcome_of result ≡ null_tested op target (popped_values values.now) }
{
    match one_reference(values) {
        Some(found) => Some(jump_if(target, passes_null(op, found.is_none()))),
        None => None,
    }
}

pub(crate) fn throw<'i>(values: &[Value]) -> Option<Outcome<'i>>
    ensures { option_map outcome_of result ≡ thrown (popped_values values.now) }
{
    match one_reference(values) {
        Some(Some(address)) => Some(Outcome::only(Effect::ThrowsAt(address))),
        Some(None) => Some(Outcome::raises(Cause::NullBase)),
        None => None,
    }
}

// ---- casts

fn cast_result<'i>(address: Address, fits: bool) -> Outcome<'i>
    ensures { Some (outcome_of result) ≡ machine.cast_to address fits }
{
    if fits {
        Outcome::pushes_one(Value::Ref(address))
    } else {
        Outcome::raises(Cause::FailingCast)
    }
}

fn cast_reference<'i>(
    program: &Program,
    hierarchy: &Hierarchy,
    heap: &Heap,
    named: &TypeRef,
    found: Option<Address>,
) -> Outcome<'i>
    requires kept { IsHierarchyOf program.now hierarchy.now }
    requires short { length program.now.classes < 2 ^ 32 }
    ensures { Some (outcome_of result) ≡ cast_one program.now heap.now named.now found }
{
    match found {
        Some(address) => cast_result(
            address,
            is_of_type(program, hierarchy, heap, named, address),
        ),
        None => Outcome::pushes_one(Value::Null),
    }
}

pub(crate) fn cast<'i>(
    program: &Program,
    hierarchy: &Hierarchy,
    heap: &Heap,
    named: &TypeRef,
    values: &[Value],
) -> Option<Outcome<'i>>
    requires kept { IsHierarchyOf program.now hierarchy.now }
    requires short { length program.now.classes < 2 ^ 32 }
    ensures { option_map outcome_of result ≡ cast_of program.now heap.now named.now (popped_values values.now) }
{
    match one_reference(values) {
        Some(found) => Some(cast_reference(program, hierarchy, heap, named, found)),
        None => None,
    }
}

fn int_of_bool(holds: bool) -> i32
    ensures { result ≡ machine.bool_int holds }
{
    if holds { 1 } else { 0 }
}

fn check_reference<'i>(
    program: &Program,
    hierarchy: &Hierarchy,
    heap: &Heap,
    named: &TypeRef,
    found: Option<Address>,
) -> Outcome<'i>
    requires kept { IsHierarchyOf program.now hierarchy.now }
    requires short { length program.now.classes < 2 ^ 32 }
    ensures { Some (outcome_of result) ≡ check_one program.now heap.now named.now found }
{
    match found {
        Some(address) => Outcome::pushes_int(int_of_bool(is_of_type(
            program, hierarchy, heap, named, address,
        ))),
        None => Outcome::pushes_int(0),
    }
}

pub(crate) fn check<'i>(
    program: &Program,
    hierarchy: &Hierarchy,
    heap: &Heap,
    named: &TypeRef,
    values: &[Value],
) -> Option<Outcome<'i>>
    requires kept { IsHierarchyOf program.now hierarchy.now }
    requires short { length program.now.classes < 2 ^ 32 }
    ensures { option_map outcome_of result ≡ checked program.now heap.now named.now (popped_values values.now) }
{
    match one_reference(values) {
        Some(found) => Some(check_reference(program, hierarchy, heap, named, found)),
        None => None,
    }
}
