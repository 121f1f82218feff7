//! Instructions on ints.
ghost use Rattle.std.specs.Prelude.{◌≡◌, map, Some, option_map};
ghost use Rattle.machine.specs.Execution as machine;
ghost use Rattle.jvm_values.specs.Resolved.{case_of};
ghost use Rattle.jvm_values.specs.Values.{popped_values};
ghost use Rattle.jvm_exec.specs.Outcomes.{outcome_of};
ghost use Rattle.jvm_exec.specs.Forms.{incremented, computed_by, negated_one, narrowed, tested, compared_ints, switched_to};

use crate::outcomes::{Effect, Outcome};
use crate::shapes::{one_int, two_ints};
use jo_prog::sites::Cause;
use jvm_values::{Case, Value, int_op, int_test, narrow, negated};

pub(crate) fn increment<'i>(local: u16, by: i16, values: &[Value]) -> Option<Outcome<'i>>
    ensures { option_map outcome_of result ≡ incremented local by (popped_values values.now) }
{
    match one_int(values) {
        Some(x) => {
            let sum = x.wrapping_add(i32::from(by));
            Some(Outcome::only(Effect::Puts(local, Value::Int(sum))))
        }
        None => None,
    }
}

fn computed_value<'i>(found: Option<i32>) -> Outcome<'i>
    ensures { Some (outcome_of result) ≡ machine.computed found }
{
    match found {
        Some(z) => Outcome::pushes_int(z),
        None => Outcome::raises(Cause::ZeroDivisor),
    }
}

pub(crate) fn compute<'i>(op: u8, values: &[Value]) -> Option<Outcome<'i>>
    ensures { option_map outcome_of result ≡ computed_by op (popped_values values.now) }
{
    match two_ints(values) {
        Some((x, y)) => Some(computed_value(int_op(op, x, y))),
        None => None,
    }
}

pub(crate) fn negate<'i>(values: &[Value]) -> Option<Outcome<'i>>
    ensures { option_map outcome_of result ≡ negated_one (popped_values values.now) }
{
    match one_int(values) {
        Some(x) => Some(Outcome::pushes_int(negated(x))),
        None => None,
    }
}

pub(crate) fn narrow_one<'i>(op: u8, values: &[Value]) -> Option<Outcome<'i>>
    ensures { option_map outcome_of result ≡ narrowed op (popped_values values.now) }
{
    match one_int(values) {
        Some(x) => Some(Outcome::pushes_int(narrow(op, x))),
        None => None,
    }
}

/// Jumps where a test has passed.
pub(crate) fn jump_if<'i>(target: u32, passed: bool) -> Outcome<'i>
    ensures { Some (outcome_of result) ≡ machine.jumps_if target passed }
{
    if passed {
        Outcome::only(Effect::Jumps(target))
    } else {
        Outcome::pushes_none()
    }
}

pub(crate) fn test<'i>(op: u8, target: u32, values: &[Value]) -> Option<Outcome<'i>>
    ensures { option_map outcome_of result ≡ tested op target (popped_values values.now) }
{
    match one_int(values) {
        Some(x) => Some(jump_if(target, int_test(op, x, 0))),
        None => None,
    }
}

pub(crate) fn compare<'i>(op: u8, target: u32, values: &[Value]) -> Option<Outcome<'i>>
    ensures { option_map outcome_of result ≡ compared_ints op target (popped_values values.now) }
{
    match two_ints(values) {
        Some((x, y)) => Some(jump_if(target, int_test(op, x, y))),
        None => None,
    }
}

/// The target of the first of these keys that the int is.
fn target_of(z: i32, cases: &[Case], other: u32) -> u32
    ensures { result ≡ machine.switched z (map case_of cases.now) other }
{
    for case in cases {
        if z == case.key {
            return case.target;
        }
    }
    other
}

pub(crate) fn switch<'i>(cases: &[Case], other: u32, values: &[Value]) -> Option<Outcome<'i>>
    ensures { option_map outcome_of result ≡ switched_to (map case_of cases.now) other (popped_values values.now) }
{
    match one_int(values) {
        Some(z) => Some(Outcome::only(Effect::Jumps(target_of(z, cases, other)))),
        None => None,
    }
}
