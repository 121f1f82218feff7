//! Instructions that move values between the stack, locals and a caller.
ghost use Rattle.std.specs.Prelude.{◌≡◌, ◌∷◌, [], ◌==◌, if◌then◌else◌, Some, None, option_map};
ghost use Rattle.machine.specs.Execution as machine;
ghost use Rattle.jvm_values.specs.Values.{value_of, popped_values};
ghost use Rattle.jvm_exec.specs.Shapes.{no_value};
ghost use Rattle.jvm_exec.specs.Outcomes.{outcome_of};
ghost use Rattle.jvm_exec.specs.Forms.{with_none, loaded, stored, returned, static_put};

use crate::outcomes::{Cell, Effect, Outcome, Pushed};
use crate::shapes::one_value;
use jo_ids::FieldId;
use jo_text::FieldDesc;
use jvm_values::{Value, kept_int};

/// What an instruction comes to that pops nothing.
pub(crate) fn when_none<'i>(outcome: Outcome<'i>, values: &[Value]) -> Option<Outcome<'i>>
    ensures { option_map outcome_of result ≡ with_none (Some (outcome_of outcome.entry)) (popped_values values.now) }
{
    if values.is_empty() {
        Some(outcome)
    } else {
        None
    }
}

pub(crate) fn load<'i>(values: &[Value]) -> Option<Outcome<'i>>
    ensures { option_map outcome_of result ≡ loaded (popped_values values.now) }
{
    match one_value(values) {
        Some(value) => Some(Outcome::pushes_one(value)),
        None => None,
    }
}

pub(crate) fn store<'i>(local: u16, values: &[Value]) -> Option<Outcome<'i>>
    ensures { option_map outcome_of result ≡ stored local (popped_values values.now) }
{
    match one_value(values) {
        Some(value) => Some(Outcome::only(Effect::Puts(local, value))),
        None => None,
    }
}

/// What a field, an element or a result of a type keeps of a value.
pub(crate) fn kept(desc: &FieldDesc, value: Value) -> Value
    ensures { value_of result ≡ machine.kept desc.now (value_of value) }
{
    match value {
        Value::Int(z) => Value::Int(kept_int(desc, z)),
        Value::Null => Value::Null,
        Value::Ref(address) => Value::Ref(address),
    }
}

pub(crate) fn return_one<'i>(desc: &FieldDesc, values: &[Value]) -> Option<Outcome<'i>>
    ensures { option_map outcome_of result ≡ returned desc.now (popped_values values.now) }
{
    match one_value(values) {
        Some(value) => Some(Outcome::only(Effect::Returns(Some(kept(desc, value))))),
        None => None,
    }
}

pub(crate) fn put_static<'i>(
    field: FieldId,
    desc: &FieldDesc,
    values: &[Value],
) -> Option<Outcome<'i>>
    ensures { option_map outcome_of result ≡ static_put field desc.now (popped_values values.now) }
{
    match one_value(values) {
        Some(value) => Some(Outcome::writes(Cell::Static(field), kept(desc, value))),
        None => None,
    }
}

// ---- pop, pop2, the dup family and swap; the first value was on top

fn shuffled_one(op: u8, a: Value) -> Option<Pushed>
    ensures { result ≡ machine.shuffled op (value_of a ∷ []) }
{
    match op {
        87 => Some(Pushed::none()),
        89 => Some(Pushed::first([a, a, a, a, a, a], 2)),
        _ => None,
    }
}

fn shuffled_two(op: u8, a: Value, b: Value) -> Option<Pushed>
    ensures { result ≡ machine.shuffled op (value_of a ∷ value_of b ∷ []) }
{
    match op {
        88 => Some(Pushed::none()),
        90 => Some(Pushed::first([a, b, a, a, a, a], 3)),
        92 => Some(Pushed::first([b, a, b, a, a, a], 4)),
        95 => Some(Pushed::first([a, b, a, a, a, a], 2)),
        _ => None,
    }
}

fn shuffled_three(op: u8, a: Value, b: Value, c: Value) -> Option<Pushed>
    ensures { result ≡ machine.shuffled op (value_of a ∷ value_of b ∷ value_of c ∷ []) }
{
    match op {
        91 => Some(Pushed::first([a, c, b, a, a, a], 4)),
        93 => Some(Pushed::first([b, a, c, b, a, a], 5)),
        _ => None,
    }
}

fn shuffled_four(op: u8, a: Value, b: Value, c: Value, d: Value) -> Option<Pushed>
    ensures { result ≡ machine.shuffled op (value_of a ∷ value_of b ∷ value_of c ∷ value_of d ∷ []) }
{
    match op {
        94 => Some(Pushed::first([b, a, d, c, b, a], 6)),
        _ => None,
    }
}

fn shuffled(op: u8, values: &[Value]) -> Option<Pushed>
    ensures { result ≡ machine.shuffled op (popped_values values.now) }
{
    match values {
        [a] => shuffled_one(op, *a),
        [b, a] => shuffled_two(op, *a, *b),
        [c, b, a] => shuffled_three(op, *a, *b, *c),
        [d, c, b, a] => shuffled_four(op, *a, *b, *c, *d),
        _ => None,
    }
}

pub(crate) fn shuffle<'i>(op: u8, values: &[Value]) -> Option<Outcome<'i>>
    ensures { option_map outcome_of result ≡ machine.pushes_all (machine.shuffled op (popped_values values.now)) }
{
    match shuffled(op, values) {
        Some(pushed) => Some(Outcome::only(Effect::Pushes(pushed))),
        None => None,
    }
}

#[cfg(test)]
mod tests {
    use super::*;

    /// The ints that a shuffle of some ints pushes, the top of the stack last; none where it pushes none.
    fn pushed(op: u8, values: &[Value], wanted: &[Value]) -> bool {
        match shuffled(op, values) {
            Some(pushed) => pushed.as_slice() == wanted,
            None => false,
        }
    }

    /// As 6.5 of the JVM Specification shows them.
    #[test]
    fn shuffles(rt: HostRuntime) {
        let one = Value::Int(1);
        let two = Value::Int(2);
        let three = Value::Int(3);
        assert!(rt; pushed(90, [two, one].as_slice(), [one, two, one].as_slice()));
        assert!(rt;
            pushed(
                91,
                [three, two, one].as_slice(),
                [one, three, two, one].as_slice()
            )
        );
        assert!(rt; pushed(92, [two, one].as_slice(), [two, one, two, one].as_slice()));
        assert!(rt;
            pushed(
                93,
                [three, two, one].as_slice(),
                [two, one, three, two, one].as_slice()
            )
        );
        assert!(rt; pushed(95, [two, one].as_slice(), [one, two].as_slice()));
        assert!(rt; !pushed(95, [one].as_slice(), [one].as_slice()));
    }
}
