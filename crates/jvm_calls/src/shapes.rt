//! The values that calls take, by their shapes.
ghost use Rattle.std.specs.Prelude.{◌≡◌, [], ◌∷◌, map};
ghost use Rattle.jvm_values.specs.Values.{value_of};
ghost use Rattle.jvm_calls.specs.Operands;

use jvm_values::{Address, Value};

pub(crate) fn no_value(values: &[Value]) -> bool
    ensures { result ≡ Operands.no_value (map value_of values.now) }
{
    values.is_empty()
}

fn int_of(value: &Value) -> Option<i32>
    ensures { result ≡ Operands.one_int (value_of value.now ∷ []) }
{
    match value {
        Value::Int(z) => Some(*z),
        Value::Null | Value::Ref(_) => None,
    }
}

pub(crate) fn one_int(values: &[Value]) -> Option<i32>
    ensures { result ≡ Operands.one_int (map value_of values.now) }
{
    match values {
        [value] => int_of(value),
        _ => None,
    }
}

fn object_of(value: &Value) -> Option<Address>
    ensures { result ≡ Operands.one_object (value_of value.now ∷ []) }
{
    match value {
        Value::Ref(address) => Some(*address),
        Value::Int(_) | Value::Null => None,
    }
}

pub(crate) fn one_object(values: &[Value]) -> Option<Address>
    ensures { result ≡ Operands.one_object (map value_of values.now) }
{
    match values {
        [value] => object_of(value),
        _ => None,
    }
}

fn reference_of(value: &Value) -> Option<Option<Address>>
    ensures { result ≡ Operands.receiver_of (value_of value.now ∷ []) }
{
    match value {
        Value::Int(_) => None,
        Value::Null => Some(None),
        Value::Ref(address) => Some(Some(*address)),
    }
}

/// The first value, where it is null or an address.
pub(crate) fn receiver_of(values: &[Value]) -> Option<Option<Address>>
    ensures { result ≡ Operands.receiver_of (map value_of values.now) }
{
    match values {
        [first, ..] => reference_of(first),
        [] => None,
    }
}
