//! The values that instructions pop, by their shapes. The last one was the top of the stack.
ghost use Rattle.std.specs.Prelude.{◌≡◌, [], ◌∷◌, option_map};
ghost use Rattle.jvm_values.specs.Values.{value_of, popped_values};
ghost use Rattle.jvm_exec.specs.Shapes;
ghost use Rattle.jvm_exec.specs.Operands.{stored_of, put_of};

use jvm_values::{Address, Value};

pub(crate) fn one_value(values: &[Value]) -> Option<Value>
    ensures { option_map value_of result ≡ Shapes.one_value (popped_values values.now) }
{
    match values {
        [value] => Some(*value),
        _ => None,
    }
}

pub(crate) fn one_int(values: &[Value]) -> Option<i32>
    ensures { result ≡ Shapes.one_int (popped_values values.now) }
{
    match values {
        [value] => int_of(value),
        _ => None,
    }
}

fn int_of(value: &Value) -> Option<i32>
    ensures { result ≡ Shapes.one_int (value_of value.now ∷ []) }
{
    match value {
        Value::Int(z) => Some(*z),
        Value::Null | Value::Ref(_) => None,
    }
}

/// Null is no address.
fn address_of(value: &Value) -> Option<Option<Address>>
    ensures { result ≡ Shapes.one_reference (value_of value.now ∷ []) }
{
    match value {
        Value::Int(_) => None,
        Value::Null => Some(None),
        Value::Ref(address) => Some(Some(*address)),
    }
}

/// The second was on top.
fn both_ints(x: &Value, y: &Value) -> Option<(i32, i32)>
    ensures { result ≡ Shapes.two_ints (value_of y.now ∷ value_of x.now ∷ []) }
{
    match y {
        Value::Int(y) => match x {
            Value::Int(x) => Some((*x, *y)),
            Value::Null | Value::Ref(_) => None,
        },
        Value::Null | Value::Ref(_) => None,
    }
}

fn both_references(a: &Value, b: &Value) -> Option<(Option<Address>, Option<Address>)>
    ensures { result ≡ Shapes.two_references (value_of b.now ∷ value_of a.now ∷ []) }
{
    match b {
        Value::Int(_) => None,
        Value::Null => match a {
            Value::Int(_) => None,
            Value::Null => Some((None, None)),
            Value::Ref(a) => Some((Some(*a), None)),
        },
        Value::Ref(b) => match a {
            Value::Int(_) => None,
            Value::Null => Some((None, Some(*b))),
            Value::Ref(a) => Some((Some(*a), Some(*b))),
        },
    }
}

fn indexed(array: &Value, index: &Value) -> Option<(i32, Option<Address>)>
    ensures { result ≡ Shapes.on_array (value_of index.now ∷ value_of array.now ∷ []) }
{
    match index {
        Value::Int(index) => match array {
            Value::Int(_) => None,
            Value::Null => Some((*index, None)),
            Value::Ref(array) => Some((*index, Some(*array))),
        },
        Value::Null | Value::Ref(_) => None,
    }
}

/// The second is the one that was on top.
pub(crate) fn two_ints(values: &[Value]) -> Option<(i32, i32)>
    ensures { result ≡ Shapes.two_ints (popped_values values.now) }
{
    match values {
        [x, y] => both_ints(x, y),
        _ => None,
    }
}

pub(crate) fn one_reference(values: &[Value]) -> Option<Option<Address>>
    ensures { result ≡ Shapes.one_reference (popped_values values.now) }
{
    match values {
        [value] => address_of(value),
        _ => None,
    }
}

/// The second is the one that was on top.
pub(crate) fn two_references(values: &[Value]) -> Option<(Option<Address>, Option<Address>)>
    ensures { result ≡ Shapes.two_references (popped_values values.now) }
{
    match values {
        [a, b] => both_references(a, b),
        _ => None,
    }
}

/// An index that was on an array.
pub(crate) fn on_array(values: &[Value]) -> Option<(i32, Option<Address>)>
    ensures { result ≡ Shapes.on_array (popped_values values.now) }
{
    match values {
        [array, index] => indexed(array, index),
        _ => None,
    }
}

/// A value that was on an index on an array.
#[derive(Clone, Copy)]
pub(crate) struct Stored {
    pub value: Value,
    pub index: i32,
    pub array: Option<Address>,
}

fn stored_at(array: &Value, index: &Value, value: Value) -> Option<Stored>
    ensures { option_map stored_of result ≡ Shapes.stored_on_array (value_of value ∷ value_of index.now ∷ value_of array.now ∷ []) }
{
    match index {
        Value::Int(index) => match array {
            Value::Int(_) => None,
            Value::Null => Some(Stored {
                value,
                index: *index,
                array: None,
            }),
            Value::Ref(array) => Some(Stored {
                value,
                index: *index,
                array: Some(*array),
            }),
        },
        Value::Null | Value::Ref(_) => None,
    }
}

pub(crate) fn stored_on_array(values: &[Value]) -> Option<Stored>
    ensures { option_map stored_of result ≡ Shapes.stored_on_array (popped_values values.now) }
{
    match values {
        [array, index, value] => stored_at(array, index, *value),
        _ => None,
    }
}

/// A value that was on an object.
#[derive(Clone, Copy)]
pub(crate) struct Put {
    pub value: Value,
    pub object: Option<Address>,
}

fn put_at(object: &Value, value: Value) -> Option<Put>
    ensures { option_map put_of result ≡ Shapes.on_object (value_of value ∷ value_of object.now ∷ []) }
{
    match object {
        Value::Int(_) => None,
        Value::Null => Some(Put {
            value,
            object: None,
        }),
        Value::Ref(object) => Some(Put {
            value,
            object: Some(*object),
        }),
    }
}

pub(crate) fn on_object(values: &[Value]) -> Option<Put>
    ensures { option_map put_of result ≡ Shapes.on_object (popped_values values.now) }
{
    match values {
        [object, value] => put_at(object, *value),
        _ => None,
    }
}
