//! Writes fields and methods (JVM Specification SE 8, 4.5 to 4.7).
ghost use Rattle.std.specs.Prelude.{◌≡◌, ◌<◌, ◌^◌, ◌++◌, length, Some, OnOk};
ghost use Rattle.std.specs.List.{AllByRecursion, flat_map};
ghost use Rattle.class_pool.specs.Fitting.{FitsContent};
ghost use Rattle.class_write.specs.Spelling.{spelled_head, spelled_row, spelled_content, counted};
ghost use Rattle.class_write.specs.Named.{names_in, attribute_named, constant_named, field_named, code_named, method_named, HasFittingCode};

use crate::numbers::{add_four, add_two, text_index};
use class_pool::{CodeInfo, FieldInfo, MethodInfo, PoolEntry, RowInfo};
use jo_ids::Memory;

/// The indices of the attributes' names. A pool is searched for them once, however many members there are.
#[derive(Clone, Copy)]
pub struct AttributeNames {
    code: u16,
    constant_value: u16,
}

/// The indices in a pool, 0 for a name that it doesn't have.
pub fn attribute_names(pool: &[PoolEntry]) -> AttributeNames
    requires { length pool.now < 65535 }
    ensures { result ≡ names_in pool.now }
{
    AttributeNames {
        code: text_index(pool, b"Code"),
        constant_value: text_index(pool, b"ConstantValue"),
    }
}

/// What begins a field or a method.
fn add_head(flags: u16, name: u16, desc: u16, out: &mut Vec<u8>) -> Result<(), Memory>
    ensures { OnOk result (out.new.items ≡ out.old.items ++ spelled_head flags name desc) }
{
    add_two(flags, out)?;
    add_two(name, out)?;
    add_two(desc, out)
}

/// The count of one attribute, and what begins it: the index of its name, and the size of its content.
fn add_attribute(name: u16, size: u32, out: &mut Vec<u8>) -> Result<(), Memory>
    ensures { OnOk result (out.new.items ≡ out.old.items ++ attribute_named name size) }
{
    add_two(1, out)?;
    add_two(name, out)?;
    add_four(size, out)
}

/// One attribute, a ConstantValue.
fn add_constant(name: u16, constant: u16, out: &mut Vec<u8>) -> Result<(), Memory>
    ensures { OnOk result (out.new.items ≡ out.old.items ++ constant_named name (Some constant)) }
{
    add_attribute(name, 2, out)?;
    add_two(constant, out)
}

fn add_field(names: AttributeNames, field: &FieldInfo, out: &mut Vec<u8>) -> Result<(), Memory>
    ensures { OnOk result (out.new.items ≡ out.old.items ++ field_named names field.now) }
{
    add_head(field.flags, field.name, field.desc, out)?;
    match field.constant {
        None => add_two(0, out),
        Some(constant) => add_constant(names.constant_value, constant, out),
    }
}

/// The fields, without their count.
fn add_fields(names: AttributeNames, fields: &[FieldInfo], out: &mut Vec<u8>) -> Result<(), Memory>
    ensures { OnOk result (out.new.items ≡ out.old.items ++ flat_map (field_named names) fields.now) }
{
    for field in fields {
        add_field(names, field, out)?;
    }
    Ok(())
}

fn add_row(row: &RowInfo, out: &mut Vec<u8>) -> Result<(), Memory>
    ensures { OnOk result (out.new.items ≡ out.old.items ++ spelled_row row.now) }
{
    add_two(row.start, out)?;
    add_two(row.end, out)?;
    add_two(row.handler, out)?;
    add_two(row.catch_type, out)
}

/// The rows of an exception table, with their count.
fn add_rows(rows: &[RowInfo], out: &mut Vec<u8>) -> Result<(), Memory>
    requires { length rows.now < 2 ^ 16 }
    ensures { OnOk result (out.new.items ≡ out.old.items ++ counted spelled_row rows.now) }
{
    add_two(rows.len() as u16, out)?;
    for row in rows {
        add_row(row, out)?;
    }
    Ok(())
}

/// The content of a Code.
fn add_content(code: &CodeInfo, out: &mut Vec<u8>) -> Result<(), Memory>
    requires { FitsContent code.now }
    ensures { OnOk result (out.new.items ≡ out.old.items ++ spelled_content code.now) }
{
    let bytes = code.bytes.as_slice();
    add_two(code.max_stack, out)?;
    add_two(code.max_locals, out)?;
    add_four(bytes.len() as u32, out)?;
    out.extend_from_slice(bytes)?;
    add_rows(code.rows.as_slice(), out)?;
    add_two(0, out)
}

/// One attribute, a Code.
fn add_code(name: u16, code: &CodeInfo, out: &mut Vec<u8>) -> Result<(), Memory>
    requires { FitsContent code.now }
    ensures { OnOk result (out.new.items ≡ out.old.items ++ code_named name (Some code.now)) }
{
    let size = 12 + code.bytes.as_slice().len() + 8 * code.rows.as_slice().len();
    add_attribute(name, size as u32, out)?;
    add_content(code, out)
}

fn add_method(names: AttributeNames, method: &MethodInfo, out: &mut Vec<u8>) -> Result<(), Memory>
    requires { HasFittingCode method.now }
    ensures { OnOk result (out.new.items ≡ out.old.items ++ method_named names method.now) }
{
    add_head(method.flags, method.name, method.desc, out)?;
    match &method.code {
        None => add_two(0, out),
        Some(code) => add_code(names.code, code, out),
    }
}

/// The methods, without their count.
fn add_methods(
    names: AttributeNames,
    methods: &[MethodInfo],
    out: &mut Vec<u8>,
) -> Result<(), Memory>
    requires { AllByRecursion HasFittingCode methods.now }
    ensures { OnOk result (out.new.items ≡ out.old.items ++ flat_map (method_named names) methods.now) }
{
    for method in methods {
        add_method(names, method, out)?;
    }
    Ok(())
}

/// The fields and the methods, with their counts.
pub fn add_members(
    names: AttributeNames,
    fields: &[FieldInfo],
    methods: &[MethodInfo],
    out: &mut Vec<u8>,
) -> Result<(), Memory>
    requires few_fields { length fields.now < 2 ^ 16 }
    requires few_methods { length methods.now < 2 ^ 16 }
    requires codes { AllByRecursion HasFittingCode methods.now }
    ensures { OnOk result (out.new.items ≡ out.old.items ++ (counted (field_named names) fields.now ++ counted (method_named names) methods.now)) }
{
    add_two(fields.len() as u16, out)?;
    add_fields(names, fields, out)?;
    add_two(methods.len() as u16, out)?;
    add_methods(names, methods, out)
}
