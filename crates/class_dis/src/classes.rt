//! The listing of a class.
ghost use Rattle.std.specs.Prelude.{◌≡◌, ◌++◌, ◌<◌, ◌^◌, length, OnOk, IfOk};
ghost use Rattle.std.specs.List.{AllByRecursion, flat_map};
ghost use Rattle.std.specs.Option.{option_copied};
ghost use Rattle.class_dis.specs.Insns.{IsShortCode, HasShortCodes};
ghost use Rattle.class_dis.specs.Words.{spaced};
ghost use Rattle.class_dis.specs.Listing.{class_line, interface_line, constant_words, head_words, field_line, limit_words, method_line, code_lines, method_lines, listing_of};

use crate::bodies::push_body;
use crate::words::{push_class, push_entry, push_hex, push_name, push_number};
use class_pool::{ClassFile, CodeInfo, FieldInfo, MethodInfo, PoolEntry, entry_at};
use jo_text::Memory;
use std::alloc::Global;

fn push_class_line(out: &mut Vec<u8>, class: &ClassFile) -> Result<(), Memory>
    ensures { OnOk result (out.new.items ≡ out.old.items ++ class_line class.now) }
{
    let pool = class.pool.as_slice();
    out.extend_from_slice(b"class ")?;
    push_class(out, pool, class.this_class)?;
    out.extend_from_slice(b" super ")?;
    push_class(out, pool, class.super_class)?;
    out.extend_from_slice(b" flags ")?;
    push_hex(out, class.flags)?;
    out.push(b'\n')?;
    Ok(())
}

fn push_interfaces(out: &mut Vec<u8>, pool: &[PoolEntry], interfaces: &[u16]) -> Result<(), Memory>
    ensures { OnOk result (out.new.items ≡ out.old.items ++ flat_map (interface_line pool.now) interfaces.now) }
{
    for interface in interfaces {
        out.extend_from_slice(b"implements ")?;
        push_class(out, pool, *interface)?;
        out.push(b'\n')?;
    }
    Ok(())
}

/// What begins the line of a field or a method, behind its first word.
fn push_head(
    out: &mut Vec<u8>,
    pool: &[PoolEntry],
    flags: u16,
    name: u16,
    desc: u16,
) -> Result<(), Memory>
    ensures { OnOk result (out.new.items ≡ out.old.items ++ spaced (head_words pool.now flags name desc)) }
{
    out.push(b' ')?;
    push_name(out, pool, name)?;
    out.push(b' ')?;
    push_name(out, pool, desc)?;
    out.extend_from_slice(b" flags ")?;
    push_hex(out, flags)
}

/// The constant of a field. A long, a float or a double isn't spelled.
fn push_constant(
    alloc: Global,
    out: &mut Vec<u8>,
    pool: &[PoolEntry],
    constant: Option<u16>,
) -> Result<(), Memory>
    ensures { OnOk result (out.new.items ≡ out.old.items ++ spaced (constant_words pool.now constant)) }
{
    let Some(index) = constant else {
        return Ok(());
    };
    match entry_at(pool, index) {
        Some(PoolEntry::Integer(_) | PoolEntry::Text(_)) => {
            out.extend_from_slice(b" value ")?;
            push_entry(alloc, out, pool, index)
        }
        _ => Ok(()),
    }
}

fn push_field(
    alloc: Global,
    out: &mut Vec<u8>,
    pool: &[PoolEntry],
    field: &FieldInfo,
) -> Result<(), Memory>
    ensures { OnOk result (out.new.items ≡ out.old.items ++ field_line pool.now field.now) }
{
    out.extend_from_slice(b"field")?;
    push_head(out, pool, field.flags, field.name, field.desc)?;
    push_constant(alloc, out, pool, field.constant)?;
    out.push(b'\n')?;
    Ok(())
}

fn push_fields(
    alloc: Global,
    out: &mut Vec<u8>,
    pool: &[PoolEntry],
    fields: &[FieldInfo],
) -> Result<(), Memory>
    ensures { OnOk result (out.new.items ≡ out.old.items ++ flat_map (field_line pool.now) fields.now) }
{
    for field in fields {
        push_field(alloc, out, pool, field)?;
    }
    Ok(())
}

/// The limits of a method with code.
fn push_limits(alloc: Global, out: &mut Vec<u8>, code: Option<&CodeInfo>) -> Result<(), Memory>
    ensures { OnOk result (out.new.items ≡ out.old.items ++ spaced (limit_words (option_copied code.entry))) }
{
    let Some(code) = code else {
        return Ok(());
    };
    out.extend_from_slice(b" stack ")?;
    push_number(alloc, out, u32::from(code.max_stack))?;
    out.extend_from_slice(b" locals ")?;
    push_number(alloc, out, u32::from(code.max_locals))
}

fn push_method_line(
    alloc: Global,
    out: &mut Vec<u8>,
    pool: &[PoolEntry],
    method: &MethodInfo,
) -> Result<(), Memory>
    ensures { OnOk result (out.new.items ≡ out.old.items ++ method_line pool.now method.now) }
{
    out.extend_from_slice(b"method")?;
    push_head(out, pool, method.flags, method.name, method.desc)?;
    push_limits(alloc, out, method.code.as_ref())?;
    out.push(b'\n')?;
    Ok(())
}

fn push_method(
    alloc: Global,
    out: &mut Vec<u8>,
    pool: &[PoolEntry],
    method: &MethodInfo,
) -> Result<(), Memory>
    requires { IsShortCode method.now.code }
    ensures { OnOk result (out.new.items ≡ out.old.items ++ method_lines pool.now method.now) }
{
    push_method_line(alloc, out, pool, method)?;
    match &method.code {
        Some(code) => push_body(alloc, out, pool, code),
        None => Ok(()),
    }
}

fn push_methods(
    alloc: Global,
    out: &mut Vec<u8>,
    pool: &[PoolEntry],
    methods: &[MethodInfo],
) -> Result<(), Memory>
    requires { AllByRecursion (λ (method : MethodInfo). IsShortCode method.code) methods.now }
    ensures { OnOk result (out.new.items ≡ out.old.items ++ flat_map (method_lines pool.now) methods.now) }
{
    for method in methods {
        push_method(alloc, out, pool, method)?;
    }
    Ok(())
}

/// The listing of a class. Its lines end with a line feed.
#[tactic(auto, unfolding(crate::specs::Listing::listing_of))]
pub fn listing(alloc: Global, class: &ClassFile) -> Result<Vec<u8>, Memory>
    requires { HasShortCodes class.now }
    ensures { IfOk result (λ text. text.items ≡ listing_of class.now) }
{
    let pool = class.pool.as_slice();
    let mut out = Vec::new(alloc);
    push_class_line(&mut out, class)?;
    push_interfaces(&mut out, pool, class.interfaces.as_slice())?;
    push_fields(alloc, &mut out, pool, class.fields.as_slice())?;
    push_methods(alloc, &mut out, pool, class.methods.as_slice())?;
    Ok(out)
}
