//! What the entries of a pool stand for in a program.
ghost use Rattle.std.specs.Prelude.{◌≡◌, ◌<◌, ◌^◌, length, if◌then◌else◌, IfOk};
ghost use Rattle.class_pool.specs.Pool.{entry_at};
ghost use Rattle.jo_prog.specs.declared.program.Operand.TheVariants.{Unused};
ghost use Rattle.linker.specs.Linking.{array_of, type_of, type_at, member_of, class_named, operand_of, constant_of, operands_of};

use crate::names::ClassNames;
use crate::texts::text_at;
use crate::used::used_entries;
use class_pool::{ClassFile, PoolEntry, class_name_at, entry_at, utf8_at};
use jo_ids::{List, Memory};
use jo_prog::lists::add;
use jo_prog::program::{MemberRef, Operand, TypeRef};
use jo_text::{DescFault, read_field_desc};
use std::alloc::{AllocError, Global};

fn array_of(alloc: Global, desc: &[u8]) -> Result<Option<TypeRef>, Memory>
    ensures { IfOk result (λ found. found ≡ array_of desc.now) }
{
    match read_field_desc(alloc, desc) {
        Ok(desc) => Ok(Some(TypeRef::Array(desc))),
        Err(DescFault::Bad) => Ok(None),
        Err(DescFault::Memory) => Err(AllocError),
    }
}

/// The class with that name, or the array with that descriptor.
fn type_of(alloc: Global, names: &ClassNames, name: &[u8]) -> Result<Option<TypeRef>, Memory>
    requires { length names.now < 2 ^ 32 }
    ensures { IfOk result (λ found. found ≡ type_of names.now name.now) }
{
    if !name.is_empty() && name[0] == b'[' {
        return array_of(alloc, name);
    }
    match names.number_of(name) {
        Some(class) => Ok(Some(TypeRef::Class(class))),
        None => Ok(None),
    }
}

/// The type that the Class entry with that index names.
pub(crate) fn type_at(
    alloc: Global,
    names: &ClassNames,
    pool: &[PoolEntry],
    index: u16,
) -> Result<Option<TypeRef>, Memory>
    requires { length names.now < 2 ^ 32 }
    ensures { IfOk result (λ found. found ≡ type_at names.now pool.now index) }
{
    match class_name_at(pool, index) {
        Some(name) => type_of(alloc, names, name),
        None => Ok(None),
    }
}

fn member_of(
    alloc: Global,
    names: &ClassNames,
    pool: &[PoolEntry],
    class: u16,
    kind: u16,
) -> Result<Operand, Memory>
    requires { length names.now < 2 ^ 32 }
    ensures { IfOk result (λ operand. operand ≡ member_of names.now pool.now class kind) }
{
    let found = type_at(alloc, names, pool, class)?;
    let Some(owner) = found else {
        return Ok(Operand::Unused);
    };
    match entry_at(pool, kind) {
        Some(PoolEntry::NameAndType(name, desc)) => Ok(Operand::Member(MemberRef {
            owner,
            name: text_at(alloc, pool, *name)?,
            desc: text_at(alloc, pool, *desc)?,
        })),
        _ => Ok(Operand::Unused),
    }
}

fn class_named(
    alloc: Global,
    names: &ClassNames,
    pool: &[PoolEntry],
    name: u16,
) -> Result<Operand, Memory>
    requires { length names.now < 2 ^ 32 }
    ensures { IfOk result (λ operand. operand ≡ class_named names.now pool.now name) }
{
    let Some(name) = utf8_at(pool, name) else {
        return Ok(Operand::Unused);
    };
    let found = type_of(alloc, names, name)?;
    match found {
        Some(found) => Ok(Operand::OfType(found)),
        None => Ok(Operand::Unused),
    }
}

fn operand_of(
    alloc: Global,
    names: &ClassNames,
    pool: &[PoolEntry],
    entry: &PoolEntry,
) -> Result<Operand, Memory>
    requires { length names.now < 2 ^ 32 }
    ensures { IfOk result (λ operand. operand ≡ operand_of names.now pool.now entry.now) }
{
    match entry {
        PoolEntry::Integer(value) => Ok(Operand::Int(*value)),
        PoolEntry::Text(text) => Ok(Operand::Text(text_at(alloc, pool, *text)?)),
        PoolEntry::Class(name) => class_named(alloc, names, pool, *name),
        PoolEntry::FieldRef(class, kind) => member_of(alloc, names, pool, *class, *kind),
        PoolEntry::MethodRef(class, kind) => member_of(alloc, names, pool, *class, *kind),
        PoolEntry::InterfaceMethodRef(class, kind) => {
            member_of(alloc, names, pool, *class, *kind)
        }
        _ => Ok(Operand::Unused),
    }
}

/// The first value of a field.
pub(crate) fn constant_of(alloc: Global, pool: &[PoolEntry], index: u16) -> Result<Operand, Memory>
    ensures { IfOk result (λ operand. operand ≡ constant_of pool.now (entry_at pool.now index)) }
{
    match entry_at(pool, index) {
        Some(PoolEntry::Integer(value)) => Ok(Operand::Int(*value)),
        Some(PoolEntry::Text(text)) => Ok(Operand::Text(text_at(alloc, pool, *text)?)),
        _ => Ok(Operand::Unused),
    }
}

fn operand_if(
    alloc: Global,
    names: &ClassNames,
    pool: &[PoolEntry],
    entry: &PoolEntry,
    used: bool,
) -> Result<Operand, Memory>
    requires { length names.now < 2 ^ 32 }
    ensures { IfOk result (λ operand. operand ≡ (if used then operand_of names.now pool.now entry.now else Unused)) }
{
    if used {
        operand_of(alloc, names, pool, entry)
    } else {
        Ok(Operand::Unused)
    }
}

/// The operands of a class at their pool index, of which 0 is none. What no instruction names is left out.
pub(crate) fn operands_of(
    alloc: Global,
    names: &ClassNames,
    file: &ClassFile,
) -> Result<List<Operand>, Memory>
    requires { length names.now < 2 ^ 32 }
    ensures { IfOk result (λ operands. operands ≡ operands_of names.now file.now) }
{
    let used = used_entries(alloc, file)?;
    let pool = file.pool.as_slice();
    let mut operands = List::new(alloc);
    add(&mut operands, Operand::Unused)?;
    for (place, entry) in pool.iter().enumerate() {
        let is_used = used.has(place as u32 + 1);
        add(
            &mut operands,
            operand_if(alloc, names, pool, entry, is_used)?,
        )?;
    }
    Ok(operands)
}
