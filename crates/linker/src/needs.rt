//! Whether the classes are there that a class needs.
ghost use Rattle.std.specs.Prelude.{◌≡◌, ◌+◌, ◌<◌, ◌≤◌, ◌^◌, length, position, IfOk, IfSome};
ghost use Rattle.std.specs.List.{list_all};
ghost use Rattle.std.specs.Option.{option_copied};
ghost use Rattle.linker.specs.LinkFaults.{is_known};
ghost use Rattle.linker.specs.NeededClasses.{begun_behind as begun_next, ends_well as ends_so, names_there, is_desc_there as desc_there, is_type_there as type_there, is_member_there as member_there, is_entry_there as entry_there, are_used_there as used_there, is_caught_there, is_method_there as method_there, is_interface_there, has_parts, lacks_class};

use crate::names::ClassNames;
use crate::used::used_entries;
use class_pool::{ClassFile, MethodInfo, PoolEntry, RowInfo, class_name_at, desc_at, utf8_at};
use jo_ids::{ClassId, Memory};
use std::alloc::{AllocError, Global};

/// Where the name begins that hasn't ended behind this byte.
fn begun_behind(begun: Option<usize>, place: usize, byte: u8) -> Option<usize>
    requires below { place < 2 ^ 63 }
    requires start { IfSome begun (λ start. start ≤ place) }
    ensures value { result ≡ begun_next begun place byte }
    ensures start { IfSome result (λ start. start ≤ place + 1) }
{
    match begun {
        None if byte == b'L' => Some(place + 1),
        None => None,
        Some(_) if byte == b';' => None,
        Some(start) => Some(start),
    }
}

/// Whether a class has the name that this byte of the descriptor ends, where it ends one.
fn ends_well(names: &ClassNames, desc: &[u8], begun: Option<usize>, place: usize, byte: u8) -> bool
    requires within { place < length desc.now }
    requires start { IfSome begun (λ start. start ≤ place) }
    ensures { result ≡ ends_so (is_known names.now) desc.now begun place byte }
{
    match begun {
        Some(start) if byte == b';' => names.has(&desc[start..place]),
        _ => true,
    }
}

/// Whether each class is there that a descriptor names.
fn are_names_there(names: &ClassNames, desc: &[u8]) -> bool
    ensures { result ≡ names_there (is_known names.now) desc.now }
{
    let mut begun = None;
    for (place, byte) in desc.iter().enumerate() {
        if !ends_well(names, desc, begun, place, *byte) {
            return false;
        }
        begun = begun_behind(begun, place, *byte);
    }
    true
}

fn is_desc_there(names: &ClassNames, desc: Option<&[u8]>) -> bool
    ensures { result ≡ desc_there (is_known names.now) (option_copied desc.entry) }
{
    match desc {
        Some(desc) => are_names_there(names, desc),
        None => true,
    }
}

/// Whether a class is there, or that of an array's elements.
fn is_type_there(names: &ClassNames, name: Option<&[u8]>) -> bool
    ensures { result ≡ type_there (is_known names.now) (option_copied name.entry) }
{
    match name {
        Some(name) => {
            if !name.is_empty() && name[0] == b'[' {
                are_names_there(names, name)
            } else {
                names.has(name)
            }
        }
        None => true,
    }
}

fn is_member_there(names: &ClassNames, pool: &[PoolEntry], class: u16, kind: u16) -> bool
    ensures { result ≡ member_there (is_known names.now) pool.now class kind }
{
    is_type_there(names, class_name_at(pool, class)) && is_desc_there(names, desc_at(pool, kind))
}

fn is_entry_there(names: &ClassNames, pool: &[PoolEntry], entry: &PoolEntry) -> bool
    ensures { result ≡ entry_there (is_known names.now) pool.now entry.now }
{
    match entry {
        PoolEntry::Class(name) => is_type_there(names, utf8_at(pool, *name)),
        PoolEntry::FieldRef(class, kind) => is_member_there(names, pool, *class, *kind),
        PoolEntry::MethodRef(class, kind) => is_member_there(names, pool, *class, *kind),
        PoolEntry::InterfaceMethodRef(class, kind) => is_member_there(names, pool, *class, *kind),
        _ => true,
    }
}

/// Whether what the instructions of a class name is there. Each entry is looked at once.
fn are_used_there(alloc: Global, names: &ClassNames, class: &ClassFile) -> Result<bool, Memory>
    ensures { IfOk result (λ there. there ≡ used_there (is_known names.now) class.now 1 class.now.pool) }
{
    let used = used_entries(alloc, class)?;
    let pool = class.pool.as_slice();
    for (place, entry) in pool.iter().enumerate() {
        let is_used = used.has(place as u32 + 1);
        if is_used && !is_entry_there(names, pool, entry) {
            return Ok(false);
        }
    }
    Ok(true)
}

fn are_caught_there(names: &ClassNames, pool: &[PoolEntry], rows: &[RowInfo]) -> bool
    ensures { result ≡ list_all (is_caught_there (is_known names.now) pool.now) rows.now }
{
    for row in rows {
        if !is_type_there(names, class_name_at(pool, row.catch_type)) {
            return false;
        }
    }
    true
}

fn is_method_there(names: &ClassNames, pool: &[PoolEntry], method: &MethodInfo) -> bool
    ensures { result ≡ method_there (is_known names.now) pool.now method.now }
{
    match &method.code {
        Some(code) => {
            is_desc_there(names, utf8_at(pool, method.desc))
                && are_caught_there(names, pool, code.rows.as_slice())
        }
        None => true,
    }
}

fn are_methods_there(names: &ClassNames, pool: &[PoolEntry], methods: &[MethodInfo]) -> bool
    ensures { result ≡ list_all (method_there (is_known names.now) pool.now) methods.now }
{
    for method in methods {
        if !is_method_there(names, pool, method) {
            return false;
        }
    }
    true
}

fn are_interfaces_there(names: &ClassNames, pool: &[PoolEntry], interfaces: &[u16]) -> bool
    ensures { result ≡ list_all (is_interface_there (is_known names.now) pool.now) interfaces.now }
{
    for index in interfaces {
        if !is_type_there(names, class_name_at(pool, *index)) {
            return false;
        }
    }
    true
}

/// Whether what a class names but by its instructions is there.
fn has_parts(names: &ClassNames, class: &ClassFile) -> bool
    ensures { result ≡ has_parts (is_known names.now) class.now }
{
    let pool = class.pool.as_slice();
    is_type_there(names, class_name_at(pool, class.super_class))
        && are_interfaces_there(names, pool, class.interfaces.as_slice())
        && are_methods_there(names, pool, class.methods.as_slice())
}

fn lacks_class(alloc: Global, names: &ClassNames, class: &ClassFile) -> Result<bool, Memory>
    ensures { IfOk result (λ lacks. lacks ≡ lacks_class names.now class.now) }
{
    if !has_parts(names, class) {
        return Ok(true);
    }
    let there = are_used_there(alloc, names, class)?;
    Ok(!there)
}

/// The first class that names one, where it runs, that isn't among the names.
pub fn missing_class(
    alloc: Global,
    names: &ClassNames,
    classes: &[ClassFile],
) -> Result<Option<ClassId>, Memory>
    requires few { length classes.now < 2 ^ 32 }
    ensures { IfOk result (λ first. first ≡ position (lacks_class names.now) classes.now) }
{
    for (number, class) in classes.iter().enumerate() {
        let lacks = lacks_class(alloc, names, class)?;
        if lacks {
            return Ok(Some(ClassId::of(number as u32)));
        }
    }
    Ok(None)
}
