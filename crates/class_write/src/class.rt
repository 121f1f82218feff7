//! Writes a whole class file (JVM Specification SE 8, 4.1).
ghost use Rattle.std.specs.Prelude.{◌≡◌, ◌<◌, ◌^◌, ◌++◌, length, OnOk, IfOk};
ghost use Rattle.std.specs.List.{flat_map};
ghost use Rattle.class_pool.specs.ClassGrammar.{u2, u4};
ghost use Rattle.class_pool.specs.Writing.{spelled_pool};
ghost use Rattle.class_pool.specs.Fitting.{FitsClass};
ghost use Rattle.class_write.specs.Spelling.{spelled_class, spelled_field, spelled_method, counted};

use crate::members::{add_members, attribute_names};
use crate::numbers::{add_four, add_two};
use class_pool::{ClassFile, write_pool};
use jo_ids::Memory;
use std::alloc::Global;

const MAGIC: u32 = 0xcafebabe;

/// The bytes up to the pool's end.
fn add_front(class: &ClassFile, out: &mut Vec<u8>) -> Result<(), Memory>
    requires { FitsClass class.now }
    ensures { OnOk result (out.new.items ≡ out.old.items ++ (u4 0xcafebabe ++ u2 class.now.minor ++ u2 class.now.major ++ spelled_pool class.now.pool)) }
{
    add_four(MAGIC, out)?;
    add_two(class.minor, out)?;
    add_two(class.major, out)?;
    write_pool(&class.pool, out)
}

/// The indices of the interfaces, with their count.
fn add_interfaces(interfaces: &[u16], out: &mut Vec<u8>) -> Result<(), Memory>
    requires { length interfaces.now < 2 ^ 16 }
    ensures { OnOk result (out.new.items ≡ out.old.items ++ counted u2 interfaces.now) }
{
    add_two(interfaces.len() as u16, out)?;
    for interface in interfaces {
        add_two(*interface, out)?;
    }
    Ok(())
}

/// The fields and the methods, with their counts. The pool is searched once for all of them.
fn add_members_of(class: &ClassFile, out: &mut Vec<u8>) -> Result<(), Memory>
    requires { FitsClass class.now }
    ensures { OnOk result (out.new.items ≡ out.old.items ++ (counted (spelled_field class.now.pool) class.now.fields ++ counted (spelled_method class.now.pool) class.now.methods)) }
{
    let names = attribute_names(class.pool.as_slice());
    add_members(
        names,
        class.fields.as_slice(),
        class.methods.as_slice(),
        out,
    )
}

/// The bytes behind the pool.
fn add_behind(class: &ClassFile, out: &mut Vec<u8>) -> Result<(), Memory>
    requires { FitsClass class.now }
    ensures { OnOk result (out.new.items ≡ out.old.items ++ (u2 class.now.flags ++ u2 class.now.this_class ++ u2 class.now.super_class
        ++ counted u2 class.now.interfaces ++ counted (spelled_field class.now.pool) class.now.fields ++ counted (spelled_method class.now.pool) class.now.methods ++ u2 0)) }
{
    add_two(class.flags, out)?;
    add_two(class.this_class, out)?;
    add_two(class.super_class, out)?;
    add_interfaces(class.interfaces.as_slice(), out)?;
    add_members_of(class, out)?;
    add_two(0, out)
}

/// The canonical spelling of the class: no attribute but ConstantValue and Code, and each attribute's name by the first
/// entry of the pool that spells it.
pub fn write_class(alloc: Global, class: &ClassFile) -> Result<Vec<u8>, Memory>
    requires { FitsClass class.now }
    ensures { IfOk result (λ bytes. bytes.items ≡ spelled_class class.now) }
{
    let mut out = Vec::new(alloc);
    add_front(class, &mut out)?;
    add_behind(class, &mut out)?;
    Ok(out)
}
