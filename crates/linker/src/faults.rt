//! Why classes make no program.
ghost use Rattle.std.specs.Prelude.{◌≡◌, ◌<◌, ◌^◌, length, position};
ghost use Rattle.std.specs.List.{list_any};
ghost use Rattle.linker.specs.LinkFaults.{has_code, is_of_instances, has_interface_body, is_static_init, has_static_init};
ghost use Rattle.program_faults.specs.SuperFaults.{interface_flag};

use class_pool::{ClassFile, FieldInfo, MethodInfo, utf8_at};
use jo_ids::ClassId;
use jo_insn::{ACC_STATIC, has_flag};
use program_faults::supers::ACC_INTERFACE;

fn some_code(methods: &[MethodInfo]) -> bool
    ensures { result ≡ list_any has_code methods.now }
{
    for method in methods {
        if method.code.is_some() {
            return true;
        }
    }
    false
}

fn some_of_instances(fields: &[FieldInfo]) -> bool
    ensures { result ≡ list_any is_of_instances fields.now }
{
    for field in fields {
        if !has_flag(ACC_STATIC, field.flags) {
            return true;
        }
    }
    false
}

fn has_interface_body(class: &ClassFile) -> bool
    ensures { result ≡ has_interface_body class.now }
{
    has_flag(ACC_INTERFACE, class.flags)
        && (some_code(class.methods.as_slice()) || some_of_instances(class.fields.as_slice()))
}

fn is_static_init(class: &ClassFile, method: &MethodInfo) -> bool
    ensures { result ≡ is_static_init class.now method.now }
{
    match utf8_at(class.pool.as_slice(), method.name) {
        Some(name) => name == b"<clinit>".as_slice(),
        None => false,
    }
}

fn has_static_init(class: &ClassFile) -> bool
    ensures { result ≡ has_static_init class.now }
{
    for method in class.methods.as_slice() {
        if is_static_init(class, method) {
            return true;
        }
    }
    false
}

/// The first interface that has a method with code or a field of its instances.
pub fn interface_body(classes: &[ClassFile]) -> Option<ClassId>
    requires few { length classes.now < 2 ^ 32 }
    ensures { result ≡ position has_interface_body classes.now }
{
    for (number, class) in classes.iter().enumerate() {
        if has_interface_body(class) {
            return Some(ClassId::of(number as u32));
        }
    }
    None
}

/// The first class with a class initializer.
pub fn static_init(classes: &[ClassFile]) -> Option<ClassId>
    requires few { length classes.now < 2 ^ 32 }
    ensures { result ≡ position has_static_init classes.now }
{
    for (number, class) in classes.iter().enumerate() {
        if has_static_init(class) {
            return Some(ClassId::of(number as u32));
        }
    }
    None
}
