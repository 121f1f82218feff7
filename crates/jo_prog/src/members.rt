//! The members of a class itself.
ghost use Rattle.std.specs.Prelude.{◌≡◌, Some, slice_get};
ghost use Rattle.std.specs.Option.{option_copied};
ghost use Rattle.jo_prog.specs.Program.{method_at};
ghost use Rattle.jo_prog.specs.Hierarchy.{first_field, is_field, is_static_method, own_method as own_method_of, own_field as own_field_of, own_instance_method as own_instance_method_of};

use crate::program::{Field, Program, class_at, first_with, method_at};
use jo_ids::{ClassId, FieldId, MethodId};
use jo_insn::{ACC_STATIC, has_flag};

/// The field with that number, if the program has it.
pub fn field_at(program: &Program, field: FieldId) -> Option<&Field>
    ensures { option_copied result ≡ slice_get program.now.fields field }
{
    program.fields.as_slice().get(field.number() as usize)
}

/// The first method of a class itself with that name and descriptor.
pub fn own_method(program: &Program, class: ClassId, name: &[u8], desc: &[u8]) -> Option<MethodId>
    ensures { result ≡ own_method_of program.now name.now desc.now class }
{
    let class = class_at(program, class)?;
    first_with(program, name, desc, class.methods.as_slice())
}

fn is_field(field: &Field, name: &[u8], desc: &[u8]) -> bool
    ensures { result ≡ is_field name.now desc.now (Some field.now) }
{
    field.name.as_slice() == name && field.desc.as_slice() == desc
}

fn first_field(program: &Program, name: &[u8], desc: &[u8], fields: &[FieldId]) -> Option<FieldId>
    ensures { result ≡ first_field program.now name.now desc.now fields.now }
{
    for f in fields {
        if let Some(field) = field_at(program, *f) {
            if is_field(field, name, desc) {
                return Some(*f);
            }
        }
    }
    None
}

/// The first field of a class itself with that name and descriptor.
pub fn own_field(program: &Program, class: ClassId, name: &[u8], desc: &[u8]) -> Option<FieldId>
    ensures { result ≡ own_field_of program.now name.now desc.now class }
{
    let class = class_at(program, class)?;
    first_field(program, name, desc, class.fields.as_slice())
}

fn is_static_method(program: &Program, method: MethodId) -> bool
    ensures { result ≡ is_static_method (method_at program.now method) }
{
    match method_at(program, method) {
        Some(method) => has_flag(ACC_STATIC, method.flags),
        None => false,
    }
}

/// The first method of a class itself with that name and descriptor, if it isn't static.
pub fn own_instance_method(
    program: &Program,
    class: ClassId,
    name: &[u8],
    desc: &[u8],
) -> Option<MethodId>
    ensures { result ≡ own_instance_method_of program.now name.now desc.now class }
{
    let method = own_method(program, class, name, desc)?;
    if is_static_method(program, method) {
        None
    } else {
        Some(method)
    }
}
