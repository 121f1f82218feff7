//! Copies of types.
ghost use Rattle.std.specs.Prelude.{◌≡◌, IfOk};

use jo_ids::Memory;
use jo_prog::program::TypeRef;
use jo_text::{Base, FieldDesc, Name};
use std::alloc::Global;

/// The same name with memory of its own.
pub fn copy_name(alloc: Global, name: &Name) -> Result<Name, Memory>
    ensures { IfOk result (λ copy. copy ≡ name.now) }
{
    let mut copy = Name::new(alloc);
    copy.append(name.as_slice())?;
    Ok(copy)
}

fn copy_base(alloc: Global, base: &Base) -> Result<Base, Memory>
    ensures { IfOk result (λ copy. copy ≡ base.now) }
{
    match base {
        Base::Byte => Ok(Base::Byte),
        Base::Char => Ok(Base::Char),
        Base::Double => Ok(Base::Double),
        Base::Float => Ok(Base::Float),
        Base::Int => Ok(Base::Int),
        Base::Long => Ok(Base::Long),
        Base::Short => Ok(Base::Short),
        Base::Boolean => Ok(Base::Boolean),
        Base::Class(name) => {
            let name = copy_name(alloc, name)?;
            Ok(Base::Class(name))
        }
    }
}

/// The same type with memory of its own.
pub fn copy_desc(alloc: Global, desc: &FieldDesc) -> Result<FieldDesc, Memory>
    ensures { IfOk result (λ copy. copy ≡ desc.now) }
{
    let base = copy_base(alloc, &desc.base)?;
    Ok(FieldDesc {
        dims: desc.dims,
        base,
    })
}

/// The same type with memory of its own.
pub fn copy_type(alloc: Global, named: &TypeRef) -> Result<TypeRef, Memory>
    ensures { IfOk result (λ copy. copy ≡ named.now) }
{
    match named {
        TypeRef::Class(class) => Ok(TypeRef::Class(*class)),
        TypeRef::Array(desc) => {
            let desc = copy_desc(alloc, desc)?;
            Ok(TypeRef::Array(desc))
        }
    }
}
