//! Copies of types.
ghost use Rattle.std.specs.Prelude.{◌≡◌, IfOk};
ghost use Rattle.jo_prog.specs.declared.program.TypeRef.TheVariants.{Array as AnArray};

use jo_ids::Memory;
use jo_prog::program::TypeRef;
use jo_text::{Base, FieldDesc, Name};
use std::alloc::Global;

pub(crate) fn copy_name(alloc: Global, name: &[u8]) -> Result<Name, Memory>
    ensures { IfOk result (λ copy. copy ≡ name.now) }
{
    let mut copy = Name::new(alloc);
    copy.append(name)?;
    Ok(copy)
}

fn copy_base(alloc: Global, base: &Base) -> Result<Base, Memory>
    ensures { IfOk result (λ copy. copy ≡ base.now) }
{
    match base {
        Base::Byte => Ok(Base::Byte),
        Base::Char => Ok(Base::Char),
        Base::Double => Ok(Base::Double),
        Base::Float => Ok(Base::Float),
        Base::Int => Ok(Base::Int),
        Base::Long => Ok(Base::Long),
        Base::Short => Ok(Base::Short),
        Base::Boolean => Ok(Base::Boolean),
        Base::Class(name) => {
            let name = copy_name(alloc, name.as_slice())?;
            Ok(Base::Class(name))
        }
    }
}

/// The same base under this many dimensions.
pub(crate) fn copy_under(alloc: Global, dims: u8, base: &Base) -> Result<TypeRef, Memory>
    ensures { IfOk result (λ copy. copy ≡ AnArray (record { dims = dims; base = base.now })) }
{
    let base = copy_base(alloc, base)?;
    Ok(TypeRef::Array(FieldDesc { dims, base }))
}

pub(crate) fn copy_type(alloc: Global, named: &TypeRef) -> Result<TypeRef, Memory>
    ensures { IfOk result (λ copy. copy ≡ named.now) }
{
    match named {
        TypeRef::Class(class) => Ok(TypeRef::Class(*class)),
        TypeRef::Array(desc) => copy_under(alloc, desc.dims, &desc.base),
    }
}
