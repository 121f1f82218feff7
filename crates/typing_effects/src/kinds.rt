//! The kinds of values, and those of types.
ghost use Rattle.std.specs.Prelude.{◌≡◌, ◌<◌, ◌^◌, length, None, IfOk, IfSome, IsTrue, ◌↔◌, option_map};
ghost use Rattle.jo_prog.specs.Shapes;
ghost use Rattle.jo_prog.specs.Typing;
ghost use Rattle.typing_effects.specs.ClassNames.{AreNamesOf};
ghost use Rattle.typing_effects.specs.Kinds.{kind_in, change_in};

use crate::class_names::{ClassNames, class_named};
use jo_ids::Memory;
use jo_prog::program::{Program, TypeRef};
use jo_text::{Base, FieldDesc, Name};
use std::alloc::Global;

/// What a place holds.
#[derive(Drop)]
pub enum Kind {
    Int,
    Null,
    Ref(TypeRef),
    Unset,
}

/// What an instruction makes of the kind of a place.
#[derive(Clone, Copy)]
pub enum Change {
    Same,
    /// Its kind where it is a reference.
    Reference,
    /// That of the array's elements, where they are references.
    Element,
}

pub(crate) fn copy_name(alloc: Global, name: &Name) -> Result<Name, Memory>
    ensures { IfOk result (λ copy. copy ≡ name.now) }
{
    let mut copy = Name::new(alloc);
    copy.append(name.as_slice())?;
    Ok(copy)
}

pub(crate) fn copy_base(alloc: Global, base: &Base) -> Result<Base, Memory>
    ensures { IfOk result (λ copy. copy ≡ base.now) }
{
    match base {
        Base::Byte => Ok(Base::Byte),
        Base::Char => Ok(Base::Char),
        Base::Double => Ok(Base::Double),
        Base::Float => Ok(Base::Float),
        Base::Int => Ok(Base::Int),
        Base::Long => Ok(Base::Long),
        Base::Short => Ok(Base::Short),
        Base::Boolean => Ok(Base::Boolean),
        Base::Class(name) => {
            let name = copy_name(alloc, name)?;
            Ok(Base::Class(name))
        }
    }
}

fn copy_desc(alloc: Global, desc: &FieldDesc) -> Result<FieldDesc, Memory>
    ensures { IfOk result (λ copy. copy ≡ desc.now) }
{
    let base = copy_base(alloc, &desc.base)?;
    Ok(FieldDesc {
        dims: desc.dims,
        base,
    })
}

pub fn copy_type(alloc: Global, named: &TypeRef) -> Result<TypeRef, Memory>
    ensures { IfOk result (λ copy. copy ≡ named.now) }
{
    match named {
        TypeRef::Class(class) => Ok(TypeRef::Class(*class)),
        TypeRef::Array(desc) => {
            let desc = copy_desc(alloc, desc)?;
            Ok(TypeRef::Array(desc))
        }
    }
}

pub fn copy_kind(alloc: Global, kind: &Kind) -> Result<Kind, Memory>
    ensures { IfOk result (λ copy. copy ≡ kind.now) }
{
    match kind {
        Kind::Int => Ok(Kind::Int),
        Kind::Null => Ok(Kind::Null),
        Kind::Ref(named) => {
            let named = copy_type(alloc, named)?;
            Ok(Kind::Ref(named))
        }
        Kind::Unset => Ok(Kind::Unset),
    }
}

fn base_kind(program: &Program, names: &ClassNames, base: &Base) -> Kind
    requires { AreNamesOf program.now.classes names.now }
    ensures { kind_in result ≡ Shapes.base_kind program.now base.now }
{
    match base {
        Base::Byte => Kind::Int,
        Base::Char => Kind::Int,
        Base::Double => Kind::Unset,
        Base::Float => Kind::Unset,
        Base::Int => Kind::Int,
        Base::Long => Kind::Unset,
        Base::Short => Kind::Int,
        Base::Boolean => Kind::Int,
        Base::Class(name) => match class_named(program, names, name.as_slice()) {
            Some(class) => Kind::Ref(TypeRef::Class(class)),
            None => Kind::Unset,
        },
    }
}

/// The kind of a value of that type.
pub fn kind_of_type(
    alloc: Global,
    program: &Program,
    names: &ClassNames,
    desc: &FieldDesc,
) -> Result<Kind, Memory>
    requires { AreNamesOf program.now.classes names.now }
    ensures { IfOk result (λ kind. kind_in kind ≡ Shapes.kind_of_type program.now desc.now) }
{
    if desc.dims == 0 {
        return Ok(base_kind(program, names, &desc.base));
    }
    let desc = copy_desc(alloc, desc)?;
    Ok(Kind::Ref(TypeRef::Array(desc)))
}

/// Whether the elements of the array are references.
pub(crate) fn has_references(desc: &FieldDesc) -> bool
    ensures { result ≡ Shapes.has_references desc.now }
{
    let class = match &desc.base {
        Base::Class(_) => true,
        _ => false,
    };
    1 < desc.dims || class
}

fn element_of(
    alloc: Global,
    program: &Program,
    names: &ClassNames,
    desc: &FieldDesc,
) -> Result<Kind, Memory>
    requires { AreNamesOf program.now.classes names.now }
    ensures { IfOk result (λ kind. kind_in kind ≡ Shapes.element_kind program.now (Typing.Ref (TypeRef.Array desc.now))) }
{
    if !has_references(desc) {
        return Ok(Kind::Unset);
    }
    let base = copy_base(alloc, &desc.base)?;
    let element = FieldDesc {
        dims: desc.dims.saturating_sub(1),
        base,
    };
    let kind = kind_of_type(alloc, program, names, &element)?;
    Ok(kind)
}

fn element_kind(
    alloc: Global,
    program: &Program,
    names: &ClassNames,
    kind: &Kind,
) -> Result<Kind, Memory>
    requires { AreNamesOf program.now.classes names.now }
    ensures { IfOk result (λ element. kind_in element ≡ Shapes.element_kind program.now (kind_in kind.now)) }
{
    match kind {
        Kind::Int => Ok(Kind::Unset),
        Kind::Null => Ok(Kind::Null),
        Kind::Ref(TypeRef::Class(_)) => Ok(Kind::Unset),
        Kind::Ref(TypeRef::Array(desc)) => {
            let element = element_of(alloc, program, names, desc)?;
            Ok(element)
        }
        Kind::Unset => Ok(Kind::Unset),
    }
}

fn reference_kind(alloc: Global, kind: &Kind) -> Result<Kind, Memory>
    ensures { IfOk result (λ reference. kind_in reference ≡ Shapes.reference_kind (kind_in kind.now)) }
{
    match kind {
        Kind::Int => Ok(Kind::Unset),
        Kind::Null => Ok(Kind::Null),
        Kind::Ref(named) => {
            let named = copy_type(alloc, named)?;
            Ok(Kind::Ref(named))
        }
        Kind::Unset => Ok(Kind::Unset),
    }
}

/// What an instruction makes of that kind.
pub fn changed(
    alloc: Global,
    program: &Program,
    names: &ClassNames,
    change: Change,
    kind: &Kind,
) -> Result<Kind, Memory>
    requires { AreNamesOf program.now.classes names.now }
    ensures { IfOk result (λ made. kind_in made ≡ Shapes.changed program.now (change_in change) (kind_in kind.now)) }
{
    match change {
        Change::Same => {
            let kind = copy_kind(alloc, kind)?;
            Ok(kind)
        }
        Change::Reference => {
            let kind = reference_kind(alloc, kind)?;
            Ok(kind)
        }
        Change::Element => {
            let kind = element_kind(alloc, program, names, kind)?;
            Ok(kind)
        }
    }
}
