//! Subtypes among class and array types.
ghost use Rattle.std.specs.Prelude.{◌≡◌, ◌<◌, ◌^◌, length};
ghost use Rattle.jo_prog.specs.Types;
ghost use Rattle.hierarchy.specs.Hierarchies.{IsHierarchyOf};

use crate::Hierarchy;
use crate::class_names::class_with;
use jo_ids::ClassId;
use jo_prog::program::{Program, TypeRef};
use jo_text::{Base, FieldDesc};

fn letter_of(base: &Base) -> u8
    ensures { result ≡ Types.letter_of base.now }
{
    match base {
        Base::Byte => b'B',
        Base::Char => b'C',
        Base::Double => b'D',
        Base::Float => b'F',
        Base::Int => b'I',
        Base::Long => b'J',
        Base::Short => b'S',
        Base::Boolean => b'Z',
        Base::Class(_) => b'L',
    }
}

fn is_object(base: &Base) -> bool
    ensures { result ≡ Types.is_object base.now }
{
    match base {
        Base::Class(name) => name.as_slice() == b"java/lang/Object".as_slice(),
        _ => false,
    }
}

impl Hierarchy {
    /// The first class with that name.
    pub fn class_named(&self, program: &Program, name: &[u8]) -> Option<ClassId>
        requires { IsHierarchyOf program.now self.now }
        ensures { result ≡ Types.class_named program.now name.now }
    {
        class_with(&self.names, name)
    }

    fn is_subtype_of(&self, program: &Program, a: Option<ClassId>, b: Option<ClassId>) -> bool
        requires { IsHierarchyOf program.now self.now }
        ensures { result ≡ Types.is_subtype_of program.now a b }
    {
        match (a, b) {
            (Some(a), Some(b)) => self.subtype(program, a, b),
            _ => false,
        }
    }

    /// Whether one base is the same primitive type as the other, or a class below it.
    pub fn base_fits(&self, program: &Program, a: &Base, b: &Base) -> bool
        requires kept { IsHierarchyOf program.now self.now }
        requires short { length program.now.classes < 2 ^ 32 }
        ensures { result ≡ Types.base_fits program.now a.now b.now }
    {
        match (a, b) {
            (Base::Class(a), Base::Class(b)) => {
                let a = self.class_named(program, a.as_slice());
                let b = self.class_named(program, b.as_slice());
                self.is_subtype_of(program, a, b)
            }
            _ => letter_of(a) == letter_of(b),
        }
    }

    fn array_fits(&self, program: &Program, a: &FieldDesc, b: &FieldDesc) -> bool
        requires kept { IsHierarchyOf program.now self.now }
        requires short { length program.now.classes < 2 ^ 32 }
        ensures { result ≡ Types.array_fits program.now a.now b.now }
    {
        if a.dims == b.dims {
            self.base_fits(program, &a.base, &b.base)
        } else {
            b.dims < a.dims && is_object(&b.base)
        }
    }

    /// Whether a value of the first type is one of the second.
    pub fn type_fits(&self, program: &Program, a: &TypeRef, b: &TypeRef) -> bool
        requires kept { IsHierarchyOf program.now self.now }
        requires short { length program.now.classes < 2 ^ 32 }
        ensures { result ≡ Types.type_fits program.now a.now b.now }
    {
        match (a, b) {
            (TypeRef::Class(a), TypeRef::Class(b)) => self.subtype(program, *a, *b),
            (TypeRef::Class(_), TypeRef::Array(_)) => false,
            (TypeRef::Array(_), TypeRef::Class(b)) => b.number() == 0,
            (TypeRef::Array(a), TypeRef::Array(b)) => self.array_fits(program, a, b),
        }
    }
}
