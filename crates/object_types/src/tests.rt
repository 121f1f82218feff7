//! The types of the two sites that every program has.
use crate::types::type_of;
use jo_ids::{List, Memory, SiteId};
use jo_prog::program::{Program, TypeRef};
use jo_text::Base;
use std::alloc::Global;
use std::test::Fail;

/// The number of a class, or the count of an array's dimensions behind 1000; 0 for no type.
fn number_of(named: &Option<TypeRef>) -> u32 {
    match named {
        Some(TypeRef::Class(class)) => class.number(),
        Some(TypeRef::Array(desc)) => 1000 + u32::from(desc.dims),
        None => 0,
    }
}

fn is_of_strings(named: &Option<TypeRef>) -> bool {
    match named {
        Some(TypeRef::Array(desc)) => match &desc.base {
            Base::Class(name) => name.as_slice() == b"java/lang/String".as_slice(),
            _ => false,
        },
        _ => false,
    }
}

fn no_program(alloc: Global) -> Result<Program, Memory> {
    let program = Program::build(alloc, List::new(alloc), List::new(alloc), List::new(alloc))?;
    Ok(program)
}

#[test]
fn strings_and_the_array_of_them(rt: HostRuntime) -> Result<(), Fail> {
    let alloc = rt.alloc();
    let program = no_program(alloc)?;
    let text = type_of(alloc, &program, SiteId::of(0))?;
    assert_eq!(rt; number_of(&text), 1);
    let args = type_of(alloc, &program, SiteId::of(1))?;
    assert_eq!(rt; number_of(&args), 1001);
    assert!(rt; is_of_strings(&args));
    let none = type_of(alloc, &program, SiteId::of(2))?;
    assert_eq!(rt; number_of(&none), 0);
    Ok(())
}
