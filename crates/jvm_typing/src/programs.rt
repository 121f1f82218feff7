//! What typing the methods of a program answers.
ghost use Rattle.std.specs.Prelude.{◌≡◌, ◌<◌, ◌^◌, length, IfOk, IfErr};
ghost use Rattle.hierarchy.specs.Hierarchies.{IsHierarchyOf};
ghost use Rattle.jo_prog.specs.declared.typed.TypeCode.TheVariants.{Memory};
ghost use Rattle.typing_effects.specs.ClassNames.{AreNamesOf};
ghost use Rattle.jvm_typing.specs.Typings.{AreTypings, IsFirstMethodFault};

use crate::typing_methods::type_named;
use hierarchy::Hierarchy;
use jo_ids::{Id, MethodId};
use jo_prog::program::Program;
use jo_prog::typed::{TypeCode, TypeFault, Typings};
use std::alloc::Global;
use typing_effects::class_names::{ClassNames, class_names};

/// The method with the least number that has a fault, and its first fault.
#[derive(Clone, Copy)]
pub struct MethodFault {
    pub method: MethodId,
    pub fault: TypeFault,
}

/// Where memory is wanting at that method.
fn wanting(method: MethodId) -> MethodFault
    ensures { result ≡ record { method = method; fault = record { code = Memory; pc = 0 } } }
{
    MethodFault {
        method,
        fault: TypeFault {
            code: TypeCode::Memory,
            pc: 0,
        },
    }
}

/// The same as `type_program`, with the names of the program's classes.
fn type_all(
    alloc: Global,
    program: &Program,
    hierarchy: &Hierarchy,
    names: &ClassNames,
) -> Result<Typings, MethodFault>
    requires kept { IsHierarchyOf program.now hierarchy.now }
    requires short { length program.now.classes < 2 ^ 32 }
    requires names { AreNamesOf program.now.classes names.now }
    requires few { length program.now.methods < 2 ^ 32 }
    ensures typed { IfOk result (λ typings. AreTypings program.now (length program.now.methods) typings) }
    ensures fault { IfErr result (λ fault. IsFirstMethodFault program.now fault) }
{
    let mut typings = Typings::new(alloc);
    for number in 0..program.methods() {
        let method = Id::of(number);
        match type_named(alloc, program, hierarchy, names, method) {
            Ok(typed) => match typings.push(typed) {
                Ok(_) => {}
                Err(_) => return Err(wanting(method)),
            },
            Err(fault) => return Err(MethodFault { method, fault }),
        }
    }
    Ok(typings)
}

/// What `type_method` answers for each method of the program, or the fault of the one with the least number that has one. No claim
/// where memory is wanting.
pub fn type_program(
    alloc: Global,
    program: &Program,
    hierarchy: &Hierarchy,
) -> Result<Typings, MethodFault>
    requires kept { IsHierarchyOf program.now hierarchy.now }
    requires short { length program.now.classes < 2 ^ 32 }
    requires few { length program.now.methods < 2 ^ 32 }
    ensures typed { IfOk result (λ typings. AreTypings program.now (length program.now.methods) typings) }
    ensures fault { IfErr result (λ fault. IsFirstMethodFault program.now fault) }
{
    match class_names(alloc, program.classes.as_slice()) {
        Ok(names) => type_all(alloc, program, hierarchy, &names),
        Err(_) => Err(wanting(Id::of(0))),
    }
}
