//! Makes the program of class files.
#![tactic(auto)]

pub mod causes;
pub mod faults;
pub mod laws;
pub mod names;
pub mod needs;
mod operands;
mod programs;
#[cfg(test)]
mod tests;
mod texts;
mod used;

ghost use Rattle.std.specs.Prelude.{◌≡◌, ℕ, ◌<◌, ◌^◌, length, IfOk, IfErr, OnOk};
ghost use Rattle.hierarchy.specs.Hierarchies.{HasItsParents, IsHierarchyOf};
ghost use Rattle.hierarchy.specs.Resolutions.{AreResolutionsOf};
ghost use Rattle.program_faults.specs.SuperFaults.{IsCyclicSuper};
ghost use Rattle.program_faults.specs.MemberFaults.{LacksMember};
ghost use Rattle.jo_prog.specs.Program.{HasNumbers};
ghost use Rattle.linker.specs.Linking.{program_among, linked_classes, program_of};
ghost use Rattle.linker.specs.LinkFaults.{class_names, IsTwiceDefined};
ghost use Rattle.linker.specs.LinkOrder.{HasNoneBefore, HasNoFault, HasNoProgramFault, IsToldOf, IsProgramAnswer, IsNamed, IsLinkFault, IsLinkAnswer};
ghost use Rattle.linker.specs.declared.causes.LinkFault.{LinkFault};

use crate::causes::LinkCause;
use crate::faults::{interface_body, static_init};
use crate::names::{ClassNames, TwiceDefined, name_of, names_of};
use crate::needs::missing_class;
use crate::programs::program_among;
use crate::texts::named;
pub use causes::{LinkCode, LinkFault};
use class_pool::ClassFile;
use hierarchy::resolutions::Resolutions;
use hierarchy::{Hierarchy, HierarchyFault};
use jo_ids::{ClassId, List, Memory};
use jo_prog::lists::add;
use jo_prog::program::Program;
use jo_text::Name;
use program_faults::bodies::not_implemented;
use program_faults::member_faults::missing_member;
use program_faults::supers::cyclic_super;
use std::alloc::{AllocError, Global};

/// The prelude's classes, and then those of the files.
fn linked_classes(alloc: Global, files: Vec<ClassFile>) -> Result<List<ClassFile>, Memory>
    ensures { IfOk result (λ classes. classes ≡ linked_classes files.items) }
{
    let mut classes = prelude::classes(alloc)?;
    for file in files {
        add(&mut classes, file)?;
    }
    Ok(classes)
}

fn no_memory() -> LinkCause
    ensures { result.code ≡ LinkCode.Memory }
{
    LinkCause {
        code: LinkCode::Memory,
        class: ClassId::of(0),
    }
}

/// Whether each class is there that one of them needs.
fn check_needs(alloc: Global, names: &ClassNames, classes: &[ClassFile]) -> Result<(), LinkCause>
    requires few { length classes.now < 2 ^ 32 }
    requires names { names.now ≡ class_names classes.now }
    requires once { (k : ℕ) → IsTwiceDefined names.now k → ⊥ }
    ensures none { OnOk result (HasNoneBefore classes.now 3) }
    ensures fault { IfErr result (λ cause. IsToldOf classes.now cause.code cause.class) }
{
    match missing_class(alloc, names, classes) {
        Ok(None) => Ok(()),
        Ok(Some(class)) => Err(LinkCause {
            code: LinkCode::MissingClass,
            class,
        }),
        Err(_) => Err(no_memory()),
    }
}

/// Whether each call of a program finds a body, and each object can have its class.
fn check_calls(
    alloc: Global,
    program: &Program,
    hierarchy: &Hierarchy,
    resolutions: &Resolutions,
) -> Result<(), LinkCause>
    requires short { length program.now.classes < 2 ^ 32 }
    requires kept { IsHierarchyOf program.now hierarchy.now }
    requires resolved { AreResolutionsOf program.now resolutions.now }
    requires supers { (c : ℕ) → IsCyclicSuper program.now c → ⊥ }
    requires members { (c : ℕ) → LacksMember program.now c → ⊥ }
    ensures none { OnOk result (HasNoProgramFault program.now) }
    ensures fault { IfErr result (λ cause. IsProgramAnswer program.now cause.code cause.class) }
{
    match not_implemented(alloc, program, hierarchy, resolutions) {
        Ok(None) => Ok(()),
        Ok(Some(class)) => Err(LinkCause {
            code: LinkCode::NotImplemented,
            class,
        }),
        Err(_) => Err(no_memory()),
    }
}

/// Whether instructions take what is there.
fn check_members(alloc: Global, program: &Program, hierarchy: &Hierarchy) -> Result<(), LinkCause>
    requires short { length program.now.classes < 2 ^ 32 }
    requires kept { IsHierarchyOf program.now hierarchy.now }
    requires supers { (c : ℕ) → IsCyclicSuper program.now c → ⊥ }
    ensures none { OnOk result (HasNoProgramFault program.now) }
    ensures fault { IfErr result (λ cause. IsProgramAnswer program.now cause.code cause.class) }
{
    let Ok(resolutions) = Resolutions::build(alloc, program, hierarchy) else {
        return Err(no_memory());
    };
    match missing_member(alloc, program, &resolutions) {
        Ok(None) => check_calls(alloc, program, hierarchy, &resolutions),
        Ok(Some(class)) => Err(LinkCause {
            code: LinkCode::MissingMember,
            class,
        }),
        Err(_) => Err(no_memory()),
    }
}

/// Whether classes of a program stand where they may, and take what is there.
fn check_program(alloc: Global, program: &Program) -> Result<(), LinkCause>
    requires short { length program.now.classes < 2 ^ 32 }
    requires there { HasItsParents program.now }
    ensures none { OnOk result (HasNoProgramFault program.now) }
    ensures fault { IfErr result (λ cause. IsProgramAnswer program.now cause.code cause.class) }
{
    let built = cyclic_super(alloc, program);
    match &built {
        Ok(hierarchy) => check_members(alloc, program, hierarchy),
        Err(HierarchyFault::Cyclic(class)) => Err(LinkCause {
            code: LinkCode::CyclicSuper,
            class: *class,
        }),
        Err(HierarchyFault::Memory) => Err(no_memory()),
    }
}

/// Whether the classes have neither bodies of interfaces nor class initializers.
fn check_bodies(classes: &[ClassFile]) -> Result<(), LinkCause>
    requires few { length classes.now < 2 ^ 32 }
    requires none { HasNoneBefore classes.now 6 }
    ensures none { OnOk result (HasNoFault classes.now) }
    ensures fault { IfErr result (λ cause. IsToldOf classes.now cause.code cause.class) }
{
    match interface_body(classes) {
        None => (),
        Some(class) => {
            return Err(LinkCause {
                code: LinkCode::InterfaceBody,
                class,
            });
        }
    }
    match static_init(classes) {
        None => Ok(()),
        Some(class) => Err(LinkCause {
            code: LinkCode::StaticInit,
            class,
        }),
    }
}

/// The program of these classes, of which each has another name.
fn checked_program(
    alloc: Global,
    names: &ClassNames,
    classes: &[ClassFile],
) -> Result<Program, LinkCause>
    requires few { length classes.now < 2 ^ 32 }
    requires names { names.now ≡ class_names classes.now }
    requires once { (k : ℕ) → IsTwiceDefined names.now k → ⊥ }
    ensures program { IfOk result (λ program. program ≡ program_among classes.now) }
    ensures numbers { IfOk result HasNumbers }
    ensures none { IfOk result (λ _. HasNoFault classes.now) }
    ensures fault { IfErr result (λ cause. IsToldOf classes.now cause.code cause.class) }
{
    match check_needs(alloc, names, classes) {
        Ok(()) => (),
        Err(cause) => return Err(cause),
    }
    let Ok(program) = program_among(alloc, names, classes) else {
        return Err(no_memory());
    };
    match check_program(alloc, &program) {
        Ok(()) => (),
        Err(cause) => return Err(cause),
    }
    match check_bodies(classes) {
        Ok(()) => Ok(program),
        Err(cause) => Err(cause),
    }
}

/// The program of these classes.
fn whole_program(alloc: Global, classes: &[ClassFile]) -> Result<Program, LinkCause>
    requires { length classes.now < 2 ^ 32 }
    ensures program { IfOk result (λ program. program ≡ program_among classes.now) }
    ensures numbers { IfOk result HasNumbers }
    ensures none { IfOk result (λ _. HasNoFault classes.now) }
    ensures fault { IfErr result (λ cause. IsToldOf classes.now cause.code cause.class) }
{
    let named = names_of(alloc, classes);
    match &named {
        Ok(names) => checked_program(alloc, names, classes),
        Err(TwiceDefined::Of(class)) => Err(LinkCause {
            code: LinkCode::TwiceDefined,
            class: *class,
        }),
        Err(TwiceDefined::Memory) => Err(no_memory()),
    }
}

fn nameless(alloc: Global) -> LinkFault
    ensures { result.code ≡ LinkCode.Memory }
{
    LinkFault {
        code: LinkCode::Memory,
        class: ClassId::of(0),
        name: Name::new(alloc),
    }
}

/// The fault with the name of its class.
fn with_name(alloc: Global, classes: &[ClassFile], cause: LinkCause) -> LinkFault
    ensures { IsNamed classes.now cause.code cause.class result }
{
    let Some(class) = classes.get(cause.class.number() as usize) else {
        return nameless(alloc);
    };
    match named(alloc, name_of(class)) {
        Ok(name) => LinkFault {
            code: cause.code,
            class: cause.class,
            name,
        },
        Err(_) => nameless(alloc),
    }
}

/// The program of the files' classes, behind those of the prelude. The files are given up in either case. Where there are 2^32
/// classes, fields, methods or sites or more, memory is said to be wanting.
pub fn link(alloc: Global, files: Vec<ClassFile>) -> Result<Program, LinkFault>
    ensures program { IfOk result (λ program. program ≡ program_of files.items) }
    ensures numbers { IfOk result HasNumbers }
    ensures whole { IfOk result (λ _. HasNoFault (linked_classes files.items)) }
    ensures none { IfOk result (λ _. (fault : LinkFault) → IsLinkFault files.items fault → ⊥) }
    ensures fault { IfErr result (IsLinkAnswer files.items) }
{
    let Ok(classes) = linked_classes(alloc, files) else {
        return Err(nameless(alloc));
    };
    let classes = classes.as_slice();
    if classes.len() > u32::MAX as usize {
        return Err(nameless(alloc));
    }
    match whole_program(alloc, classes) {
        Ok(program) => Ok(program),
        Err(cause) => Err(with_name(alloc, classes, cause)),
    }
}
