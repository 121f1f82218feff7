//! Superclasses and interfaces that can't stand where they do.
ghost use Rattle.std.specs.Prelude.{◌≡◌, ◌<◌, ◌^◌, ℕ, length, IfOk, IfErr};
ghost use Rattle.std.specs.List.{list_any};
ghost use Rattle.jo_prog.specs.Program.{class_at as class_with};
ghost use Rattle.hierarchy.specs.Hierarchies.{HasItsParents, IsHierarchyOf};
ghost use Rattle.program_faults.specs.FirstFaults.{IsFirstIfAny};
ghost use Rattle.program_faults.specs.SuperFaults.{is_interface as is_of_interface, is_some_interface, is_object, is_no_interface, misplaces_parent, HasMisplacedParent, IsCyclicSuper, IsSuperFault, earlier, earlier_fault};

use hierarchy::{Hierarchy, HierarchyFault};
use jo_ids::ClassId;
use jo_insn::has_flag;
use jo_prog::program::{Program, class_at};
use std::alloc::Global;

/// An interface, not a class (4.1).
pub const ACC_INTERFACE: u16 = 0x0200;

/// The number of java/lang/Object.
const OBJECT: u32 = 0;

/// Whether the class with that number is an interface.
pub(crate) fn is_interface(program: &Program, class: ClassId) -> bool
    ensures { result ≡ is_of_interface program.now class }
{
    match class_at(program, class) {
        Some(class) => has_flag(ACC_INTERFACE, class.flags),
        None => false,
    }
}

fn is_some_interface(program: &Program, class: Option<ClassId>) -> bool
    ensures { result ≡ is_some_interface program.now class }
{
    match class {
        Some(class) => is_interface(program, class),
        None => false,
    }
}

fn is_object(class: Option<ClassId>) -> bool
    ensures { result ≡ is_object class }
{
    match class {
        Some(class) => class.number() == OBJECT,
        None => false,
    }
}

/// Whether some of these is no interface.
fn some_class(program: &Program, interfaces: &[ClassId]) -> bool
    ensures { result ≡ list_any (is_no_interface program.now) interfaces.now }
{
    for interface in interfaces {
        if !is_interface(program, *interface) {
            return true;
        }
    }
    false
}

fn misplaces_parent(program: &Program, class: ClassId) -> bool
    ensures { result ≡ misplaces_parent program.now (class_with program.now class) }
{
    let Some(class) = class_at(program, class) else {
        return false;
    };
    is_some_interface(program, class.superclass)
        || some_class(program, class.interfaces.as_slice())
        || (has_flag(ACC_INTERFACE, class.flags) && !is_object(class.superclass))
}

fn misplaced_parent(program: &Program) -> Option<ClassId>
    requires short { length program.now.classes < 2 ^ 32 }
    ensures { IsFirstIfAny (HasMisplacedParent program.now) result }
{
    let count = program.classes.as_slice().len() as u32;
    for number in 0..count {
        let class = ClassId::of(number);
        if misplaces_parent(program, class) {
            return Some(class);
        }
    }
    None
}

fn earlier(class: ClassId, other: Option<ClassId>) -> ClassId
    ensures { result ≡ earlier class other }
{
    match other {
        Some(other) if other.number() < class.number() => other,
        _ => class,
    }
}

/// The fault of the earlier of two classes, of which the first has this fault.
fn earlier_fault(fault: &HierarchyFault, other: Option<ClassId>) -> HierarchyFault
    ensures { result ≡ earlier_fault fault.now other }
{
    match fault {
        HierarchyFault::Cyclic(class) => HierarchyFault::Cyclic(earlier(*class, other)),
        HierarchyFault::Memory => HierarchyFault::Memory,
    }
}

/// The hierarchy of a program, or the first class that is above itself, or has a superclass or an interface of the wrong kind.
pub fn cyclic_super(alloc: Global, program: &Program) -> Result<Hierarchy, HierarchyFault>
    requires short { length program.now.classes < 2 ^ 32 }
    requires there { HasItsParents program.now }
    ensures hierarchy { IfOk result (λ hierarchy. IsHierarchyOf program.now hierarchy) }
    ensures none { IfOk result (λ _. (c : ℕ) → IsCyclicSuper program.now c → ⊥) }
    ensures fault { IfErr result (λ fault. IsSuperFault program.now fault) }
{
    let misplaced = misplaced_parent(program);
    match Hierarchy::build(alloc, program) {
        Ok(hierarchy) => match misplaced {
            None => Ok(hierarchy),
            Some(class) => Err(HierarchyFault::Cyclic(class)),
        },
        Err(fault) => Err(earlier_fault(&fault, misplaced)),
    }
}
