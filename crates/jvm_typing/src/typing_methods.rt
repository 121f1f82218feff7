//! What typing a method answers.
ghost use Rattle.std.specs.Prelude.{◌≡◌, ◌↔◌, ◌<◌, ◌^◌, ℕ, Some, length, Contains, IfOk, IfErr};
ghost use Rattle.hierarchy.specs.Hierarchies.{IsHierarchyOf};
ghost use Rattle.jo_prog.specs.TypingPaths.{IsTypedMethod, IsTypeFaultOf, HasHeightAt};
ghost use Rattle.jvm_typing.specs.KindFaults.{IsFirstAnswer, IsTypeAnswer};
ghost use Rattle.typing_effects.specs.ClassNames.{AreNamesOf};
ghost use Rattle.typing_heights.specs.FirstPaths.{HasFirstPaths};
ghost use Rattle.typing_heights.specs.Searches.{height_at, AreHeights};
ghost use Rattle.typing_heights.specs.Subjects.{program_of, typable_of, IsSubject};

use crate::flows::kinds_in_order;
use crate::kind_faults::add_kind_faults;
use hierarchy::Hierarchy;
use jo_ids::{Memory, MethodId};
use jo_prog::program::{Program, method_at};
use jo_prog::typed::{TypeFault, Typed};
use std::alloc::Global;
use typing_effects::class_names::{ClassNames, class_names};
use typing_heights::faults::{first_of, height_faults};
use typing_heights::moves::moves_of;
use typing_heights::search::find_heights;
use typing_heights::subjects::Subject;

/// The first fault of the method, of heights or of kinds.
fn first_fault(
    alloc: Global,
    hierarchy: &Hierarchy,
    names: &ClassNames,
    subject: &Subject<'_>,
    heights: &[Option<u16>],
) -> Result<Option<TypeFault>, Memory>
    requires subject { IsSubject subject.now }
    requires kept { IsHierarchyOf (program_of subject.now) hierarchy.now }
    requires short { length (program_of subject.now).classes < 2 ^ 32 }
    requires names { AreNamesOf (program_of subject.now).classes names.now }
    requires heights { AreHeights (program_of subject.now) (typable_of subject.now) heights.now }
    ensures { IfOk result (λ first. IsFirstAnswer (program_of subject.now) subject.now.number first) }
{
    let moves = moves_of(alloc, subject, heights)?;
    let mut found = height_faults(alloc, subject, heights, moves.as_slice())?;
    let facts = kinds_in_order(alloc, hierarchy, names, subject, heights)?;
    add_kind_faults(
        alloc,
        hierarchy,
        names,
        subject,
        heights,
        facts.as_slice(),
        &mut found,
    )?;
    Ok(first_of(found.as_slice()))
}

fn typed_or_fault(
    alloc: Global,
    hierarchy: &Hierarchy,
    names: &ClassNames,
    subject: &Subject<'_>,
) -> Result<Result<Typed, TypeFault>, Memory>
    requires subject { IsSubject subject.now }
    requires kept { IsHierarchyOf (program_of subject.now) hierarchy.now }
    requires short { length (program_of subject.now).classes < 2 ^ 32 }
    requires names { AreNamesOf (program_of subject.now).classes names.now }
    ensures { IfOk result (λ answer. IsTypeAnswer (program_of subject.now) subject.now.number answer) }
{
    let heights = find_heights(alloc, subject)?;
    let first = first_fault(alloc, hierarchy, names, subject, heights.as_slice())?;
    match first {
        Some(fault) => Ok(Err(fault)),
        None => Ok(Ok(Typed::of(heights))),
    }
}

fn type_code(
    alloc: Global,
    program: &Program,
    hierarchy: &Hierarchy,
    names: &ClassNames,
    method: MethodId,
) -> Result<Result<Typed, TypeFault>, Memory>
    requires kept { IsHierarchyOf program.now hierarchy.now }
    requires short { length program.now.classes < 2 ^ 32 }
    requires names { AreNamesOf program.now.classes names.now }
    ensures { IfOk result (λ answer. IsTypeAnswer program.now method answer) }
{
    let Some(found) = method_at(program, method) else {
        return Ok(Ok(Typed::of(Vec::new(alloc))));
    };
    let Some(code) = &found.code else {
        return Ok(Ok(Typed::of(Vec::new(alloc))));
    };
    let subject = Subject {
        program,
        number: method,
        method: found,
        code,
    };
    let answer = typed_or_fault(alloc, hierarchy, names, &subject)?;
    Ok(answer)
}

/// The same as `type_method`, with the names of the program's classes.
pub(crate) fn type_named(
    alloc: Global,
    program: &Program,
    hierarchy: &Hierarchy,
    names: &ClassNames,
    method: MethodId,
) -> Result<Typed, TypeFault>
    requires kept { IsHierarchyOf program.now hierarchy.now }
    requires short { length program.now.classes < 2 ^ 32 }
    requires names { AreNamesOf program.now.classes names.now }
    ensures typed { IfOk result (λ typed. IsTypedMethod program.now method) }
    ensures first_paths { IfOk result (λ typed. HasFirstPaths program.now method) }
    ensures heights { IfOk result (λ typed. (pc h : ℕ) → (height_at typed pc ≡ Some h) ↔ HasHeightAt program.now method pc h) }
    ensures fault { IfErr result (λ fault. IsTypeFaultOf program.now method fault) }
{
    match type_code(alloc, program, hierarchy, names, method) {
        Ok(answer) => answer,
        Err(memory) => Err(TypeFault::from(memory)),
    }
}

/// The height at each pc that a typing path of the method reaches, that of the first one, and none elsewhere; a method without code
/// has none. The first fault where some typing path meets one: that at the least pc, and of those there the one with the least number.
pub fn type_method(
    alloc: Global,
    program: &Program,
    hierarchy: &Hierarchy,
    method: MethodId,
) -> Result<Typed, TypeFault>
    requires kept { IsHierarchyOf program.now hierarchy.now }
    requires short { length program.now.classes < 2 ^ 32 }
    ensures typed { IfOk result (λ typed. IsTypedMethod program.now method) }
    ensures first_paths { IfOk result (λ typed. HasFirstPaths program.now method) }
    ensures heights { IfOk result (λ typed. (pc h : ℕ) → (height_at typed pc ≡ Some h) ↔ HasHeightAt program.now method pc h) }
    ensures fault { IfErr result (λ fault. IsTypeFaultOf program.now method fault) }
{
    let names = match class_names(alloc, program.classes.as_slice()) {
        Ok(names) => names,
        Err(memory) => return Err(TypeFault::from(memory)),
    };
    type_named(alloc, program, hierarchy, &names, method)
}
