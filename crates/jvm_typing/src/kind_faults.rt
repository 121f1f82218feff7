//! The faults that the kinds of places tell.
ghost use Rattle.std.specs.Prelude.{◌≡◌, ◌↔◌, ◌<◌, ◌^◌, ◌==◌, ◌||◌, ◌&&◌, not, false, length, map, Contains, IfOk, OnOk, slice_get};
ghost use Rattle.std.specs.List.{list_any};
ghost use Rattle.std.specs.Option.{option_copied};
ghost use Rattle.hierarchy.specs.Hierarchies.{IsHierarchyOf};
ghost use Rattle.jo_prog.specs.declared.typed.TypeFault.{TypeFault};
ghost use Rattle.jo_prog.specs.TypingPaths;
ghost use Rattle.typing_heights.specs.Adds.{Adds, From, FromBelow};
ghost use Rattle.typing_effects.specs.ClassNames.{AreNamesOf};
ghost use Rattle.typing_effects.specs.Effects.{need_in, reads_in, effect_in};
ghost use Rattle.jvm_typing.specs.KindFaults.{read_fails, pop_fails, place_fails, kind_fault, is_wrong, FailsBy, WrongAt, IsKindFault, IsAskedAt};
ghost use Rattle.typing_effects.specs.Kinds.{kind_in};
ghost use Rattle.typing_heights.specs.Subjects.{program_of, typable_of, IsSubject};

use crate::facts::Fact;
use hierarchy::Hierarchy;
use jo_ids::{Id, Memory};
use jo_prog::program::{Program, Row, TypeRef};
use jo_prog::typed::{TypeCode, TypeFault};
use std::alloc::{AllocError, Global};
use typing_effects::asks::passes;
use typing_effects::class_names::ClassNames;
use typing_effects::effects::{Access, Effect, Need, effect_at};
use typing_effects::forms::Ask;
use typing_effects::kinds::Kind;
use typing_heights::search::known_height;
use typing_heights::spots::covers;
use typing_heights::subjects::Subject;

fn read_fails(
    program: &Program,
    hierarchy: &Hierarchy,
    reads: Access,
    place: usize,
    kind: &Kind,
) -> bool
    requires kept { IsHierarchyOf program.now hierarchy.now }
    requires short { length program.now.classes < 2 ^ 32 }
    ensures { result ≡ read_fails program.now (reads_in reads) place (kind_in kind.now) }
{
    match reads {
        Access::Nothing => false,
        Access::Int(k) => {
            let passes = passes(program, hierarchy, &Need::Of(Ask::AnInt), kind);
            usize::from(k) == place && !passes
        }
        Access::Reference(k) => {
            let passes = passes(program, hierarchy, &Need::Of(Ask::AReference), kind);
            usize::from(k) == place && !passes
        }
    }
}

fn need_at(needs: &[Need], place: usize) -> Option<&Need>
    ensures { option_copied result ≡ slice_get needs.now place }
{
    needs.get(place)
}

fn pop_fails(
    program: &Program,
    hierarchy: &Hierarchy,
    needs: &[Need],
    place: usize,
    kind: &Kind,
) -> bool
    requires kept { IsHierarchyOf program.now hierarchy.now }
    requires short { length program.now.classes < 2 ^ 32 }
    ensures { result ≡ pop_fails program.now (slice_get (map need_in needs.now) place) (kind_in kind.now) }
{
    match need_at(needs, place) {
        Some(need) => !passes(program, hierarchy, need, kind),
        None => false,
    }
}

/// Whether the place hasn't what the instruction asks it for.
fn place_fails(
    program: &Program,
    hierarchy: &Hierarchy,
    effect: &Effect,
    locals: u16,
    place: usize,
    kind: &Kind,
) -> bool
    requires kept { IsHierarchyOf program.now hierarchy.now }
    requires short { length program.now.classes < 2 ^ 32 }
    ensures { result ≡ place_fails program.now locals (effect_in effect.now) place (kind_in kind.now) }
{
    let locals = usize::from(locals);
    if place < locals {
        read_fails(program, hierarchy, effect.reads, place, kind)
    } else {
        pop_fails(
            program,
            hierarchy,
            effect.pops.as_slice(),
            place - locals,
            kind,
        )
    }
}

fn add_fault(found: &mut Vec<TypeFault>, pc: u32) -> Result<(), Memory>
    ensures { OnOk result (Adds (Contains found.old.items) (Contains found.new.items) (λ (f : TypeFault). f ≡ kind_fault pc)) }
{
    found.push(TypeFault {
        code: TypeCode::WrongKind,
        pc,
    })?;
    Ok(())
}

/// What the instruction at a pc asks.
#[derive(Drop)]
struct Asked {
    pc: u32,
    effect: Effect,
}

fn asked_at(
    alloc: Global,
    hierarchy: &Hierarchy,
    names: &ClassNames,
    subject: &Subject<'_>,
    pc: u32,
) -> Result<Asked, Memory>
    requires subject { IsSubject subject.now }
    requires kept { IsHierarchyOf (program_of subject.now) hierarchy.now }
    requires names { AreNamesOf (program_of subject.now).classes names.now }
    ensures { IfOk result (λ asked. IsAskedAt (program_of subject.now) (typable_of subject.now) pc asked) }
{
    let effect = effect_at(alloc, hierarchy, names, subject, pc)?;
    Ok(Asked { pc, effect })
}

/// The same for another pc, read only where it is another.
fn turn_to(
    alloc: Global,
    hierarchy: &Hierarchy,
    names: &ClassNames,
    subject: &Subject<'_>,
    asked: Asked,
    pc: u32,
) -> Result<Asked, Memory>
    requires subject { IsSubject subject.now }
    requires kept { IsHierarchyOf (program_of subject.now) hierarchy.now }
    requires names { AreNamesOf (program_of subject.now).classes names.now }
    requires asked { IsAskedAt (program_of subject.now) (typable_of subject.now) asked.pc asked }
    ensures { IfOk result (λ now. IsAskedAt (program_of subject.now) (typable_of subject.now) pc now) }
{
    if asked.pc == pc {
        return Ok(asked);
    }
    let now = asked_at(alloc, hierarchy, names, subject, pc)?;
    Ok(now)
}

fn add_failing(
    hierarchy: &Hierarchy,
    subject: &Subject<'_>,
    found: &mut Vec<TypeFault>,
    asked: &Asked,
    fact: &Fact,
) -> Result<(), Memory>
    requires kept { IsHierarchyOf (program_of subject.now) hierarchy.now }
    requires short { length (program_of subject.now).classes < 2 ^ 32 }
    requires asked { IsAskedAt (program_of subject.now) (typable_of subject.now) fact.now.pc asked.now }
    ensures { OnOk result (Adds (Contains found.old.items) (Contains found.new.items) (FailsBy (program_of subject.now) (typable_of subject.now) fact.now)) }
{
    let locals = subject.code.max_locals;
    if !place_fails(
        subject.program,
        hierarchy,
        &asked.effect,
        locals,
        fact.place,
        &fact.kind,
    ) {
        return Ok(());
    }
    add_fault(found, fact.pc)?;
    Ok(())
}

/// Whether the row covers the pc and catches what is no Throwable.
fn catches_wrong(program: &Program, hierarchy: &Hierarchy, pc: u32, row: &Row) -> bool
    requires kept { IsHierarchyOf program.now hierarchy.now }
    requires short { length program.now.classes < 2 ^ 32 }
    ensures { result ≡ TypingPaths.catches_wrong program.now pc row.now }
{
    let throwable = TypeRef::Class(Id::of(4));
    let fits = match &row.catches {
        Some(named) => hierarchy.type_fits(program, named, &throwable),
        None => hierarchy.type_fits(program, &throwable, &throwable),
    };
    covers(pc, row) && !fits
}

fn any_catches_wrong(program: &Program, hierarchy: &Hierarchy, pc: u32, rows: &[Row]) -> bool
    requires kept { IsHierarchyOf program.now hierarchy.now }
    requires short { length program.now.classes < 2 ^ 32 }
    ensures { result ≡ list_any (TypingPaths.catches_wrong program.now pc) rows.now }
{
    for row in rows {
        if catches_wrong(program, hierarchy, pc, row) {
            return true;
        }
    }
    false
}

/// Whether the instruction is wrong whatever the places hold.
fn is_wrong(
    alloc: Global,
    hierarchy: &Hierarchy,
    names: &ClassNames,
    subject: &Subject<'_>,
    pc: u32,
) -> Result<bool, Memory>
    requires subject { IsSubject subject.now }
    requires kept { IsHierarchyOf (program_of subject.now) hierarchy.now }
    requires short { length (program_of subject.now).classes < 2 ^ 32 }
    requires names { AreNamesOf (program_of subject.now).classes names.now }
    ensures { IfOk result (λ wrong. wrong ≡ is_wrong (program_of subject.now) (typable_of subject.now) pc) }
{
    let effect = effect_at(alloc, hierarchy, names, subject, pc)?;
    let catches = any_catches_wrong(subject.program, hierarchy, pc, subject.code.rows.as_slice());
    Ok(effect.wrong || catches)
}

fn add_wrong(
    alloc: Global,
    hierarchy: &Hierarchy,
    names: &ClassNames,
    subject: &Subject<'_>,
    heights: &[Option<u16>],
    found: &mut Vec<TypeFault>,
    pc: u32,
) -> Result<(), Memory>
    requires subject { IsSubject subject.now }
    requires kept { IsHierarchyOf (program_of subject.now) hierarchy.now }
    requires short { length (program_of subject.now).classes < 2 ^ 32 }
    requires names { AreNamesOf (program_of subject.now).classes names.now }
    ensures { OnOk result (Adds (Contains found.old.items) (Contains found.new.items) (WrongAt (program_of subject.now) (typable_of subject.now) heights.now pc)) }
{
    let Some(_) = known_height(heights, pc) else {
        return Ok(());
    };
    let wrong = is_wrong(alloc, hierarchy, names, subject, pc)?;
    if wrong {
        add_fault(found, pc)?;
        Ok(())
    } else {
        Ok(())
    }
}

/// Adds the faults of all facts. Facts of one pc that stand together read its instruction once.
fn add_all_failing(
    alloc: Global,
    hierarchy: &Hierarchy,
    names: &ClassNames,
    subject: &Subject<'_>,
    found: &mut Vec<TypeFault>,
    facts: &[Fact],
) -> Result<(), Memory>
    requires subject { IsSubject subject.now }
    requires kept { IsHierarchyOf (program_of subject.now) hierarchy.now }
    requires short { length (program_of subject.now).classes < 2 ^ 32 }
    requires names { AreNamesOf (program_of subject.now).classes names.now }
    ensures { OnOk result (Adds (Contains found.old.items) (Contains found.new.items) (From facts.now (FailsBy (program_of subject.now) (typable_of subject.now)))) }
{
    let mut asked = asked_at(alloc, hierarchy, names, subject, 0)?;
    for fact in facts {
        asked = turn_to(alloc, hierarchy, names, subject, asked, fact.pc)?;
        add_failing(hierarchy, subject, found, &asked, fact)?;
    }
    Ok(())
}

fn add_all_wrong(
    alloc: Global,
    hierarchy: &Hierarchy,
    names: &ClassNames,
    subject: &Subject<'_>,
    heights: &[Option<u16>],
    found: &mut Vec<TypeFault>,
) -> Result<(), Memory>
    requires subject { IsSubject subject.now }
    requires kept { IsHierarchyOf (program_of subject.now) hierarchy.now }
    requires short { length (program_of subject.now).classes < 2 ^ 32 }
    requires names { AreNamesOf (program_of subject.now).classes names.now }
    ensures { OnOk result (Adds (Contains found.old.items) (Contains found.new.items) (FromBelow (length heights.now) (WrongAt (program_of subject.now) (typable_of subject.now) heights.now))) }
{
    for place in 0..heights.len() {
        let Ok(pc) = u32::try_from(place) else {
            return Err(AllocError);
        };
        add_wrong(alloc, hierarchy, names, subject, heights, found, pc)?;
    }
    Ok(())
}

/// Adds the faults that the kinds of places tell.
pub(crate) fn add_kind_faults(
    alloc: Global,
    hierarchy: &Hierarchy,
    names: &ClassNames,
    subject: &Subject<'_>,
    heights: &[Option<u16>],
    facts: &[Fact],
    found: &mut Vec<TypeFault>,
) -> Result<(), Memory>
    requires subject { IsSubject subject.now }
    requires kept { IsHierarchyOf (program_of subject.now) hierarchy.now }
    requires short { length (program_of subject.now).classes < 2 ^ 32 }
    requires names { AreNamesOf (program_of subject.now).classes names.now }
    ensures { OnOk result (Adds (Contains found.old.items) (Contains found.new.items) (IsKindFault (program_of subject.now) (typable_of subject.now) heights.now facts.now)) }
{
    add_all_failing(alloc, hierarchy, names, subject, found, facts)?;
    add_all_wrong(alloc, hierarchy, names, subject, heights, found)?;
    Ok(())
}
