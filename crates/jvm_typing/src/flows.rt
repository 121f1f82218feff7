//! How kinds spread along the steps of the code, until nothing is new: each fact is carried on once.
ghost use Rattle.std.specs.Prelude.{◌≡◌, ◌<◌, ◌≤◌, ◌+◌, ◌^◌, ◌↔◌, Some, length, Contains, IfOk, OnOk};
ghost use Rattle.std.specs.Option.{option_copied};
ghost use Rattle.hierarchy.specs.Hierarchies.{IsHierarchyOf};
ghost use Rattle.typing_effects.specs.ClassNames.{AreNamesOf};
ghost use Rattle.typing_heights.specs.Adds.{From, FromBelow};
ghost use Rattle.typing_heights.specs.Searches.{AreHeights};
ghost use Rattle.typing_heights.specs.Subjects.{program_of, typable_of, IsSubject};
ghost use Rattle.typing_heights.specs.declared.moves.Move.{Move};
ghost use Rattle.jvm_typing.specs.KindPasses.{Item, item_in, items_of, Grows, Fixes, Carries, FixesBehind, CarriesBehind, CarriesTo, FixesFrom, CarriesFrom, Found, AreKinds, row_at, step_source};
ghost use Rattle.jvm_typing.specs.Sources.{source_in};
ghost use Rattle.jvm_typing.specs.Stops.{IsStop, AreStops};

use crate::fact_tables::FactTable;
use crate::facts::{Fact, add_fact, copy_fact};
use crate::sources::{Sizes, Source, fed, source_of};
use crate::starts::start_facts;
use crate::stops::{Stop, stop_of, stops_of};
use hierarchy::Hierarchy;
use jo_ids::Memory;
use jo_prog::program::{Program, Row};
use std::alloc::{AllocError, Global};
use typing_effects::class_names::ClassNames;
use typing_effects::kinds::changed;
use typing_heights::moves::Move;
use typing_heights::subjects::Subject;

/// How many slots a table of facts has at most.
const MOST_SLOTS: usize = 1_048_576;

fn row_at<'p>(rows: &'p [Row], row: Option<usize>) -> Option<&'p Row>
    ensures { option_copied result ≡ row_at rows.now row }
{
    match row {
        Some(place) => rows.get(place),
        None => None,
    }
}

/// Where a place behind the step takes its kind from.
fn source_behind(
    alloc: Global,
    subject: &Subject<'_>,
    heights: &[Option<u16>],
    stop: &Stop,
    step: Move,
    place: usize,
) -> Result<Source, Memory>
    requires stop { IsStop (program_of subject.now) (typable_of subject.now) heights.now step.from stop.now }
    requires place { place < 2 ^ 17 }
    ensures { IfOk result (λ source. source_in source ≡ step_source (program_of subject.now) (typable_of subject.now) step stop.now.height place) }
{
    let row = row_at(subject.code.rows.as_slice(), step.row);
    let sizes = sizes_at(subject, stop);
    let source = source_of(alloc, &stop.effect, row, sizes, place)?;
    Ok(source)
}

fn sizes_at(subject: &Subject<'_>, stop: &Stop) -> Sizes
    ensures { result ≡ record { locals = subject.now.code.now.max_locals; height = stop.now.height } }
{
    Sizes {
        locals: subject.code.max_locals,
        height: stop.height,
    }
}

/// How many places there are behind the step.
fn end_of(subject: &Subject<'_>, step: Move) -> usize
    ensures value { result ≡ (typable_of subject.now).code.max_locals + step.height }
    ensures small { result < 2 ^ 17 }
{
    usize::from(subject.code.max_locals) + usize::from(step.height)
}

fn fix(facts: &mut FactTable, to: u32, place: usize, source: Source) -> Result<(), Memory>
    ensures { OnOk result (Grows (Fixes to place (source_in source)) (items_of facts.old) (items_of facts.new)) }
{
    match source {
        Source::Fixed(kind) => {
            add_fact(facts, to, place, kind)?;
            Ok(())
        }
        Source::FromPlace(_, _) => Ok(()),
    }
}

/// Adds what places behind a step have whatever is held before.
fn fix_behind(
    alloc: Global,
    subject: &Subject<'_>,
    heights: &[Option<u16>],
    stop: &Stop,
    facts: &mut FactTable,
    step: Move,
) -> Result<(), Memory>
    requires { IsStop (program_of subject.now) (typable_of subject.now) heights.now step.from stop.now }
    ensures { OnOk result (Grows (FixesBehind (program_of subject.now) (typable_of subject.now) step stop.now.height) (items_of facts.old) (items_of facts.new)) }
{
    for place in 0..end_of(subject, step) {
        let source = source_behind(alloc, subject, heights, stop, step, place)?;
        fix(facts, step.to, place, source)?;
    }
    Ok(())
}

/// The same for each step from a pc.
fn fix_from(
    alloc: Global,
    subject: &Subject<'_>,
    heights: &[Option<u16>],
    pc: u32,
    stop: &Stop,
    facts: &mut FactTable,
) -> Result<(), Memory>
    requires { IsStop (program_of subject.now) (typable_of subject.now) heights.now pc stop.now }
    ensures { OnOk result (Grows (FixesFrom (program_of subject.now) (typable_of subject.now) heights.now pc) (items_of facts.old) (items_of facts.new)) }
{
    for step in stop.moves.as_slice() {
        fix_behind(alloc, subject, heights, stop, facts, *step)?;
    }
    Ok(())
}

fn fix_at(
    alloc: Global,
    subject: &Subject<'_>,
    heights: &[Option<u16>],
    stops: &[Option<Stop>],
    facts: &mut FactTable,
    pc: u32,
) -> Result<(), Memory>
    requires { AreStops (program_of subject.now) (typable_of subject.now) heights.now stops.now }
    ensures { OnOk result (Grows (FixesFrom (program_of subject.now) (typable_of subject.now) heights.now pc) (items_of facts.old) (items_of facts.new)) }
{
    match stop_of(stops, pc) {
        Some(stop) => {
            fix_from(alloc, subject, heights, pc, stop, facts)?;
            Ok(())
        }
        None => Ok(()),
    }
}

/// The same for each pc.
fn fix_all(
    alloc: Global,
    subject: &Subject<'_>,
    heights: &[Option<u16>],
    stops: &[Option<Stop>],
    facts: &mut FactTable,
) -> Result<(), Memory>
    requires { AreStops (program_of subject.now) (typable_of subject.now) heights.now stops.now }
    ensures { OnOk result (Grows (FromBelow (length heights.now) (FixesFrom (program_of subject.now) (typable_of subject.now) heights.now)) (items_of facts.old) (items_of facts.new)) }
{
    for place in 0..heights.len() {
        let Ok(pc) = u32::try_from(place) else {
            return Err(AllocError);
        };
        fix_at(alloc, subject, heights, stops, facts, pc)?;
    }
    Ok(())
}

/// Adds what a fact gives to a place that takes its kind from there.
fn carry(
    alloc: Global,
    program: &Program,
    names: &ClassNames,
    facts: &mut FactTable,
    fact: &Fact,
    to: u32,
    place: usize,
    source: Source,
) -> Result<(), Memory>
    requires { AreNamesOf program.now.classes names.now }
    ensures { OnOk result (Grows (Carries program.now (item_in fact.now) to place (source_in source)) (items_of facts.old) (items_of facts.new)) }
{
    let Source::FromPlace(before, change) = source else {
        return Ok(());
    };
    if before != fact.place {
        return Ok(());
    }
    let kind = changed(alloc, program, names, change, &fact.kind)?;
    add_fact(facts, to, place, kind)?;
    Ok(())
}

/// The same for a place behind the step, if it is one.
fn carry_to(
    alloc: Global,
    subject: &Subject<'_>,
    names: &ClassNames,
    heights: &[Option<u16>],
    stop: &Stop,
    facts: &mut FactTable,
    fact: &Fact,
    step: Move,
    place: usize,
) -> Result<(), Memory>
    requires names { AreNamesOf (program_of subject.now).classes names.now }
    requires stop { IsStop (program_of subject.now) (typable_of subject.now) heights.now step.from stop.now }
    ensures { OnOk result (Grows (CarriesTo (program_of subject.now) (typable_of subject.now) (item_in fact.now) step stop.now.height place) (items_of facts.old) (items_of facts.new)) }
{
    if end_of(subject, step) <= place {
        return Ok(());
    }
    let source = source_behind(alloc, subject, heights, stop, step, place)?;
    carry(
        alloc,
        subject.program,
        names,
        facts,
        fact,
        step.to,
        place,
        source,
    )?;
    Ok(())
}

/// The same for all places behind the step.
fn carry_behind(
    alloc: Global,
    subject: &Subject<'_>,
    names: &ClassNames,
    heights: &[Option<u16>],
    stop: &Stop,
    facts: &mut FactTable,
    fact: &Fact,
    step: Move,
) -> Result<(), Memory>
    requires names { AreNamesOf (program_of subject.now).classes names.now }
    requires stop { IsStop (program_of subject.now) (typable_of subject.now) heights.now step.from stop.now }
    ensures { OnOk result (Grows (CarriesBehind (program_of subject.now) (typable_of subject.now) (item_in fact.now) step stop.now.height) (items_of facts.old) (items_of facts.new)) }
{
    let places = fed(alloc, &stop.effect, sizes_at(subject, stop), fact.place)?;
    for place in places.as_slice() {
        carry_to(
            alloc, subject, names, heights, stop, facts, fact, step, *place,
        )?;
    }
    Ok(())
}

/// The same for each step from the fact's pc.
fn carry_from(
    alloc: Global,
    subject: &Subject<'_>,
    names: &ClassNames,
    heights: &[Option<u16>],
    stop: &Stop,
    facts: &mut FactTable,
    fact: &Fact,
) -> Result<(), Memory>
    requires names { AreNamesOf (program_of subject.now).classes names.now }
    requires stop { IsStop (program_of subject.now) (typable_of subject.now) heights.now fact.now.pc stop.now }
    ensures { OnOk result (Grows (CarriesFrom (program_of subject.now) (typable_of subject.now) heights.now (item_in fact.now)) (items_of facts.old) (items_of facts.new)) }
{
    for step in stop.moves.as_slice() {
        carry_behind(alloc, subject, names, heights, stop, facts, fact, *step)?;
    }
    Ok(())
}

fn carry_on(
    alloc: Global,
    subject: &Subject<'_>,
    names: &ClassNames,
    heights: &[Option<u16>],
    stops: &[Option<Stop>],
    facts: &mut FactTable,
    fact: &Fact,
) -> Result<(), Memory>
    requires names { AreNamesOf (program_of subject.now).classes names.now }
    requires stops { AreStops (program_of subject.now) (typable_of subject.now) heights.now stops.now }
    ensures { OnOk result (Grows (CarriesFrom (program_of subject.now) (typable_of subject.now) heights.now (item_in fact.now)) (items_of facts.old) (items_of facts.new)) }
{
    match stop_of(stops, fact.pc) {
        Some(stop) => {
            carry_from(alloc, subject, names, heights, stop, facts, fact)?;
            Ok(())
        }
        None => Ok(()),
    }
}

/// How many places a method has at all its pcs, up to a bound.
fn places_of(pcs: usize, max_locals: u16, max_stack: u16) -> usize {
    pcs.saturating_mul(usize::from(max_locals) + usize::from(max_stack))
        .min(MOST_SLOTS)
}

/// What holds at the start and what steps fix, whatever is held.
fn first_facts(
    alloc: Global,
    subject: &Subject<'_>,
    names: &ClassNames,
    heights: &[Option<u16>],
    stops: &[Option<Stop>],
) -> Result<FactTable, Memory>
    requires names { AreNamesOf (program_of subject.now).classes names.now }
    requires heights { AreHeights (program_of subject.now) (typable_of subject.now) heights.now }
    requires stops { AreStops (program_of subject.now) (typable_of subject.now) heights.now stops.now }
    ensures { IfOk result (λ facts. Found (program_of subject.now) (typable_of subject.now) heights.now 0 (items_of facts)) }
{
    let room = places_of(
        heights.len(),
        subject.code.max_locals,
        subject.code.max_stack,
    );
    let mut facts = start_facts(alloc, subject, names, room)?;
    fix_all(alloc, subject, heights, stops, &mut facts)?;
    Ok(facts)
}

/// The kinds that the places of the method may hold at each pc, at the height that it has.
fn kinds_of(
    alloc: Global,
    hierarchy: &Hierarchy,
    names: &ClassNames,
    subject: &Subject<'_>,
    heights: &[Option<u16>],
) -> Result<FactTable, Memory>
    requires subject { IsSubject subject.now }
    requires kept { IsHierarchyOf (program_of subject.now) hierarchy.now }
    requires names { AreNamesOf (program_of subject.now).classes names.now }
    requires heights { AreHeights (program_of subject.now) (typable_of subject.now) heights.now }
    ensures { IfOk result (λ facts. AreKinds (program_of subject.now) (typable_of subject.now) heights.now (items_of facts)) }
{
    let stops = stops_of(alloc, hierarchy, names, subject, heights)?;
    let mut facts = first_facts(alloc, subject, names, heights, stops.as_slice())?;
    // memory has no room for as many facts
    for number in 0..u32::MAX {
        match copy_fact(alloc, facts.as_slice(), number as usize)? {
            Some(fact) => carry_on(
                alloc,
                subject,
                names,
                heights,
                stops.as_slice(),
                &mut facts,
                &fact,
            )?,
            None => return Ok(facts),
        }
    }
    Err(AllocError)
}

/// The facts of each pc together.
fn in_order(table: FactTable) -> Result<Vec<Fact>, Memory>
    ensures { IfOk result (λ facts. (x : Item) → Contains (items_of facts.items) x ↔ Contains (items_of table) x) }
{
    let mut facts = table.into_facts();
    facts.sort_by_key(|fact| fact.pc)?;
    Ok(facts)
}

/// The kinds that the places of the method may hold at each pc, at the height that it has, those of each pc together.
pub(crate) fn kinds_in_order(
    alloc: Global,
    hierarchy: &Hierarchy,
    names: &ClassNames,
    subject: &Subject<'_>,
    heights: &[Option<u16>],
) -> Result<Vec<Fact>, Memory>
    requires subject { IsSubject subject.now }
    requires kept { IsHierarchyOf (program_of subject.now) hierarchy.now }
    requires names { AreNamesOf (program_of subject.now).classes names.now }
    requires heights { AreHeights (program_of subject.now) (typable_of subject.now) heights.now }
    ensures { IfOk result (λ facts. AreKinds (program_of subject.now) (typable_of subject.now) heights.now (items_of facts.items)) }
{
    let table = kinds_of(alloc, hierarchy, names, subject, heights)?;
    let facts = in_order(table)?;
    Ok(facts)
}
