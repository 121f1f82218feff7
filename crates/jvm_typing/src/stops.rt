//! The pcs from which typing paths go on: what the instruction does, and where it leads. Each is read once.
ghost use Rattle.std.specs.Prelude.{◌≡◌, ◌<◌, ◌^◌, ◌↔◌, None, length, Contains, IfOk, OnOk, slice_index_or};
ghost use Rattle.std.specs.Option.{option_copied};
ghost use Rattle.hierarchy.specs.Hierarchies.{IsHierarchyOf};
ghost use Rattle.typing_effects.specs.ClassNames.{AreNamesOf};
ghost use Rattle.typing_heights.specs.Adds.{Adds, From};
ghost use Rattle.typing_heights.specs.Searches.{height_at, AreHeights};
ghost use Rattle.typing_heights.specs.Subjects.{program_of, typable_of, IsSubject};
ghost use Rattle.typing_heights.specs.declared.moves.Move.{Move};
ghost use Rattle.jvm_typing.specs.Stops.{LeadsOn, IsStopAt, AreStops};

use hierarchy::Hierarchy;
use jo_ids::Memory;
use std::alloc::{AllocError, Global};
use typing_effects::class_names::ClassNames;
use typing_effects::effects::{Effect, effect_at};
use typing_heights::faults::differs;
use typing_heights::moves::{Move, leave_at};
use typing_heights::search::known_height;
use typing_heights::subjects::Subject;

/// What stands at a pc from which paths go on.
#[derive(Drop)]
pub(crate) struct Stop {
    pub(crate) height: u16,
    pub(crate) effect: Effect,
    /// Those that lead to a pc at the height that this has.
    pub(crate) moves: Vec<Move>,
}

fn keep(kept: &mut Vec<Move>, heights: &[Option<u16>], step: Move) -> Result<(), Memory>
    ensures { OnOk result (Adds (Contains kept.old.items) (Contains kept.new.items) (LeadsOn heights.now step)) }
{
    if differs(heights, step.to, step.height) {
        return Ok(());
    }
    kept.push(step)?;
    Ok(())
}

/// Those of the steps that lead to a pc at the height that this has.
fn kept(alloc: Global, heights: &[Option<u16>], moves: &[Move]) -> Result<Vec<Move>, Memory>
    ensures { IfOk result (λ kept. (m : Move) → Contains kept.items m ↔ From moves.now (LeadsOn heights.now) m) }
{
    let mut kept = Vec::new(alloc);
    for step in moves {
        keep(&mut kept, heights, *step)?;
    }
    Ok(kept)
}

/// What stands at the pc. `None` where no path goes on from it.
fn stop_at(
    alloc: Global,
    hierarchy: &Hierarchy,
    names: &ClassNames,
    subject: &Subject<'_>,
    heights: &[Option<u16>],
    pc: u32,
) -> Result<Option<Stop>, Memory>
    requires subject { IsSubject subject.now }
    requires kept { IsHierarchyOf (program_of subject.now) hierarchy.now }
    requires names { AreNamesOf (program_of subject.now).classes names.now }
    ensures { IfOk result (λ stop. IsStopAt (program_of subject.now) (typable_of subject.now) heights.now pc stop) }
{
    let Some(height) = known_height(heights, pc) else {
        return Ok(None);
    };
    let mut all = Vec::new(alloc);
    leave_at(alloc, subject, heights, &mut all, pc)?;
    if all.is_empty() {
        return Ok(None);
    }
    let moves = kept(alloc, heights, all.as_slice())?;
    let effect = effect_at(alloc, hierarchy, names, subject, pc)?;
    Ok(Some(Stop {
        height,
        effect,
        moves,
    }))
}

/// The same for each pc.
pub(crate) fn stops_of(
    alloc: Global,
    hierarchy: &Hierarchy,
    names: &ClassNames,
    subject: &Subject<'_>,
    heights: &[Option<u16>],
) -> Result<Vec<Option<Stop>>, Memory>
    requires subject { IsSubject subject.now }
    requires kept { IsHierarchyOf (program_of subject.now) hierarchy.now }
    requires names { AreNamesOf (program_of subject.now).classes names.now }
    ensures { IfOk result (λ stops. AreStops (program_of subject.now) (typable_of subject.now) heights.now stops.items) }
{
    let mut stops = Vec::new(alloc);
    for place in 0..heights.len() {
        let Ok(pc) = u32::try_from(place) else {
            return Err(AllocError);
        };
        let stop = stop_at(alloc, hierarchy, names, subject, heights, pc)?;
        stops.push(stop)?;
    }
    Ok(stops)
}

/// What stands at the pc.
pub(crate) fn stop_of(stops: &[Option<Stop>], pc: u32) -> Option<&Stop>
    ensures { option_copied result ≡ slice_index_or stops.now pc None }
{
    match stops.get(pc as usize) {
        Some(Some(stop)) => Some(stop),
        Some(None) => None,
        None => None,
    }
}
