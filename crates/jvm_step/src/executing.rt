//! Instructions that are no calls.
ghost use Rattle.std.specs.Prelude.{◌≡◌, ℕ, List, drop, map, option_map, Some, IfSome, slice_get};
ghost use Rattle.jo_prog.specs.Machine.{Frame as OfFrame, Thread as OfThread, popped, fetched_local};
ghost use Rattle.machine.specs.Execution.{pops};
ghost use Rattle.machine.specs.Steps.{executed, fetched, apply_outcome};
ghost use Rattle.jvm_values.specs.Values.{value_of};
ghost use Rattle.jvm_values.specs.Resolved.{seen, HasText};
ghost use Rattle.jvm_exec.specs.Outcomes.{outcome_of};
ghost use Rattle.jvm_exec.specs.Forms.{state_with};
ghost use Rattle.jvm_frames.specs.Frames.{frame_of};
ghost use Rattle.jvm_step.specs.Settings.{IsReady};
ghost use Rattle.jvm_step.specs.States.{state_of, HasTop};
ghost use Rattle.jvm_step.specs.Moves.{StepsAt};
ghost use Rattle.jvm_step.specs.Fetches.{performed_by, performed, IsQuiet};

use crate::moves::Moved;
use crate::settings::Setting;
use crate::states::State;
use crate::threads::top_at;
use jo_ids::Memory;
use jvm_exec::{Outcome, exec, local_taken, pops};
use jvm_frames::Frame;
use jvm_values::{Heap, Instruction, Value};
use std::alloc::Global;

/// What an instruction does with a value of a local.
fn outcome_of_local<'i>(
    setting: &Setting<'_>,
    heap: &Heap,
    statics: &[Value],
    frame: &Frame,
    instruction: &'i Instruction,
    local: u16,
) -> Option<Outcome<'i>>
    requires ready { IsReady setting.now }
    requires text { HasText setting.now.program.now instruction.now }
    ensures quiet { IfSome result (λ o. IsQuiet (outcome_of o)) }
    ensures is { (cursors : List ℕ) (threads : List OfThread) → option_map outcome_of result ≡ performed_by setting.now.program.now (state_with heap.now (map value_of statics.now) cursors threads) (seen setting.now.program.now instruction.now) (fetched_local (slice_get (frame_of frame.now).locals local) (frame_of frame.now).stack) }
{
    match frame.local(local) {
        Some(value) => exec(
            setting.program,
            setting.hierarchy,
            heap,
            statics,
            instruction,
            &[value],
        ),
        None => None,
    }
}

/// What an instruction does with values of the stack.
fn outcome_of_popped<'i>(
    setting: &Setting<'_>,
    heap: &Heap,
    statics: &[Value],
    frame: &Frame,
    instruction: &'i Instruction,
) -> Option<Outcome<'i>>
    requires ready { IsReady setting.now }
    requires text { HasText setting.now.program.now instruction.now }
    ensures quiet { IfSome result (λ o. IsQuiet (outcome_of o)) }
    ensures is { (cursors : List ℕ) (threads : List OfThread) → option_map outcome_of result ≡ performed_by setting.now.program.now (state_with heap.now (map value_of statics.now) cursors threads) (seen setting.now.program.now instruction.now) (popped (pops (seen setting.now.program.now instruction.now)) (frame_of frame.now).stack) }
{
    match frame.popped(pops(instruction)) {
        Some(values) => exec(
            setting.program,
            setting.hierarchy,
            heap,
            statics,
            instruction,
            values,
        ),
        None => None,
    }
}

/// What an instruction does with the values that it pops or loads. `None` where they aren't those that it needs.
fn outcome_in<'i>(
    setting: &Setting<'_>,
    heap: &Heap,
    statics: &[Value],
    frame: &Frame,
    instruction: &'i Instruction,
) -> Option<Outcome<'i>>
    requires ready { IsReady setting.now }
    requires text { HasText setting.now.program.now instruction.now }
    ensures quiet { IfSome result (λ o. IsQuiet (outcome_of o)) }
    ensures is { (cursors : List ℕ) (threads : List OfThread) → option_map outcome_of result ≡ performed setting.now.program.now (state_with heap.now (map value_of statics.now) cursors threads) (frame_of frame.now) (seen setting.now.program.now instruction.now) }
{
    match local_taken(instruction) {
        Some(local) => outcome_of_local(setting, heap, statics, frame, instruction, local),
        None => outcome_of_popped(setting, heap, statics, frame, instruction),
    }
}

impl State {
    fn outcome_at<'i>(
        &self,
        setting: &Setting<'_>,
        place: usize,
        instruction: &'i Instruction,
    ) -> Option<Outcome<'i>>
        requires ready { IsReady setting.now }
        requires text { HasText setting.now.program.now instruction.now }
        ensures quiet { IfSome result (λ o. IsQuiet (outcome_of o)) }
        ensures is { (f : OfFrame) (below : List OfFrame) → HasTop (state_of self.now).threads place f below → option_map outcome_of result ≡ performed setting.now.program.now (state_of self.now) f (seen setting.now.program.now instruction.now) }
    {
        match top_at(self.threads.as_slice(), place) {
            Some(frame) => outcome_in(
                setting,
                &self.heap,
                self.statics.as_slice(),
                frame,
                instruction,
            ),
            None => None,
        }
    }

    fn apply_outcome(
        &mut self,
        alloc: Global,
        setting: &Setting<'_>,
        place: usize,
        next: u32,
        count: u32,
        outcome: &Outcome<'_>,
    ) -> Result<Moved, Memory>
        requires ready { IsReady setting.now }
        requires quiet { IsQuiet (outcome_of outcome.now) }
        ensures { StepsAt (state_of self.old) (state_of self.new) place (λ f below. apply_outcome setting.now.program.now (state_of self.old) place f below next (drop count f.stack) (Some (outcome_of outcome.now))) result }
    {
        match &outcome.written {
            Some(change) => {
                self.go_on_with(place, next, count, change);
                Ok(Moved::Went(None))
            }
            None => self.apply(alloc, setting, place, next, count, &outcome.effect),
        }
    }

    /// An instruction that is no call, with the pc behind it.
    pub(crate) fn execute(
        &mut self,
        alloc: Global,
        setting: &Setting<'_>,
        place: usize,
        next: u32,
        instruction: &Instruction,
    ) -> Result<Moved, Memory>
        requires ready { IsReady setting.now }
        requires text { HasText setting.now.program.now instruction.now }
        ensures { StepsAt (state_of self.old) (state_of self.new) place (λ f below. executed setting.now.program.now (state_of self.old) place f below next (seen setting.now.program.now instruction.now) (fetched (seen setting.now.program.now instruction.now) f)) result }
    {
        match self.outcome_at(setting, place, instruction) {
            Some(outcome) => {
                self.apply_outcome(alloc, setting, place, next, pops(instruction), &outcome)
            }
            None => Ok(Moved::Stuck),
        }
    }
}
