//! One step of one thread.
ghost use Rattle.std.specs.Prelude.{◌≡◌, ℕ, List, [], Contains, slice_get, Some, None, Ok};
ghost use Rattle.jo_prog.specs.Machine.{Frame as OfFrame};
ghost use Rattle.machine.specs.Steps as machine;
ghost use Rattle.machine.specs.Steps.{step_at};
ghost use Rattle.machine.specs.Instructions.{instruction_at};
ghost use Rattle.machine.specs.Runs.{enabled};
ghost use Rattle.step_laws.specs.TypedStates.{IsTypedState};
ghost use Rattle.kept_laws.specs.Premises.{HasPremises};
ghost use Rattle.jvm_values.specs.Resolved.{seen, HasText, IsSeenAt};
ghost use Rattle.jvm_frames.specs.Frames.{thread_of};
ghost use Rattle.jvm_step.specs.Settings.{IsReady};
ghost use Rattle.jvm_step.specs.States.{state_of, threads_of, frames_at, HasTop};
ghost use Rattle.jvm_step.specs.Moves.{Steps, StepsAt, GoesOnTyped};
ghost use Rattle.jvm_step.specs.declared.moves.Moved.TheVariants.{Stuck};
ghost use Rattle.jvm_step.specs.Standings.{StandsAs};

use crate::calling::class_of;
use crate::moves::Moved;
use crate::settings::Setting;
use crate::states::{Standing, State};
use jo_ids::{Memory, MethodId};
use jvm_calls::Call;
use jvm_frames::{Frame, Thread};
use jvm_values::{Address, Instruction, Resolved};
use resolved_insns::resolve_at;
use std::alloc::Global;

fn standing_of(thread: &Thread) -> Standing
    ensures { StandsAs (Some (thread_of thread.now)) result }
{
    match thread.top() {
        Some(frame) => match thread.pending {
            Some(exception) => Standing::Thrown(exception),
            None => Standing::Here(frame.method, frame.pc),
        },
        None => Standing::Ended,
    }
}

fn standing_at(threads: &[Thread], place: usize) -> Standing
    ensures { StandsAs (slice_get (threads_of threads.now) place) result }
{
    match threads.get(place) {
        Some(thread) => standing_of(thread),
        None => Standing::Ended,
    }
}

impl State {
    /// What the instruction at a pc of a method does.
    fn perform(
        &mut self,
        alloc: Global,
        setting: &Setting<'_>,
        place: usize,
        method: MethodId,
        found: &Resolved,
    ) -> Result<Moved, Memory>
        requires ready { IsReady setting.now }
        requires text { HasText setting.now.program.now found.now.instruction }
        requires from { (f : OfFrame) (below : List OfFrame) → HasTop (state_of self.old).threads place f below → f.method ≡ method }
        ensures { StepsAt (state_of self.old) (state_of self.new) place (λ f below. step_at setting.now.program.now setting.now.labels.now setting.now.inputs.now (state_of self.old) place f below (Some (seen setting.now.program.now found.now.instruction, found.now.next))) result }
    {
        match &found.instruction {
            Instruction::Calls {
                op,
                owner,
                method: resolved,
                count,
            } => {
                let call = Call {
                    current: class_of(setting.program, method),
                    op: *op,
                    owner,
                    method: *resolved,
                };
                self.call(alloc, setting, place, found.next, &call, *count)
            }
            _ => self.execute(alloc, setting, place, found.next, &found.instruction),
        }
    }

    fn step_here(
        &mut self,
        alloc: Global,
        setting: &Setting<'_>,
        place: usize,
        method: MethodId,
        pc: u32,
    ) -> Result<Moved, Memory>
        requires ready { IsReady setting.now }
        requires from { (f : OfFrame) (below : List OfFrame) → HasTop (state_of self.old).threads place f below → f.method ≡ method }
        ensures { StepsAt (state_of self.old) (state_of self.new) place (λ f below. step_at setting.now.program.now setting.now.labels.now setting.now.inputs.now (state_of self.old) place f below (instruction_at setting.now.program.now method pc)) result }
    {
        let (program, hierarchy) = (setting.program, setting.hierarchy);
        match setting.instructions.at(method, pc) {
            Some(found) => self.perform(alloc, setting, place, method, found),
            None => match resolve_at(alloc, program, hierarchy, setting.strings, method, pc) {
                Ok(Some(found)) => self.perform(alloc, setting, place, method, &found),
                Ok(None) => Ok(Moved::Stuck),
                Err(memory) => Err(memory),
            },
        }
    }

    /// One step of a thread. Where it has none, as one that isn't there or has ended, nothing changes; a refusal leaves the state as it was. In
    /// a typed state each thread that may step goes on, and the state stays typed.
    pub fn step(
        &mut self,
        alloc: Global,
        setting: &Setting<'_>,
        thread: usize,
    ) -> Result<Moved, Memory>
        requires { IsReady setting.now }
        ensures ended { frames_at (slice_get (state_of self.old).threads thread) ≡ [] → result ≡ Ok Stuck }
        ensures typed { HasPremises setting.now.program.now setting.now.labels.now setting.now.inputs.now → IsTypedState setting.now.program.now (state_of self.old) → Contains (enabled setting.now.program.now setting.now.labels.now (state_of self.old)) thread → GoesOnTyped setting.now.program.now (state_of self.new) result }
        ensures steps { Steps (state_of self.old) (state_of self.new) (machine.step setting.now.program.now setting.now.labels.now setting.now.inputs.now (state_of self.old) thread) result }
    {
        match standing_at(self.threads.as_slice(), thread) {
            Standing::Here(method, pc) => self.step_here(alloc, setting, thread, method, pc),
            Standing::Thrown(exception) => self.unwind(setting, thread, exception),
            Standing::Ended => Ok(Moved::Stuck),
        }
    }
}
