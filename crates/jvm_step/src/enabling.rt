//! Which threads may step.
ghost use Rattle.std.specs.Prelude.{◌≡◌, ℕ, List, length, option_map, Some, slice_get};
ghost use Rattle.machine.specs.Runs as machine;
ghost use Rattle.machine.specs.Runs.{enabled, waits_at, waits_with, may_step, is_running};
ghost use Rattle.machine.specs.Instructions.{instruction_at};
ghost use Rattle.jo_prog.specs.Machine.{popped};
ghost use Rattle.jo_prog.specs.Runs.{all_ended};
ghost use Rattle.jo_prog.specs.Values.{Value as OfValue};
ghost use Rattle.jvm_values.specs.Resolved.{seen};
ghost use Rattle.jvm_calls.specs.Invokes.{invoked_of};
ghost use Rattle.jvm_frames.specs.Frames.{frame_of, thread_of};
ghost use Rattle.jvm_step.specs.Settings.{IsReady};
ghost use Rattle.jvm_step.specs.States.{state_of, threads_of};
ghost use Rattle.jvm_step.specs.Fetches.{IsCallFrom, runs_of};

use crate::calling::{class_of, invoked_in};
use crate::settings::Setting;
use crate::states::State;
use jvm_calls::{Call, Invoked};
use jvm_frames::{Frame, Thread};
use jvm_values::{Address, Instruction};

/// Whether a thread of that object was started and hasn't ended.
fn runs(thread: &Thread, object: Address) -> bool
    ensures { result ≡ runs_of object (thread_of thread.now) }
{
    match thread.object {
        Some(own) => thread.is_alive() && own == object,
        None => false,
    }
}

fn is_running(threads: &[Thread], object: Address) -> bool
    ensures { result ≡ is_running (threads_of threads.now) object }
{
    for thread in threads {
        if runs(thread, object) {
            return true;
        }
    }
    false
}

impl State {
    fn waits_for(&self, invoked: Option<Invoked>) -> bool
        ensures { (values : List (OfValue ℕ)) → result ≡ machine.waits_for (state_of self.now) (option_map (invoked_of values) invoked) }
    {
        match invoked {
            Some(Invoked::Joins(object)) => is_running(self.threads.as_slice(), object),
            _ => false,
        }
    }

    /// Whether a frame at a call waits for a thread that hasn't ended.
    fn waits_with(&self, setting: &Setting<'_>, frame: &Frame, call: &Call<'_>, count: u32) -> bool
        requires ready { IsReady setting.now }
        requires from { IsCallFrom setting.now.program.now (frame_of frame.now) call.now }
        ensures { result ≡ waits_with setting.now.program.now setting.now.labels.now (state_of self.now) (frame_of frame.now) call.now.op call.now.owner.now call.now.method (popped count (frame_of frame.now).stack) }
    {
        self.waits_for(invoked_in(setting, &self.heap, frame, call, count))
    }

    fn waits_at(&self, setting: &Setting<'_>, frame: &Frame, instruction: &Instruction) -> bool
        requires { IsReady setting.now }
        ensures { (next : ℕ) → result ≡ waits_at setting.now.program.now setting.now.labels.now (state_of self.now) (frame_of frame.now) (Some (seen setting.now.program.now instruction.now, next)) }
    {
        match instruction {
            Instruction::Calls {
                op,
                owner,
                method,
                count,
            } => {
                let call = Call {
                    current: class_of(setting.program, frame.method),
                    op: *op,
                    owner,
                    method: *method,
                };
                self.waits_with(setting, frame, &call, *count)
            }
            _ => false,
        }
    }

    fn waits(&self, setting: &Setting<'_>, frame: &Frame) -> bool
        requires { IsReady setting.now }
        ensures { result ≡ waits_at setting.now.program.now setting.now.labels.now (state_of self.now) (frame_of frame.now) (instruction_at setting.now.program.now (frame_of frame.now).method (frame_of frame.now).pc) }
    {
        match setting.instructions.at(frame.method, frame.pc) {
            Some(found) => self.waits_at(setting, frame, &found.instruction),
            None => false,
        }
    }

    fn may_step(&self, setting: &Setting<'_>, thread: &Thread) -> bool
        requires { IsReady setting.now }
        ensures { result ≡ may_step setting.now.program.now setting.now.labels.now (state_of self.now) (thread_of thread.now).pending (thread_of thread.now).frames }
    {
        match thread.top() {
            Some(frame) => thread.pending.is_some() || !self.waits(setting, frame),
            None => false,
        }
    }

    /// How many threads may step.
    pub fn enabled_count(&self, setting: &Setting<'_>) -> usize
        requires { IsReady setting.now }
        ensures { result ≡ length (enabled setting.now.program.now setting.now.labels.now (state_of self.now)) }
    {
        let mut count = 0;
        for thread in self.threads.as_slice() {
            if self.may_step(setting, thread) {
                count += 1;
            }
        }
        count
    }

    /// The number of the thread at a place among those that may step, in order of start.
    pub fn enabled(&self, setting: &Setting<'_>, place: usize) -> Option<usize>
        requires { IsReady setting.now }
        ensures { result ≡ slice_get (enabled setting.now.program.now setting.now.labels.now (state_of self.now)) place }
    {
        let mut left = place;
        for (number, thread) in self.threads.iter().enumerate() {
            if self.may_step(setting, thread) {
                if left == 0 {
                    return Some(number);
                }
                left -= 1;
            }
        }
        None
    }

    /// Whether no thread has a frame.
    pub fn ended(&self) -> bool
        ensures { result ≡ all_ended (state_of self.now).threads }
    {
        for thread in self.threads.as_slice() {
            if thread.is_alive() {
                return false;
            }
        }
        true
    }
}
