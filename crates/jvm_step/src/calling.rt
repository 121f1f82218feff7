//! Calls.
ghost use Rattle.std.specs.Prelude.{◌≡◌, ℕ, ◌∷◌, [], List, take, drop, map, option_map, Some, None, IfOk, OnOk, OnErr, slice_index};
ghost use Rattle.jo_prog.specs.Machine as spec;
ghost use Rattle.jo_prog.specs.Machine.{Frame as OfFrame, Thread as OfThread, popped};
ghost use Rattle.jo_prog.specs.Program.{method_at as method_with};
ghost use Rattle.jo_prog.specs.Values.{Value as OfValue, int, ref};
ghost use Rattle.machine.specs.Steps.{at_pc, new_frame, class_of_method, entered, thread_begun, with_frames, with_thread, invoked_step, call_step, with_cursor, silently};
ghost use Rattle.jvm_values.specs.Values.{value_of, popped_values};
ghost use Rattle.jvm_exec.specs.Forms.{state_with};
ghost use Rattle.jvm_calls.specs.Invokes.{invoked_of};
ghost use Rattle.jvm_frames.specs.Frames.{frame_of};
ghost use Rattle.jvm_step.specs.Settings.{IsReady};
ghost use Rattle.jvm_step.specs.States.{state_of, HasTop};
ghost use Rattle.jvm_step.specs.Moves.{StepsAt};
ghost use Rattle.jvm_step.specs.Fetches.{called_by, values_of, IsCallFrom};

use crate::applying::set;
use crate::moves::Moved;
use crate::settings::Setting;
use crate::states::State;
use crate::threads::{enter_at, go_on_at, jump_at, top_at};
use jo_ids::{ClassId, Id, Memory, MethodId};
use jo_prog::program::{Program, method_at};
use jo_prog::runs::{Event, SourceInput};
use jvm_calls::{Call, Invoked, invoke};
use jvm_frames::{Frame, Thread};
use jvm_values::{Address, Heap, Value};
use std::alloc::{AllocError, Global};

/// The int that a source gives at a place of its list, 0 behind its end.
fn input_at(inputs: &[SourceInput], source: MethodId, place: u64) -> i32
    ensures { result ≡ spec.input_at inputs.now source place }
{
    for input in inputs {
        if input.source == source {
            return input
                .values
                .as_slice()
                .get(place as usize)
                .copied()
                .unwrap_or(0);
        }
    }
    0
}

/// How many ints a source has given.
fn cursor_of(cursors: &[u64], source: MethodId) -> u64
    ensures { result ≡ slice_index cursors.now source }
{
    cursors.get(source.number() as usize).copied().unwrap_or(0)
}

/// The class of the method that runs.
pub(crate) fn class_of(program: &Program, method: MethodId) -> ClassId
    ensures { result ≡ class_of_method (method_with program.now method) }
{
    match method_at(program, method) {
        Some(method) => method.class,
        None => Id::of(0),
    }
}

/// As many values from the top of a stack as there are, so many at most, the top last.
fn top_values(stack: &[Value], count: u32) -> &[Value]
    ensures { popped_values result.now ≡ take count (popped_values stack.now) }
{
    stack.split_at(stack.len().saturating_sub(count as usize)).1
}

/// What a call comes to in a frame. `None` where its values lack or aren't those that it needs.
pub(crate) fn invoked_in(
    setting: &Setting<'_>,
    heap: &Heap,
    frame: &Frame,
    call: &Call<'_>,
    count: u32,
) -> Option<Invoked>
    requires ready { IsReady setting.now }
    requires from { IsCallFrom setting.now.program.now (frame_of frame.now) call.now }
    ensures { (statics : List (OfValue ℕ)) (cursors : List ℕ) (threads : List OfThread) → option_map (invoked_of (values_of count (frame_of frame.now))) result ≡ called_by setting.now.program.now setting.now.labels.now (state_with heap.now statics cursors threads) (frame_of frame.now).method call.now (popped count (frame_of frame.now).stack) }
{
    match frame.popped(count) {
        Some(values) => invoke(
            setting.program,
            setting.hierarchy,
            setting.labels,
            heap,
            call,
            values,
        ),
        None => None,
    }
}

impl State {
    fn invoked_at(
        &self,
        setting: &Setting<'_>,
        place: usize,
        call: &Call<'_>,
        count: u32,
    ) -> Option<Invoked>
        requires ready { IsReady setting.now }
        requires from { (f : OfFrame) (below : List OfFrame) → HasTop (state_of self.now).threads place f below → IsCallFrom setting.now.program.now f call.now }
        ensures { (f : OfFrame) (below : List OfFrame) → HasTop (state_of self.now).threads place f below → option_map (invoked_of (values_of count f)) result ≡ called_by setting.now.program.now setting.now.labels.now (state_of self.now) f.method call.now (popped count f.stack) }
    {
        match top_at(self.threads.as_slice(), place) {
            Some(frame) => invoked_in(setting, &self.heap, frame, call, count),
            None => None,
        }
    }

    /// The frame of a method that begins with the values on top of the stack. `None` where it has no code.
    fn frame_for(
        &self,
        alloc: Global,
        program: &Program,
        place: usize,
        count: u32,
        method: MethodId,
    ) -> Result<Option<Frame>, Memory>
        ensures { IfOk result (λ frame. (f : OfFrame) (below : List OfFrame) → HasTop (state_of self.now).threads place f below → option_map frame_of frame ≡ new_frame program.now method (values_of count f)) }
    {
        match top_at(self.threads.as_slice(), place) {
            Some(caller) => {
                let values = top_values(caller.stack.as_slice(), count);
                let frame = Frame::begin(alloc, program, method, values)?;
                Ok(frame)
            }
            None => Ok(None),
        }
    }

    fn enter(
        &mut self,
        alloc: Global,
        program: &Program,
        place: usize,
        count: u32,
        method: MethodId,
    ) -> Result<Moved, Memory>
        ensures { StepsAt (state_of self.old) (state_of self.new) place (λ f below. entered (state_of self.old) place (at_pc f f.pc (drop count f.stack)) below (new_frame program.now method (values_of count f))) result }
    {
        match self.frame_for(alloc, program, place, count, method) {
            Ok(Some(frame)) => match enter_at(&mut self.threads, place, count, frame) {
                Ok(()) => Ok(Moved::Went(None)),
                Err(memory) => Err(memory),
            },
            Ok(None) => Ok(Moved::Stuck),
            Err(memory) => Err(memory),
        }
    }

    /// Adds a thread at the end. A refusal leaves the threads as they were.
    fn add_thread(&mut self, alloc: Global, frame: Frame, object: Address) -> Result<(), Memory>
        ensures ok { OnOk result (state_of self.new ≡ with_thread (state_of self.old) object (frame_of frame)) }
        ensures err { OnErr result (state_of self.new ≡ state_of self.old) }
    {
        match Thread::begin(alloc, frame, Some(object)) {
            Ok(thread) => match self.threads.push(thread) {
                Ok(()) => Ok(()),
                Err(_) => Err(AllocError),
            },
            Err(memory) => Err(memory),
        }
    }

    fn begin(
        &mut self,
        alloc: Global,
        program: &Program,
        place: usize,
        next: u32,
        count: u32,
        object: Address,
        method: MethodId,
    ) -> Result<Moved, Memory>
        ensures { StepsAt (state_of self.old) (state_of self.new) place (λ f below. thread_begun (state_of self.old) place (at_pc f next (drop count f.stack) ∷ below) object (new_frame program.now method (ref object ∷ []))) result }
    {
        match Frame::begin(alloc, program, method, &[Value::Ref(object)]) {
            Ok(Some(frame)) => match self.add_thread(alloc, frame, object) {
                Ok(()) => {
                    jump_at(&mut self.threads, place, next, count);
                    self.heap.start(object);
                    Ok(Moved::Went(None))
                }
                Err(memory) => Err(memory),
            },
            Ok(None) => Ok(Moved::Stuck),
            Err(memory) => Err(memory),
        }
    }

    /// Pushes the next int of a source. After 2^64 - 1 of them memory is said to be wanting.
    fn ask(
        &mut self,
        inputs: &[SourceInput],
        place: usize,
        next: u32,
        count: u32,
        source: MethodId,
    ) -> Result<Moved, Memory>
        ensures { StepsAt (state_of self.old) (state_of self.new) place (λ f below. silently (with_frames (with_cursor (state_of self.old) source) place (at_pc f next (int (spec.input_at inputs.now source (slice_index (state_of self.old).cursors source)) ∷ drop count f.stack) ∷ below) None)) result }
    {
        let cursor = cursor_of(self.cursors.as_slice(), source);
        let Some(more) = cursor.checked_add(1) else {
            return Err(AllocError);
        };
        let value = Value::Int(input_at(inputs, source, cursor));
        match go_on_at(&mut self.threads, place, next, count, &[value]) {
            Ok(()) => {
                set(&mut self.cursors, source.number() as usize, more);
                Ok(Moved::Went(None))
            }
            Err(memory) => Err(memory),
        }
    }

    fn apply_call(
        &mut self,
        alloc: Global,
        setting: &Setting<'_>,
        place: usize,
        next: u32,
        count: u32,
        invoked: &Invoked,
    ) -> Result<Moved, Memory>
        ensures { StepsAt (state_of self.old) (state_of self.new) place (λ f below. invoked_step setting.now.program.now setting.now.inputs.now (state_of self.old) place f below next (drop count f.stack) (Some (invoked_of (values_of count f) invoked.now))) result }
    {
        match invoked {
            Invoked::Enters(method) => self.enter(alloc, setting.program, place, count, *method),
            Invoked::Begins(object, method) => {
                self.begin(alloc, setting.program, place, next, count, *object, *method)
            }
            Invoked::Joins(_) => {
                jump_at(&mut self.threads, place, next, count);
                Ok(Moved::Went(None))
            }
            Invoked::Asks(source) => self.ask(setting.inputs, place, next, count, *source),
            Invoked::Shows(sink, value) => {
                jump_at(&mut self.threads, place, next, count);
                Ok(Moved::Went(Some(Event::Out {
                    sink: *sink,
                    value: *value,
                })))
            }
            Invoked::Releases(method, value) => {
                let event = Event::Release {
                    method: *method,
                    value: *value,
                };
                self.go_on(place, next, count, &[Value::Int(*value)], Some(event))
            }
            Invoked::Fails(cause) => self.raise(alloc, setting.program, place, *cause),
        }
    }

    /// A call, with the pc behind it.
    pub(crate) fn call(
        &mut self,
        alloc: Global,
        setting: &Setting<'_>,
        place: usize,
        next: u32,
        call: &Call<'_>,
        count: u32,
    ) -> Result<Moved, Memory>
        requires ready { IsReady setting.now }
        requires from { (f : OfFrame) (below : List OfFrame) → HasTop (state_of self.old).threads place f below → IsCallFrom setting.now.program.now f call.now }
        ensures { StepsAt (state_of self.old) (state_of self.new) place (λ f below. call_step setting.now.program.now setting.now.labels.now setting.now.inputs.now (state_of self.old) place f below next call.now.op call.now.owner.now call.now.method (popped count f.stack)) result }
    {
        match self.invoked_at(setting, place, call, count) {
            Some(invoked) => self.apply_call(alloc, setting, place, next, count, &invoked),
            None => Ok(Moved::Stuck),
        }
    }
}
