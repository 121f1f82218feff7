//! What an effect does to a state.
ghost use Rattle.std.specs.Prelude.{◌≡◌, ℕ, List, [], ◌∷◌, ◌++◌, length, drop, map, option_map, Some, None, IfOk, OnOk, OnErr, slice_set};
ghost use Rattle.jo_prog.specs.Machine.{Frame as OfFrame};
ghost use Rattle.jo_prog.specs.Values.{object};
ghost use Rattle.machine.specs.Steps.{at_pc, with_frames, raised, applied, resumed, next_pc};
ghost use Rattle.machine.specs.Heaps.{with_content, new_object};
ghost use Rattle.machine.specs.Execution.{allocates};
ghost use Rattle.jvm_values.specs.Values.{value_of, popped_values, info_seen};
ghost use Rattle.jvm_exec.specs.Outcomes.{effect_of, cell_of};
ghost use Rattle.jvm_frames.specs.Frames.{frame_of};
ghost use Rattle.jvm_step.specs.Settings.{IsReady};
ghost use Rattle.jvm_step.specs.States.{state_of, HasTop};
ghost use Rattle.jvm_step.specs.Moves.{StepsAt, IsPcBehind};

use crate::moves::Moved;
use crate::settings::Setting;
use crate::states::State;
use crate::threads::{go_on_at, jump_at, put_at, return_at, second_at, throw_at};
use jo_ids::{ClassId, Memory};
use jo_prog::program::Program;
use jo_prog::runs::Event;
use jo_prog::sites::{Cause, class_raised};
use jo_text::FieldDesc;
use jvm_exec::{Cell, Effect, Write};
use jvm_frames::Frame;
use jvm_values::{Address, Heap, InfoView, Value};
use resolved_insns::resolve_at;
use std::alloc::Global;

/// Sets an item, where its place is in the list.
pub(crate) fn set<T: Drop>(items: &mut Vec<T>, place: usize, item: T)
    ensures { items.new.items ≡ slice_set items.old.items place item }
{
    if place < items.len() {
        items[place] = item;
    }
}

/// The pc behind the instruction at which a frame stands.
fn pc_behind(alloc: Global, setting: &Setting<'_>, frame: &Frame) -> Result<u32, Memory>
    requires { IsReady setting.now }
    ensures { IfOk result (λ pc. pc ≡ next_pc setting.now.program.now (frame_of frame.now)) }
{
    let (program, hierarchy) = (setting.program, setting.hierarchy);
    match setting.instructions.at(frame.method, frame.pc) {
        Some(found) => Ok(found.next),
        None => match resolve_at(
            alloc,
            program,
            hierarchy,
            setting.strings,
            frame.method,
            frame.pc,
        ) {
            Ok(Some(found)) => Ok(found.next),
            Ok(None) => Ok(frame.pc),
            Err(memory) => Err(memory),
        },
    }
}

/// Makes an object of a class. A refusal leaves the heap as it was.
fn create_object(
    heap: &mut Heap,
    alloc: Global,
    program: &Program,
    class: ClassId,
) -> Result<Address, Memory>
    ensures ok { OnOk result (heap.new ≡ heap.old ++ new_object program.now (object class) ∷ []) }
    ensures address { IfOk result (λ address. address ≡ length heap.old) }
    ensures err { OnErr result (heap.new ≡ heap.old) }
{
    // The proof of the loans knows the types of variables alone, and a view lends one of these.
    let _elements: Option<&FieldDesc> = None;
    let info = InfoView::Object(class);
    heap.create(alloc, program, &info)
}

impl State {
    /// The top frame goes on with these values, the top last, in the place of so many.
    pub(crate) fn go_on(
        &mut self,
        place: usize,
        next: u32,
        count: u32,
        values: &[Value],
        event: Option<Event>,
    ) -> Result<Moved, Memory>
        ensures { StepsAt (state_of self.old) (state_of self.new) place (λ f below. Some (record { state = with_frames (state_of self.old) place (at_pc f next (popped_values values.now ++ drop count f.stack) ∷ below) None; event = event })) result }
    {
        match go_on_at(&mut self.threads, place, next, count, values) {
            Ok(()) => Ok(Moved::Went(event)),
            Err(memory) => Err(memory),
        }
    }

    /// An exception that the machine makes is on its way.
    pub(crate) fn raise(
        &mut self,
        alloc: Global,
        program: &Program,
        place: usize,
        cause: Cause,
    ) -> Result<Moved, Memory>
        ensures { StepsAt (state_of self.old) (state_of self.new) place (λ f below. raised program.now (state_of self.old) place (f ∷ below) cause) result }
    {
        match create_object(&mut self.heap, alloc, program, class_raised(cause)) {
            Ok(address) => {
                throw_at(&mut self.threads, place, address);
                Ok(Moved::Went(None))
            }
            Err(memory) => Err(memory),
        }
    }

    /// Makes an object or array, and pushes it.
    fn allocate(
        &mut self,
        alloc: Global,
        program: &Program,
        place: usize,
        next: u32,
        count: u32,
        info: &InfoView<'_>,
    ) -> Result<Moved, Memory>
        ensures { StepsAt (state_of self.old) (state_of self.new) place (λ f below. applied program.now (state_of self.old) place f below next (drop count f.stack) (allocates (info_seen info.now))) result }
    {
        match self.heap.create(alloc, program, info) {
            Ok(address) => {
                let pushed = [Value::Ref(address)];
                match go_on_at(&mut self.threads, place, next, count, &pushed) {
                    Ok(()) => Ok(Moved::Went(None)),
                    Err(memory) => {
                        self.heap.take_back(address);
                        Err(memory)
                    }
                }
            }
            Err(memory) => Err(memory),
        }
    }

    /// Where the frame below the top one goes on after a return.
    fn pc_of_caller(
        &self,
        alloc: Global,
        setting: &Setting<'_>,
        place: usize,
    ) -> Result<u32, Memory>
        requires { IsReady setting.now }
        ensures { IfOk result (λ pc. (f : OfFrame) (below : List OfFrame) → HasTop (state_of self.now).threads place f below → IsPcBehind setting.now.program.now below pc) }
    {
        match second_at(self.threads.as_slice(), place) {
            Some(frame) => {
                let pc = pc_behind(alloc, setting, frame)?;
                Ok(pc)
            }
            None => Ok(0),
        }
    }

    fn return_value(
        &mut self,
        alloc: Global,
        setting: &Setting<'_>,
        place: usize,
        given: Option<Value>,
    ) -> Result<Moved, Memory>
        requires { IsReady setting.now }
        ensures { StepsAt (state_of self.old) (state_of self.new) place (λ f below. Some (record { state = with_frames (state_of self.old) place (resumed setting.now.program.now (option_map value_of given) below) None; event = None })) result }
    {
        match self.pc_of_caller(alloc, setting, place) {
            Ok(pc) => match return_at(&mut self.threads, place, pc, given) {
                Ok(()) => Ok(Moved::Went(None)),
                Err(memory) => Err(memory),
            },
            Err(memory) => Err(memory),
        }
    }

    /// What an effect does to the top frame, which goes on without so many values.
    pub(crate) fn apply(
        &mut self,
        alloc: Global,
        setting: &Setting<'_>,
        place: usize,
        next: u32,
        count: u32,
        effect: &Effect<'_>,
    ) -> Result<Moved, Memory>
        requires { IsReady setting.now }
        ensures { StepsAt (state_of self.old) (state_of self.new) place (λ f below. applied setting.now.program.now (state_of self.old) place f below next (drop count f.stack) (effect_of effect.now)) result }
    {
        match effect {
            Effect::Pushes(pushed) => self.go_on(place, next, count, pushed.as_slice(), None),
            Effect::Puts(local, value) => {
                put_at(&mut self.threads, place, next, count, *local, *value);
                Ok(Moved::Went(None))
            }
            Effect::Jumps(target) => {
                jump_at(&mut self.threads, place, *target, count);
                Ok(Moved::Went(None))
            }
            Effect::Raises(cause) => self.raise(alloc, setting.program, place, *cause),
            Effect::ThrowsAt(exception) => {
                throw_at(&mut self.threads, place, *exception);
                Ok(Moved::Went(None))
            }
            Effect::Allocates(info) => {
                self.allocate(alloc, setting.program, place, next, count, info)
            }
            Effect::Returns(given) => self.return_value(alloc, setting, place, *given),
        }
    }

    /// Writes a cell. Where it isn't there, nothing changes.
    fn write(&mut self, change: &Write)
        ensures state { state_of self.new ≡ with_content (state_of self.old) (cell_of change.now.cell) (value_of change.now.value) }
        ensures threads { self.new.threads ≡ self.old.threads }
    {
        match change.cell {
            Cell::Field(address, field) => self.heap.set_field(address, field, change.value),
            Cell::Element(address, index) => self.heap.set_element(address, index, change.value),
            Cell::Static(field) => set(&mut self.statics, field.number() as usize, change.value),
        }
    }

    /// The top frame goes on without so many values, and a cell is written.
    pub(crate) fn go_on_with(&mut self, place: usize, next: u32, count: u32, change: &Write)
        ensures { (f : OfFrame) (below : List OfFrame) → HasTop (state_of self.old).threads place f below → state_of self.new ≡ with_frames (with_content (state_of self.old) (cell_of change.now.cell) (value_of change.now.value)) place (at_pc f next (drop count f.stack) ∷ below) None }
    {
        self.write(change);
        jump_at(&mut self.threads, place, next, count);
    }
}
