//! Runs a program: one thread, whose code calls labelled natives alone.
ghost use Rattle.std.specs.Prelude.{◌≡◌, ℕ, ◌+◌, ◌<◌, ◌≤◌, ◌^◌, List, false, Some, All, IfOk, IfSome, IfNone, OnOk, ◌++◌, ◌∷◌, [], length, reverse, slice_get, slice_set, None};
ghost use Rattle.std.specs.Option.{option_flatten, option_to_list};
ghost use Rattle.jo_prog.specs.declared.operations.Operation.TheVariants.{Constant, Load, Store, Add, Subtract, Return};
ghost use Rattle.jo_prog.specs.declared.labels.Label.TheVariants.{Source, Sink, Release};
ghost use Rattle.jo_prog.specs.declared.runs.SourceInput.{SourceInput};
ghost use Rattle.jo_prog.specs.Labels.{label_of};
ghost use Rattle.jo_prog.specs.declared.runner.Slot.TheVariants.{Int};
ghost use Rattle.jo_prog.specs.declared.program.Program.{Program};
ghost use Rattle.jo_prog.specs.Constants.{takes_arguments, arguments_address};
ghost use Rattle.jo_prog.specs.Machine.{first_locals, input_at, start, step};
ghost use Rattle.jo_prog.specs.Program.{method_at};
ghost use Rattle.jo_prog.specs.Runs.{unmoved, advanced, run};
ghost use Rattle.jo_prog.specs.Running.{locals_of, one_int, two_ints, state_of, showing, Executes, Calls};

use crate::labels::{Label, Labels, label_of};
use crate::lists::add;
use crate::operations::Operation;
use crate::program::{Program, callee_of, code_at, method_at, operation_in};
use crate::runs::{Event, Inputs, SourceInput, Trace};
use jo_ids::{List, Memory, MethodId};
use std::alloc::Global;

/// What a local or a place of the stack holds: an int, or a reference to the array that the entry took.
#[derive(Clone, Copy)]
enum Slot {
    Int(i32),
    Arguments,
}

/// The state of a run: the frame of its one thread, and for each method how many ints it has given as a source.
#[derive(Drop)]
struct RunState {
    method: MethodId,
    pc: usize,
    locals: Vec<Option<Slot>>,
    stack: Vec<Slot>,
    has_ended: bool,
    cursors: Vec<usize>,
}

/// The int that a source gives at a place of its list, 0 behind its end.
fn input_at(inputs: &[SourceInput], source: MethodId, place: usize) -> i32
    ensures { result ≡ input_at inputs.now source place }
{
    for input in inputs {
        if input.source == source {
            return input.values.as_slice().get(place).copied().unwrap_or(0);
        }
    }
    0
}

/// Sets an item, where its place is in the list.
fn set<T: Drop>(items: &mut Vec<T>, place: usize, item: T)
    ensures { items.new.items ≡ slice_set items.old.items place item }
{
    if place < items.len() {
        items[place] = item;
    }
}

/// The int on the stack's top, taken off it, where one is there.
fn pop_int(stack: &mut Vec<Slot>) -> Option<i32>
    ensures int { IfSome result (λ value. stack.old.items ≡ stack.new.items ++ Int value ∷ []) }
    ensures other { IfNone result (one_int (reverse stack.old.items) ≡ None) }
    ensures same { IfNone result (stack.new.items ≡ stack.old.items) }
{
    let Slot::Int(value) = *stack.last()? else {
        return None;
    };
    stack.pop();
    Some(value)
}

/// The two ints on the stack's top, taken off it, where two are there. The last one was the top.
fn pop_two(stack: &mut Vec<Slot>) -> Option<(i32, i32)>
    ensures two { IfSome result (λ ints. stack.old.items ≡ stack.new.items ++ Int ints.0 ∷ Int ints.1 ∷ []) }
    ensures other { IfNone result (two_ints (reverse stack.old.items) ≡ None) }
    ensures same { IfNone result (stack.new.items ≡ stack.old.items) }
{
    let [.., Slot::Int(first), Slot::Int(second)] = *stack.as_slice() else {
        return None;
    };
    stack.pop();
    stack.pop();
    Some((first, second))
}

/// Whether a method has the descriptor of an entry that takes an array of strings.
pub fn takes_arguments(program: &Program, method: MethodId) -> bool
    ensures { result ≡ takes_arguments (method_at program.now method) }
{
    match method_at(program, method) {
        Some(method) => method.desc.as_slice() == b"([Ljava/lang/String;)V".as_slice(),
        None => false,
    }
}

/// The locals of an entry that has so many.
fn first_locals(
    alloc: Global,
    has_arguments: bool,
    count: usize,
) -> Result<Vec<Option<Slot>>, Memory>
    ensures { IfOk result (λ locals. (program : Program) → locals_of program locals.items ≡ first_locals has_arguments count (arguments_address program)) }
{
    let mut locals = vec![in alloc; None; count]?;
    if !has_arguments {
        return Ok(locals);
    }
    set(&mut locals, 0, Some(Slot::Arguments));
    Ok(locals)
}

impl RunState {
    fn at_start(alloc: Global, program: &Program, labels: &Labels) -> Result<RunState, Memory>
        ensures state { IfOk result (λ r. state_of program.now labels.now r ≡ start program.now labels.now) }
        ensures cursors { IfOk result (λ r. All (λ c. c ≤ 0) r.cursors.items) }
    {
        let cursors = vec![in alloc; 0; program.methods.as_slice().len()]?;
        match code_at(program, labels.entry) {
            Some(code) => Ok(RunState {
                method: labels.entry,
                pc: 0,
                locals: first_locals(
                    alloc,
                    takes_arguments(program, labels.entry),
                    usize::from(code.max_locals),
                )?,
                stack: Vec::new(alloc),
                has_ended: false,
                cursors,
            }),
            None => Ok(RunState {
                method: labels.entry,
                pc: 0,
                locals: Vec::new(alloc),
                stack: Vec::new(alloc),
                has_ended: true,
                cursors,
            }),
        }
    }

    // ---- an operation that is no call

    fn constant(&mut self, value: i32, next: usize) -> Result<(), Memory>
        requires { self.old.has_ended ≡ false }
        ensures { OnOk result (Executes self.old next (Constant value) self.new) }
    {
        self.stack.push(Slot::Int(value))?;
        self.pc = next;
        Ok(())
    }

    fn local(&self, local: u16) -> Option<Slot>
        ensures { result ≡ option_flatten (slice_get self.now.locals.items local) }
    {
        *self.locals.get(usize::from(local))?
    }

    fn load(&mut self, local: u16, next: usize) -> Result<(), Memory>
        requires { self.old.has_ended ≡ false }
        ensures { OnOk result (Executes self.old next (Load local) self.new) }
    {
        if let Some(value) = self.local(local) {
            self.stack.push(value)?;
            self.pc = next;
        }
        Ok(())
    }

    fn store(&mut self, local: u16, next: usize)
        requires { self.old.has_ended ≡ false }
        ensures { Executes self.old next (Store local) self.new }
    {
        if let Some(value) = self.stack.pop() {
            set(&mut self.locals, usize::from(local), Some(value));
            self.pc = next;
        }
    }

    fn add(&mut self, next: usize) -> Result<(), Memory>
        requires { self.old.has_ended ≡ false }
        ensures { OnOk result (Executes self.old next Add self.new) }
    {
        if let Some((x, y)) = pop_two(&mut self.stack) {
            self.stack.push(Slot::Int(x.wrapping_add(y)))?;
            self.pc = next;
        }
        Ok(())
    }

    fn subtract(&mut self, next: usize) -> Result<(), Memory>
        requires { self.old.has_ended ≡ false }
        ensures { OnOk result (Executes self.old next Subtract self.new) }
    {
        if let Some((x, y)) = pop_two(&mut self.stack) {
            self.stack.push(Slot::Int(x.wrapping_sub(y)))?;
            self.pc = next;
        }
        Ok(())
    }

    fn end(&mut self)
        requires { self.old.has_ended ≡ false }
        ensures { (next : ℕ) → Executes self.old next Return self.new }
    {
        self.has_ended = true;
    }

    fn execute(&mut self, operation: Operation, next: usize) -> Result<(), Memory>
        requires { self.old.has_ended ≡ false }
        ensures { OnOk result (Executes self.old next operation self.new) }
    {
        match operation {
            Operation::Constant(value) => self.constant(value, next)?,
            Operation::Load(local) => self.load(local, next)?,
            Operation::Store(local) => self.store(local, next),
            Operation::Add => self.add(next)?,
            Operation::Subtract => self.subtract(next)?,
            Operation::Return => self.end(),
            Operation::InvokeStatic(_) | Operation::Other => {}
        }
        Ok(())
    }

    // ---- a call

    fn give(&mut self, inputs: &[SourceInput], source: MethodId, next: usize) -> Result<(), Memory>
        requires runs { self.old.has_ended ≡ false }
        requires cursors { All (λ c. c + 1 < 2 ^ 64) self.old.cursors.items }
        ensures { OnOk result ((level : ℕ) → Calls inputs.now self.old next source (Some (Source level)) self.new None) }
    {
        let method = source.number() as usize;
        let place = self.cursors.get(method).copied().unwrap_or(0);
        self.stack.push(Slot::Int(input_at(inputs, source, place)))?;
        set(&mut self.cursors, method, place + 1);
        self.pc = next;
        Ok(())
    }

    fn show(&mut self, sink: MethodId, next: usize) -> Option<Event>
        requires { self.old.has_ended ≡ false }
        ensures { (inputs : List SourceInput) (level : ℕ) → Calls inputs self.old next sink (Some (Sink level)) self.new result }
    {
        let value = pop_int(&mut self.stack)?;
        self.pc = next;
        Some(Event::Out { sink, value })
    }

    fn release(&mut self, method: MethodId, next: usize) -> Option<Event>
        requires { self.old.has_ended ≡ false }
        ensures { (inputs : List SourceInput) (from to : ℕ) → Calls inputs self.old next method (Some (Release from to)) self.new result }
    {
        let Slot::Int(value) = *self.stack.last()? else {
            return None;
        };
        self.pc = next;
        Some(Event::Release { method, value })
    }

    fn call(
        &mut self,
        labels: &Labels,
        inputs: &[SourceInput],
        method: MethodId,
        next: usize,
    ) -> Result<Option<Event>, Memory>
        requires runs { self.old.has_ended ≡ false }
        requires cursors { All (λ c. c + 1 < 2 ^ 64) self.old.cursors.items }
        ensures { IfOk result (λ event. Calls inputs.now self.old next method (label_of labels.now method) self.new event) }
    {
        match label_of(labels, method) {
            Some(Label::Source(_)) => {
                self.give(inputs, method, next)?;
                Ok(None)
            }
            Some(Label::Sink(_)) => Ok(self.show(method, next)),
            Some(Label::Release { .. }) => Ok(self.release(method, next)),
            None => Ok(None),
        }
    }

    // ---- steps

    /// One step of the thread. Where it has none nothing changes.
    fn step(
        &mut self,
        program: &Program,
        labels: &Labels,
        inputs: &[SourceInput],
    ) -> Result<Option<Event>, Memory>
        requires runs { self.old.has_ended ≡ false }
        requires cursors { All (λ c. c + 1 < 2 ^ 64) self.old.cursors.items }
        ensures { IfOk result (λ event. unmoved (state_of program.now labels.now self.old) (step program.now labels.now inputs.now (state_of program.now labels.now self.old) 0) ≡ showing program.now labels.now self.new event) }
    {
        let Some(code) = code_at(program, self.method) else {
            return Ok(None);
        };
        let Some((operation, next)) = operation_in(code, self.pc) else {
            return Ok(None);
        };
        if let Operation::InvokeStatic(_) = operation {
            match callee_of(program, self.method, operation) {
                Some(method) => self.call(labels, inputs, method, next),
                None => Ok(None),
            }
        } else {
            self.execute(operation, next)?;
            Ok(None)
        }
    }

    /// What a number of the schedule does. There is one thread, so every number picks it.
    fn advance(
        &mut self,
        program: &Program,
        labels: &Labels,
        inputs: &[SourceInput],
    ) -> Result<Option<Event>, Memory>
        requires { All (λ c. c + 1 < 2 ^ 64) self.old.cursors.items }
        ensures { IfOk result (λ event. (number : ℕ) → advanced program.now labels.now inputs.now (state_of program.now labels.now self.old) number ≡ showing program.now labels.now self.new event) }
    {
        if self.has_ended {
            return Ok(None);
        }
        self.step(program, labels, inputs)
    }
}

fn add_shown(events: &mut List<Event>, shown: Option<Event>) -> Result<(), Memory>
    ensures { OnOk result (events.new ≡ events.old ++ option_to_list shown) }
{
    match shown {
        Some(event) => add(events, event),
        None => Ok(()),
    }
}

/// The run of a program with these inputs and this schedule.
pub fn run(
    alloc: Global,
    program: &Program,
    labels: &Labels,
    inputs: &Inputs,
    schedule: &[u32],
) -> Result<Trace, Memory>
    ensures { IfOk result (λ trace. trace ≡ run program.now labels.now inputs.now schedule.now) }
{
    let mut state = RunState::at_start(alloc, program, labels)?;
    let mut events = List::new(alloc);
    for _number in schedule {
        let shown = state.advance(program, labels, inputs.as_slice())?;
        add_shown(&mut events, shown)?;
    }
    Ok(Trace {
        events,
        ended: state.has_ended,
    })
}
