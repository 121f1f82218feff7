//! Frames.
ghost use Rattle.std.specs.Prelude.{◌≡◌, ◌≤◌, ◌-◌, length, ◌++◌, ◌∷◌, [], Some, None, take, replicate, drop, map, reverse, option_map, slice_get, slice_set, IfOk, OnOk, OnErr};
ghost use Rattle.jo_prog.specs.Values.{ref};
ghost use Rattle.jo_prog.specs.Machine.{popped, fetched_local};
ghost use Rattle.machine.specs.Steps;
ghost use Rattle.machine.specs.Steps.{new_frame};
ghost use Rattle.jvm_values.specs.Values.{value_of, popped_values};
ghost use Rattle.jvm_frames.specs.Frames.{frame_of, gone_on, without, with_put, with_only, with_result, calling};

use jo_ids::{Memory, MethodId};
use jo_prog::program::{Program, code_at};
use jvm_values::{Address, Value};
use std::alloc::Global;

/// A method that runs: its pc, its locals, of which some aren't set, and its stack, the top last.
#[derive(Drop)]
pub struct Frame {
    pub method: MethodId,
    pub pc: u32,
    pub locals: Vec<Option<Value>>,
    pub stack: Vec<Value>,
}

fn set_locals(alloc: Global, count: usize, values: &[Value]) -> Result<Vec<Option<Value>>, Memory>
    ensures { IfOk result (λ locals. locals.items ≡ map (λ v. Some v) values.now) }
{
    let mut locals = Vec::with_capacity(alloc, count)?;
    for value in values {
        locals.push(Some(*value))?;
    }
    Ok(locals)
}

/// Makes so many locals of those that are set.
fn fill(locals: &mut Vec<Option<Value>>, count: usize) -> Result<(), Memory>
    ensures { OnOk result (locals.new.items ≡ take count locals.old.items ++ replicate (count - length locals.old.items) None) }
{
    locals.resize(count, None)?;
    Ok(())
}

/// The locals of a method that has so many and begins with these values.
fn locals_of(alloc: Global, count: usize, values: &[Value]) -> Result<Vec<Option<Value>>, Memory>
    ensures { IfOk result (λ locals. map (option_map value_of) locals.items ≡ Steps.locals_of count (map value_of values.now)) }
{
    let mut locals = set_locals(alloc, count, values)?;
    fill(&mut locals, count)?;
    Ok(locals)
}

/// Sets an item, where its place is in the list.
fn set<T: Drop>(items: &mut Vec<T>, place: usize, item: T)
    ensures { items.new.items ≡ slice_set items.old.items place item }
{
    if place < items.len() {
        items[place] = item;
    }
}

/// Takes so many values off a stack.
fn drop_values(stack: &mut Vec<Value>, count: usize)
    ensures { popped_values stack.new.items ≡ drop count (popped_values stack.old.items) }
{
    let below = stack.len().saturating_sub(count);
    stack.truncate(below);
}

/// Puts these values, the top last, in the place of so many. A refusal leaves the stack as it was.
fn replace(stack: &mut Vec<Value>, count: usize, values: &[Value]) -> Result<(), Memory>
    ensures ok { OnOk result (popped_values stack.new.items ≡ popped_values values.now ++ drop count (popped_values stack.old.items)) }
    ensures err { OnErr result (stack.new.items ≡ stack.old.items) }
{
    stack.reserve(values.len())?;
    let below = stack.len().saturating_sub(count);
    stack.truncate(below);
    stack.extend_from_slice(values)?;
    Ok(())
}

/// So many values at the end.
fn last_values(values: &[Value], count: usize) -> &[Value]
    requires { count ≤ length values.now }
    ensures { result.now ≡ drop (length values.now - count) values.now }
{
    values.split_at(values.len() - count).1
}

impl Frame {
    /// The frame of a method that begins with these values. `None` where it has no code.
    pub fn begin(
        alloc: Global,
        program: &Program,
        method: MethodId,
        values: &[Value],
    ) -> Result<Option<Frame>, Memory>
        ensures { IfOk result (λ frame. option_map frame_of frame ≡ new_frame program.now method (map value_of values.now)) }
    {
        let Some(code) = code_at(program, method) else {
            return Ok(None);
        };
        let locals = locals_of(alloc, usize::from(code.max_locals), values)?;
        Ok(Some(Frame {
            method,
            pc: 0,
            locals,
            stack: Vec::new(alloc),
        }))
    }

    /// So many values from the top of the stack, the top last.
    pub fn popped(&self, count: u32) -> Option<&[Value]>
        ensures { option_map (λ values. (popped_values values.now, drop count (frame_of self.now).stack)) result ≡ popped count (frame_of self.now).stack }
    {
        let count = count as usize;
        if self.stack.len() < count {
            return None;
        }
        Some(last_values(self.stack.as_slice(), count))
    }

    /// The value of a local.
    pub fn local(&self, local: u16) -> Option<Value>
        ensures { option_map (λ value. (value_of value ∷ [], (frame_of self.now).stack)) result ≡ fetched_local (slice_get (frame_of self.now).locals local) (frame_of self.now).stack }
    {
        *self.locals.get(usize::from(local))?
    }

    /// Goes on at a pc with these values, the top last, in the place of so many. A refusal leaves the frame as it was.
    pub fn go_on(&mut self, pc: u32, count: u32, values: &[Value]) -> Result<(), Memory>
        ensures ok { OnOk result (frame_of self.new ≡ gone_on pc count (popped_values values.now) (frame_of self.old)) }
        ensures err { OnErr result (frame_of self.new ≡ frame_of self.old) }
    {
        replace(&mut self.stack, count as usize, values)?;
        self.pc = pc;
        Ok(())
    }

    /// Goes on at a pc without so many values.
    pub fn jump(&mut self, pc: u32, count: u32)
        ensures { frame_of self.new ≡ without pc count (frame_of self.old) }
    {
        drop_values(&mut self.stack, count as usize);
        self.pc = pc;
    }

    /// Goes on at a pc without so many values, with a value in a local.
    pub fn put(&mut self, pc: u32, count: u32, local: u16, value: Value)
        ensures { frame_of self.new ≡ with_put pc count local (value_of value) (frame_of self.old) }
    {
        drop_values(&mut self.stack, count as usize);
        set(&mut self.locals, usize::from(local), Some(value));
        self.pc = pc;
    }

    /// Goes on at a handler with the exception alone. A refusal leaves the frame as it was.
    pub fn catch(&mut self, handler: u32, exception: Address) -> Result<(), Memory>
        ensures ok { OnOk result (frame_of self.new ≡ with_only handler (ref exception ∷ []) (frame_of self.old)) }
        ensures err { OnErr result (frame_of self.new ≡ frame_of self.old) }
    {
        let count = self.stack.len();
        replace(&mut self.stack, count, &[Value::Ref(exception)])?;
        self.pc = handler;
        Ok(())
    }

    /// Goes on at a pc with the result of a call. A refusal leaves the frame as it was.
    pub fn resume(&mut self, pc: u32, given: Option<Value>) -> Result<(), Memory>
        ensures ok { OnOk result (frame_of self.new ≡ with_result pc (option_map value_of given) (frame_of self.old)) }
        ensures err { OnErr result (frame_of self.new ≡ frame_of self.old) }
    {
        if let Some(value) = given {
            replace(&mut self.stack, 0, &[value])?;
        }
        self.pc = pc;
        Ok(())
    }

    /// Stays at its call without so many values.
    pub fn call(&mut self, count: u32)
        ensures { frame_of self.new ≡ calling count (frame_of self.old) }
    {
        drop_values(&mut self.stack, count as usize);
    }
}
