//! One thread among those of a state.
ghost use Rattle.std.specs.Prelude.{◌≡◌, ℕ, ◌∷◌, [], ◌++◌, List, drop, None, Some, option_map, slice_get, OnOk, OnErr};
ghost use Rattle.jo_prog.specs.Values.{ref};
ghost use Rattle.machine.specs.Steps.{at_pc, with_local};
ghost use Rattle.jvm_values.specs.Values.{value_of, popped_values};
ghost use Rattle.jvm_frames.specs.Frames.{frame_of, thread_of, thread_with, on_top, with_result};
ghost use Rattle.jvm_step.specs.States.{threads_of, frames_at, Reframes};

use jo_ids::Memory;
use jvm_frames::{Frame, Thread};
use jvm_values::{Address, Value};

/// The top frame goes on at a pc with these values, the top last, in the place of so many. A refusal leaves the threads as they were.
pub(crate) fn go_on_at(
    threads: &mut Vec<Thread>,
    place: usize,
    pc: u32,
    count: u32,
    values: &[Value],
) -> Result<(), Memory>
    ensures ok { OnOk result (Reframes (threads_of threads.old.items) (threads_of threads.new.items) place (λ f below. at_pc f pc (popped_values values.now ++ drop count f.stack) ∷ below) None) }
    ensures err { OnErr result (threads_of threads.new.items ≡ threads_of threads.old.items) }
{
    if place >= threads.len() {
        return Ok(());
    }
    let thread = &mut threads[place];
    thread.go_on(pc, count, values)?;
    Ok(())
}

/// The top frame goes on at a pc without so many values.
pub(crate) fn jump_at(threads: &mut Vec<Thread>, place: usize, pc: u32, count: u32)
    ensures { Reframes (threads_of threads.old.items) (threads_of threads.new.items) place (λ f below. at_pc f pc (drop count f.stack) ∷ below) None }
{
    if place < threads.len() {
        let thread = &mut threads[place];
        thread.jump(pc, count);
    }
}

/// The same, with a value in a local.
pub(crate) fn put_at(
    threads: &mut Vec<Thread>,
    place: usize,
    pc: u32,
    count: u32,
    local: u16,
    value: Value,
)
    ensures { Reframes (threads_of threads.old.items) (threads_of threads.new.items) place (λ f below. with_local f pc local (value_of value) (drop count f.stack) ∷ below) None }
{
    if place < threads.len() {
        let thread = &mut threads[place];
        thread.put(pc, count, local, value);
    }
}

/// The top frame goes on at a handler with the exception alone. A refusal leaves the threads as they were.
pub(crate) fn catch_at(
    threads: &mut Vec<Thread>,
    place: usize,
    handler: u32,
    exception: Address,
) -> Result<(), Memory>
    ensures ok { OnOk result (Reframes (threads_of threads.old.items) (threads_of threads.new.items) place (λ f below. at_pc f handler (ref exception ∷ []) ∷ below) None) }
    ensures err { OnErr result (threads_of threads.new.items ≡ threads_of threads.old.items) }
{
    if place >= threads.len() {
        return Ok(());
    }
    let thread = &mut threads[place];
    thread.catch(handler, exception)?;
    Ok(())
}

/// An exception is on its way.
pub(crate) fn throw_at(threads: &mut Vec<Thread>, place: usize, exception: Address)
    ensures { Reframes (threads_of threads.old.items) (threads_of threads.new.items) place (λ f below. f ∷ below) (Some exception) }
{
    if place < threads.len() {
        let thread = &mut threads[place];
        thread.throw(exception);
    }
}

fn leave_with(thread: &mut Thread, exception: Address)
    ensures { thread_of thread.new ≡ thread_with (thread_of thread.old) (drop 1 (thread_of thread.old).frames) (Some exception) }
{
    thread.leave();
    thread.throw(exception);
}

/// The top frame is dropped, and an exception is on its way.
pub(crate) fn leave_at(threads: &mut Vec<Thread>, place: usize, exception: Address)
    ensures { Reframes (threads_of threads.old.items) (threads_of threads.new.items) place (λ f below. below) (Some exception) }
{
    if place < threads.len() {
        let thread = &mut threads[place];
        leave_with(thread, exception);
    }
}

/// The top frame is dropped, and the one below goes on at a pc with the result. A refusal leaves the threads as they were.
pub(crate) fn return_at(
    threads: &mut Vec<Thread>,
    place: usize,
    pc: u32,
    given: Option<Value>,
) -> Result<(), Memory>
    ensures ok { OnOk result (Reframes (threads_of threads.old.items) (threads_of threads.new.items) place (λ f below. on_top (with_result pc (option_map value_of given)) below) None) }
    ensures err { OnErr result (threads_of threads.new.items ≡ threads_of threads.old.items) }
{
    if place >= threads.len() {
        return Ok(());
    }
    let thread = &mut threads[place];
    thread.return_to(pc, given)?;
    Ok(())
}

/// A frame comes on top of the one that calls, which loses so many values. A refusal leaves the threads as they were.
pub(crate) fn enter_at(
    threads: &mut Vec<Thread>,
    place: usize,
    count: u32,
    frame: Frame,
) -> Result<(), Memory>
    ensures ok { OnOk result (Reframes (threads_of threads.old.items) (threads_of threads.new.items) place (λ f below. frame_of frame ∷ at_pc f f.pc (drop count f.stack) ∷ below) None) }
    ensures err { OnErr result (threads_of threads.new.items ≡ threads_of threads.old.items) }
{
    if place >= threads.len() {
        return Ok(());
    }
    let thread = &mut threads[place];
    thread.enter(count, frame)?;
    Ok(())
}

/// The top frame of a thread.
pub(crate) fn top_at(threads: &[Thread], place: usize) -> Option<&Frame>
    ensures { option_map (λ f. frame_of f.now) result ≡ slice_get (frames_at (slice_get (threads_of threads.now) place)) 0 }
{
    threads.get(place)?.top()
}

/// The frame below it.
pub(crate) fn second_at(threads: &[Thread], place: usize) -> Option<&Frame>
    ensures { option_map (λ f. frame_of f.now) result ≡ slice_get (frames_at (slice_get (threads_of threads.now) place)) 1 }
{
    threads.get(place)?.second()
}
