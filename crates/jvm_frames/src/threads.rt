//! Threads.
ghost use Rattle.std.specs.Prelude.{◌≡◌, ◌∷◌, [], drop, Some, None, option_map, slice_get, IfOk, OnOk, OnErr};
ghost use Rattle.std.specs.Option.{option_copied};
ghost use Rattle.jo_prog.specs.Runs as runs;
ghost use Rattle.jo_prog.specs.Values.{ref};
ghost use Rattle.jvm_values.specs.Values.{value_of, popped_values};
ghost use Rattle.jvm_frames.specs.Frames.{frame_of, frames_of, thread_of, entered, thread_with, with_top, with_second, on_top, on_second, gone_on, without, with_put, with_only, with_result, calling};

use crate::frames::Frame;
use jo_ids::Memory;
use jvm_values::{Address, Value};
use std::alloc::{AllocError, Global};

/// The frames, the top one last, the exception that is on its way, and the thread object, which the first thread hasn't.
#[derive(Drop)]
pub struct Thread {
    pub frames: Vec<Frame>,
    pub pending: Option<Address>,
    pub object: Option<Address>,
}

/// The top frame goes on at a pc with these values in the place of so many.
fn go_on_top(frames: &mut Vec<Frame>, pc: u32, count: u32, values: &[Value]) -> Result<(), Memory>
    ensures ok { OnOk result (frames_of frames.new.items ≡ on_top (gone_on pc count (popped_values values.now)) (frames_of frames.old.items)) }
    ensures err { OnErr result (frames_of frames.new.items ≡ frames_of frames.old.items) }
{
    let height = frames.len();
    if height == 0 {
        return Ok(());
    }
    let frame = &mut frames[height - 1];
    frame.go_on(pc, count, values)?;
    Ok(())
}

/// The top frame goes on at a pc without so many values.
fn jump_top(frames: &mut Vec<Frame>, pc: u32, count: u32)
    ensures { frames_of frames.new.items ≡ on_top (without pc count) (frames_of frames.old.items) }
{
    let height = frames.len();
    if height > 0 {
        let frame = &mut frames[height - 1];
        frame.jump(pc, count);
    }
}

/// The same, with a value in a local.
fn put_top(frames: &mut Vec<Frame>, pc: u32, count: u32, local: u16, value: Value)
    ensures { frames_of frames.new.items ≡ on_top (with_put pc count local (value_of value)) (frames_of frames.old.items) }
{
    let height = frames.len();
    if height > 0 {
        let frame = &mut frames[height - 1];
        frame.put(pc, count, local, value);
    }
}

/// The top frame goes on at a handler with the exception alone.
fn catch_top(frames: &mut Vec<Frame>, handler: u32, exception: Address) -> Result<(), Memory>
    ensures ok { OnOk result (frames_of frames.new.items ≡ on_top (with_only handler (ref exception ∷ [])) (frames_of frames.old.items)) }
    ensures err { OnErr result (frames_of frames.new.items ≡ frames_of frames.old.items) }
{
    let height = frames.len();
    if height == 0 {
        return Ok(());
    }
    let frame = &mut frames[height - 1];
    frame.catch(handler, exception)?;
    Ok(())
}

/// The frame below the top one goes on at a pc with the result of its call.
fn resume_second(frames: &mut Vec<Frame>, pc: u32, given: Option<Value>) -> Result<(), Memory>
    ensures ok { OnOk result (frames_of frames.new.items ≡ on_second (with_result pc (option_map value_of given)) (frames_of frames.old.items)) }
    ensures err { OnErr result (frames_of frames.new.items ≡ frames_of frames.old.items) }
{
    let height = frames.len();
    if height < 2 {
        return Ok(());
    }
    let frame = &mut frames[height - 2];
    frame.resume(pc, given)?;
    Ok(())
}

/// The frame below the top one stays at its call without so many values.
fn call_second(frames: &mut Vec<Frame>, count: u32)
    ensures { frames_of frames.new.items ≡ on_second (calling count) (frames_of frames.old.items) }
{
    let height = frames.len();
    if height >= 2 {
        let frame = &mut frames[height - 2];
        frame.call(count);
    }
}

/// Puts a frame on top.
fn push_top(frames: &mut Vec<Frame>, frame: Frame) -> Result<(), Memory>
    ensures ok { OnOk result (frames_of frames.new.items ≡ frame_of frame ∷ frames_of frames.old.items) }
    ensures err { OnErr result (frames_of frames.new.items ≡ frames_of frames.old.items) }
{
    match frames.push(frame) {
        Ok(()) => Ok(()),
        Err(_) => Err(AllocError),
    }
}

/// Drops the top frame.
fn pop_top(frames: &mut Vec<Frame>)
    ensures { frames_of frames.new.items ≡ drop 1 (frames_of frames.old.items) }
{
    frames.pop();
}

impl Thread {
    /// The thread of an object, with one frame.
    pub fn begin(alloc: Global, frame: Frame, object: Option<Address>) -> Result<Thread, Memory>
        ensures { IfOk result (λ thread. thread_of thread ≡ record { frames = frame_of frame ∷ []; pending = None; object = object }) }
    {
        let mut frames = Vec::new(alloc);
        match frames.push(frame) {
            Ok(()) => Ok(Thread {
                frames,
                pending: None,
                object,
            }),
            Err(_) => Err(AllocError),
        }
    }

    /// Whether it has a frame.
    pub fn is_alive(&self) -> bool
        ensures { result ≡ runs.is_alive (thread_of self.now) }
    {
        !self.frames.is_empty()
    }

    /// The frame on top.
    pub fn top(&self) -> Option<&Frame>
        ensures { option_map (λ f. frame_of f.now) result ≡ slice_get (thread_of self.now).frames 0 }
    {
        self.frames.last()
    }

    /// The frame below that on top.
    pub fn second(&self) -> Option<&Frame>
        ensures { option_map (λ f. frame_of f.now) result ≡ slice_get (thread_of self.now).frames 1 }
    {
        let height = self.frames.len();
        if height < 2 {
            return None;
        }
        Some(&self.frames[height - 2])
    }

    /// The top frame goes on at a pc with these values, the top last, in the place of so many. A refusal leaves the thread as it was.
    pub fn go_on(&mut self, pc: u32, count: u32, values: &[Value]) -> Result<(), Memory>
        ensures ok { OnOk result (thread_of self.new ≡ with_top (thread_of self.old) (gone_on pc count (popped_values values.now))) }
        ensures err { OnErr result (thread_of self.new ≡ thread_of self.old) }
    {
        go_on_top(&mut self.frames, pc, count, values)?;
        self.pending = None;
        Ok(())
    }

    /// The top frame goes on at a pc without so many values.
    pub fn jump(&mut self, pc: u32, count: u32)
        ensures { thread_of self.new ≡ with_top (thread_of self.old) (without pc count) }
    {
        jump_top(&mut self.frames, pc, count);
        self.pending = None;
    }

    /// The same, with a value in a local.
    pub fn put(&mut self, pc: u32, count: u32, local: u16, value: Value)
        ensures { thread_of self.new ≡ with_top (thread_of self.old) (with_put pc count local (value_of value)) }
    {
        put_top(&mut self.frames, pc, count, local, value);
        self.pending = None;
    }

    /// The top frame goes on at a handler with the exception alone. A refusal leaves the thread as it was.
    pub fn catch(&mut self, handler: u32, exception: Address) -> Result<(), Memory>
        ensures ok { OnOk result (thread_of self.new ≡ with_top (thread_of self.old) (with_only handler (ref exception ∷ []))) }
        ensures err { OnErr result (thread_of self.new ≡ thread_of self.old) }
    {
        catch_top(&mut self.frames, handler, exception)?;
        self.pending = None;
        Ok(())
    }

    /// An exception is on its way.
    pub fn throw(&mut self, exception: Address)
        ensures { thread_of self.new ≡ thread_with (thread_of self.old) (thread_of self.old).frames (Some exception) }
    {
        self.pending = Some(exception);
    }

    /// The top frame is dropped, and what was on its way is so still.
    pub fn leave(&mut self)
        ensures { thread_of self.new ≡ thread_with (thread_of self.old) (drop 1 (thread_of self.old).frames) (thread_of self.old).pending }
    {
        pop_top(&mut self.frames);
    }

    /// The top frame is dropped, and the one below goes on at a pc with the result. A refusal leaves the thread as it was.
    pub fn return_to(&mut self, pc: u32, given: Option<Value>) -> Result<(), Memory>
        ensures ok { OnOk result (thread_of self.new ≡ with_second (thread_of self.old) (with_result pc (option_map value_of given))) }
        ensures err { OnErr result (thread_of self.new ≡ thread_of self.old) }
    {
        resume_second(&mut self.frames, pc, given)?;
        pop_top(&mut self.frames);
        self.pending = None;
        Ok(())
    }

    /// A frame comes on top of the one that calls, which loses so many values. A refusal leaves the thread as it was.
    pub fn enter(&mut self, count: u32, frame: Frame) -> Result<(), Memory>
        ensures ok { OnOk result (thread_of self.new ≡ entered (thread_of self.old) (frame_of frame) (calling count)) }
        ensures err { OnErr result (thread_of self.new ≡ thread_of self.old) }
    {
        push_top(&mut self.frames, frame)?;
        call_second(&mut self.frames, count);
        self.pending = None;
        Ok(())
    }
}
