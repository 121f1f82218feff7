//! The text of a trace.
ghost use Rattle.std.specs.Prelude.{◌≡◌, ◌++◌, OnOk, IfOk};
ghost use Rattle.std.specs.List.{flat_map};
ghost use Rattle.joana_top.specs.Traces;

use jo_ids::MethodId;
use jo_prog::program::Program;
use jo_prog::runs::{Event, Trace};
use jo_prog::spelling::push_method;
use std::alloc::{AllocError as Memory, Global};

/// Adds a line: a word, a method and a value.
fn push_line(
    alloc: Global,
    out: &mut Vec<u8>,
    program: &Program,
    word: &[u8],
    method: MethodId,
    value: i32,
) -> Result<(), Memory>
    ensures { OnOk result (out.new.items ≡ out.old.items ++ Traces.shown_line program.now word.now method value) }
{
    out.extend_from_slice(word)?;
    push_method(out, program, method)?;
    out.push(b' ')?;
    let digits = value.to_string(alloc)?;
    out.extend_from_slice(digits.as_bytes())?;
    out.push(b'\n')?;
    Ok(())
}

/// Adds the line of an event.
fn push_event(
    alloc: Global,
    out: &mut Vec<u8>,
    program: &Program,
    event: &Event,
) -> Result<(), Memory>
    ensures { OnOk result (out.new.items ≡ out.old.items ++ Traces.event_line program.now event.now) }
{
    match event {
        Event::Out { sink, value } => push_line(alloc, out, program, b"out ", *sink, *value),
        Event::Release { method, value } => {
            push_line(alloc, out, program, b"release ", *method, *value)
        }
    }
}

fn push_events(
    alloc: Global,
    out: &mut Vec<u8>,
    program: &Program,
    events: &[Event],
) -> Result<(), Memory>
    ensures { OnOk result (out.new.items ≡ out.old.items ++ flat_map (Traces.event_line program.now) events.now) }
{
    for event in events {
        push_event(alloc, out, program, event)?;
    }
    Ok(())
}

/// The text of a trace.
pub fn trace_text(alloc: Global, program: &Program, trace: &Trace) -> Result<Vec<u8>, Memory>
    ensures { IfOk result (λ text. text.items ≡ Traces.trace_text program.now trace.now) }
{
    let mut text = Vec::new(alloc);
    push_events(alloc, &mut text, program, trace.events.as_slice())?;
    if trace.ended {
        text.extend_from_slice(b"ended\n")?;
    } else {
        text.extend_from_slice(b"not ended\n")?;
    }
    Ok(text)
}
