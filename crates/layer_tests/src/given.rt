//! What the tests are given, and plain forms of what they look at.
ghost use Rattle.std.specs.Prelude.{◌≡◌, IfOk, ◌++◌, ◌∷◌, [], OnOk};
ghost use Rattle.layer_tests.specs.Given.{word_of, level_of, listed, shown_of};

use jo_ids::{Id, List, Memory, MethodId};
use jo_prog::labels::Label;
use jo_prog::runs::{Event, SourceInput, Trace};
use std::alloc::Global;

/// A labelled method by its number, the word of its label and the number of its level.
pub fn plain(item: &(MethodId, Label)) -> (u32, &'static str, u32)
    ensures method { result.0 ≡ item.now.0 }
    ensures word { result.1.now ≡ word_of item.now.1 }
    ensures level { result.2 ≡ level_of item.now.1 }
{
    match item.1 {
        Label::Source(level) => (item.0.number(), "source", level.number()),
        Label::Sink(level) => (item.0.number(), "sink", level.number()),
        Label::Release { from, to: _ } => (item.0.number(), "release", from.number()),
    }
}

pub fn add<T: Drop>(list: &mut List<T>, item: T) -> Result<(), Memory>
    ensures { OnOk result (list.new ≡ list.old ++ item ∷ []) }
{
    match list.push(item) {
        Ok(()) => Ok(()),
        Err((_item, memory)) => Err(memory),
    }
}

/// A source gives the int, if there is one.
pub fn gives(alloc: Global, source: u32, value: Option<i32>) -> Result<SourceInput, Memory>
    ensures { IfOk result (λ input. input ≡ record { source = source; values = listed value }) }
{
    let mut values = List::new(alloc);
    if let Some(value) = value {
        add(&mut values, value)?;
    }
    Ok(SourceInput {
        source: Id::of(source),
        values,
    })
}

/// What a trace shows, if it is at most one event: the sink's number and the int.
pub fn shown(trace: &Trace) -> Option<Option<(u32, i32)>>
    ensures { result ≡ shown_of trace.now.events }
{
    match trace.events.as_slice() {
        [] => Some(None),
        [Event::Out { sink, value }] => Some(Some((sink.number(), *value))),
        _ => None,
    }
}
