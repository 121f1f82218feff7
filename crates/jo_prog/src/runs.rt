//! What goes into a run and what comes out of it.

use jo_ids::{List, MethodId};

/// The ints that a source gives, in order; 0 for ever after the last.
#[derive(Drop)]
pub struct SourceInput {
    pub source: MethodId,
    pub values: List<i32>,
}

/// Of two items for one source the first counts; a source without an item gives 0 alone.
pub type Inputs = List<SourceInput>;

/// What a run shows: an int at a sink, or the value that a release lets out.
#[derive(Clone, Copy)]
pub enum Event {
    Out { sink: MethodId, value: i32 },
    Release { method: MethodId, value: i32 },
}

/// The events of a run in order. `ended` is true where no thread has a frame.
#[derive(Drop)]
pub struct Trace {
    pub events: List<Event>,
    pub ended: bool,
}
