//! The state of a run.

use jo_ids::MethodId;
use jvm_frames::Thread;
use jvm_values::{Address, Heap, Value};

/// The heap, the static fields by number, for each method how many ints it has given as a source, and the threads in order of start.
#[derive(Drop)]
pub struct State {
    pub(crate) heap: Heap,
    pub(crate) statics: Vec<Value>,
    pub(crate) cursors: Vec<u64>,
    pub(crate) threads: Vec<Thread>,
}

/// Where a thread stands: it has no frame, an exception is on its way, or it is at a pc of a method.
#[derive(Clone, Copy)]
pub(crate) enum Standing {
    Ended,
    Thrown(Address),
    Here(MethodId, u32),
}
