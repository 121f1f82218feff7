//! What comes of a step.

use jo_prog::runs::Event;

/// A thread has no step, or it went on and maybe showed something.
#[derive(Clone, Copy)]
pub enum Moved {
    Stuck,
    Went(Option<Event>),
}
