//! What an instruction that is no call does.
#![tactic(auto)]

mod execution;
mod ints;
mod memory;
mod moves;
mod outcomes;
mod references;
mod shapes;

pub use execution::{exec, local_taken, pops};
pub use outcomes::{Cell, Effect, Outcome, Pushed, Write};
