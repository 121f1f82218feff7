//! Frames and threads of the machine, and the rows that catch exceptions.
#![tactic(auto)]

mod frames;
mod rows;
mod threads;

pub use frames::Frame;
pub use rows::handler_for;
pub use threads::Thread;
