//! What a call does with its values.
#![tactic(auto)]

mod invocation;
mod shapes;

pub use invocation::{Call, Invoked, invoke};
