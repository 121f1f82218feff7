//! Laws of typing on steps of the machine.
#![tactic(auto)]

pub mod laws;
