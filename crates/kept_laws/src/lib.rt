//! Laws of steps that keep states typed.
#![tactic(auto)]

pub mod laws;
