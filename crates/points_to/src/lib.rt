//! Exactly the facts that are derivable of a program.
#![tactic(auto)]

mod additions;
pub mod faults;
pub mod following;
pub mod laws;
pub mod tables;
