//! The machine: what the instructions and calls of a program do, its steps and its runs. Its laws.
#![tactic(auto)]

pub mod laws;
