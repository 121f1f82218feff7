//! Tests of the commands over files and sinks in memory. Expected texts, statuses and places are written by hand.
#![tactic(auto)]

#[cfg(test)]
mod asm_tests;
#[cfg(test)]
mod check_tests;
#[cfg(test)]
mod dis_tests;
#[cfg(test)]
mod list_tests;
pub mod runs;
