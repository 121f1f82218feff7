//! Run files: how many steps of a program are taken, by which schedule, and what its sources give.
#![tactic(auto)]

pub mod laws;
mod run_file;

pub use policy_tree::RunFileFault;
pub use run_file::{PlacedInput, RunPlan, read_run};

#[cfg(test)]
mod tests;
