//! Programs: classes with their methods, the policy's labels for them, and what a run of one is.
#![tactic(auto)]

pub mod calls;
pub mod files;
pub mod jvm_typing;
pub mod labels;
pub mod laws;
pub mod lists;
pub mod lookups;
pub mod members;
pub mod operations;
pub mod program;
pub mod runner;
pub mod runs;
pub mod sites;
pub mod spelling;
pub mod typed;
