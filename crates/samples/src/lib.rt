//! Class files and policies that tests of several crates share. Their bytes are written by hand or by javac, and none by this
//! project's programs.
#![tactic(auto)]

mod branch;
mod worked;

pub use branch::{class_a, listing_of_a, policy_of_a};
pub use worked::{worked_class, worked_head, worked_labels, worked_report};
