//! The verdict on a program and its labels: an illegal chain for some observer, or none for any.
//!
//! `laws` has the security of what is accepted.
#![tactic(auto)]

pub mod laws;
mod level_flows;
mod refusals;

pub use refusals::{Side, refusal};
