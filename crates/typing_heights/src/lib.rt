//! The heights of a method's stack, and the faults that they tell (JVM Specification SE 8, 4.10; the form by paths is this project's
//! own).
//!
//! `laws` has what holds of the typing paths themselves.
#![tactic(auto)]

pub mod faults;
mod gauges;
pub mod heights;
pub mod laws;
mod marks;
pub mod moves;
pub mod search;
pub mod sizes;
pub mod spots;
pub mod subjects;
