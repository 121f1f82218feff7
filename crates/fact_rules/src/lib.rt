//! What follows from the facts that are kept of a program by one step, rule by rule.
#![tactic(auto)]

mod additions;
pub mod call_rules;
pub mod callees;
pub mod catch_rules;
pub mod cell_rules;
pub mod cycle_rules;
pub mod first_rules;
mod places;
pub mod raise_rules;
pub mod target_rules;
pub mod value_rules;
