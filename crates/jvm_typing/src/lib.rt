//! Typing of methods (JVM Specification SE 8, 4.10; its form by paths is this project's own).
#![tactic(auto)]

mod fact_tables;
mod facts;
mod flows;
mod kind_faults;
pub mod programs;
mod sources;
mod starts;
mod stops;
pub mod typing_methods;
