//! Facts about a program as data: each once, found by what they speak of.
#![tactic(auto)]

mod fact_table;
pub mod facts;
mod groups;
pub mod numbered;
mod numbering;
#[cfg(test)]
mod tests;
