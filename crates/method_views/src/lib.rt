//! What is looked up of a method while facts are found for its instances: its wide graph with the uses by their nodes, what its
//! instructions name, and where their bases stand.
#![tactic(auto)]

pub mod bases;
pub mod operands;
pub mod raised;
#[cfg(test)]
mod tests;
pub mod use_tables;
pub mod views;
