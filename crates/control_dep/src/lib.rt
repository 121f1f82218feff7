//! Control dependence: which branch of a flow graph decides on which node.
#![tactic(auto)]

pub mod laws;
mod pairs;

pub use jo_ids::Memory;
pub use pairs::controllers;

#[cfg(test)]
mod tests;
