//! The flow of control through a method.
#![tactic(auto)]

mod exploring;
mod insns;
mod node_places;
mod spots;
mod steps;
#[cfg(test)]
mod tests;
pub mod wide;

pub use node_places::parameters;
