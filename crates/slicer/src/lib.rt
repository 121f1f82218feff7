//! Slices of a dependence graph: which nodes have a valid chain to a criterion, and such a chain.
#![tactic(auto)]

mod finds;
mod marking;
mod phases;
mod search;

pub use finds::{Found, Phase, Place, Way};
pub use marking::Slicer;

#[cfg(test)]
mod tests;
