//! The dependence graph of plain code, and walks in it.
#![tactic(auto)]

pub mod laws;
pub mod sdg;
pub mod slicer;
#[cfg(test)]
mod tests;
