//! Assembles class files from texts (the grammar is this project's own; the parts are those of the JVM Specification SE 8,
//! 4.1 to 4.7).
#![tactic(auto)]

pub mod assembly;
pub mod causes;
pub mod encoding;
pub mod labels;
pub mod laws;
pub mod layout;
pub mod pool_maker;
#[cfg(test)]
mod tests;

pub use assembly::{AsmFault, assemble};
