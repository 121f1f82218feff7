//! Writes a Java class file: the one canonical spelling of a class of `class_pool`.
#![tactic(auto)]

mod class;
pub mod laws;
mod members;
mod numbers;

pub use class::write_class;

#[cfg(test)]
mod tests;
