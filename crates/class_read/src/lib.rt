//! Reads a Java class file by the grammar of `class_pool`: the class, or the first fault with its place.
#![tactic(auto)]

mod class;
mod code;
mod fields;
mod instructions;
mod jumps;
mod kept;
pub mod laws;
mod methods;
mod operands;
mod parts;

pub use class::read_class;

#[cfg(test)]
mod tests;
