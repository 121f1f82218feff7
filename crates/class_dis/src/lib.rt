//! Lists a Java class file as assembly.
//!
//! Each line is words with one space between two. First the class, then its interfaces, fields and methods; the code of a
//! method goes to its line `end`, with a label before each instruction that is the target of a jump or a bound of a row.
//!
//! `laws` says that each class that was read can be listed, its code whole, and that its pool has the names of its lines.
#![tactic(auto)]

mod bodies;
mod classes;
mod instructions;
mod labels;
pub mod laws;
mod operands;
#[cfg(test)]
mod tests;
mod words;

pub use classes::listing;
