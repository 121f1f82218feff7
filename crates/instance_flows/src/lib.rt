//! The flow graph of an instance, by given facts.
#![tactic(auto)]

pub mod flow;
mod keeping;
mod nulls;
mod objects;
mod parts;
mod raising;
#[cfg(test)]
mod tests;
