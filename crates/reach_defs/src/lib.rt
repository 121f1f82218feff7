//! Reaching definitions: for each use of a place all definitions of it that may be the last before.
#![tactic(auto)]

mod uses;

pub use jo_ids::Memory;
pub use uses::sources;

#[cfg(test)]
mod tests;
