//! Policies: TOML with the levels, what flows where, the entry, and the levels of sources, sinks and releases.
#![tactic(auto)]

mod labelling;
pub mod laws;
mod numbering;
mod ordering;
mod spellings;
mod threads;
mod whole;

pub use policy_tree::{ContextsKey, LevelFault, PolicyFault};
pub use spellings::{MethodIndex, find_method, index_methods};
pub use whole::{Policy, read_policy};

#[cfg(test)]
mod tests;
