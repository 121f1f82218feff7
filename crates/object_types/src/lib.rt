//! The types of objects, and which rows of an exception table catch them.
#![tactic(auto)]

mod copies;
mod sites;
#[cfg(test)]
mod tests;
pub mod types;
