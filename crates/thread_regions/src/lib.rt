//! The regions of the forks of a dependence graph: what each started thread may run, and what may run behind its start.
#![tactic(auto)]

mod conflicting;
mod finding;
mod forks;
mod places;
mod search;
mod tables;

pub use conflicting::Conflict;
pub use finding::regions;
pub use jo_ids::Memory;
pub use tables::{ForkRegions, Regions};

#[cfg(test)]
mod tests;
