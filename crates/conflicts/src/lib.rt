//! Conflicts of a dependence graph: two nodes that may run at the same time and whose order may show.
#![tactic(auto)]

mod clashes;
mod finding;
mod sides;

pub use finding::find;
pub use thread_regions::Conflict;

#[cfg(test)]
mod tests;
