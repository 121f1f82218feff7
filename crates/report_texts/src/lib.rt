//! Reports as texts: what a report says, line by line, and the first byte at which a text stops being one.
#![tactic(auto)]

pub mod laws;
mod lines;
mod names;
mod nodes;
mod numbers;
mod reading;
mod words;

pub use lines::{ReportKind, ReportLine, ReportText};
pub use reading::{ReadFault, read_report};

#[cfg(test)]
mod tests;
