//! Reports: the text of an illegal chain or a conflict of the dependence graph.
#![tactic(auto)]

mod chain_checks;
mod chains;
mod ends;
mod line_checks;
mod lines;
mod node_texts;
pub mod nodes;
mod open_calls;
mod reports;
mod verdicts;

pub use chains::report;
pub use nodes::print_node;
pub use reports::{Body, Report, print_report};
pub use verdicts::{VerifyFault, verify_chain};
