//! The lines of an assembly text, and what each of them says (the grammar is this project's own).
#![tactic(auto)]

pub mod laws;
pub mod lines;
mod reading;
pub mod statements;
pub mod stops;
pub mod texts;
pub mod words;

pub use reading::read_line;
