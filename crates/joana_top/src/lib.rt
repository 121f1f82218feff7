//! The commands of `joana`: an information flow checker for Java class files.
#![tactic(auto)]

mod commands;
mod top;
mod words;

pub use joana_base::{
    InputFault, LimitKind, LinkKind, OutsideFault, Status, TypingFault, TypingKind,
};
pub use top::joana;
