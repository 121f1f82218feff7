//! The instructions of a program with what they name looked up once.
#![tactic(auto)]

mod operands;
mod plain;
mod resolving;
mod strings;
mod switches;
mod table;

pub use resolving::resolve_at;
pub use strings::Strings;
pub use table::Instructions;
