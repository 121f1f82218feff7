//! What the TOML tree of a policy or of a run file says, before anything is asked of a program.
#![tactic(auto)]

mod faults;
mod keys;
mod reading;
mod runs;
mod written;

pub use faults::{LevelFault, PolicyFault};
pub use keys::KeySet;
pub use reading::read_written;
pub use runs::{RunFileFault, WrittenInput, WrittenRun, read_written_run};
pub use written::{ContextsKey, LabelTable, NamedLabel, WrittenLabel, WrittenPolicy};
