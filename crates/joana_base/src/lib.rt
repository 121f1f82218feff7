//! What the commands of `joana` share: statuses, lines of notes, and files that are read.
#![tactic(auto)]

mod answers;
mod classes;
mod notes;
mod reading;
mod status;

pub use answers::{Answer, Stop, Unread};
pub use classes::{class_of_file, class_of_text, classes_of};
pub use notes::refusal_line;
pub use reading::{ProgramFiles, ProgramNames, read_file, read_program};
pub use status::{
    InputFault, LimitKind, LinkKind, OutsideFault, PolicyKind, Refusal, RunFileKind, Status,
    TypingFault, TypingKind,
};
