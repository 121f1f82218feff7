//! The machine: its states, one step of one thread, which threads may step, and runs.
#![tactic(auto)]

mod applying;
mod calling;
mod enabling;
mod executing;
mod moves;
mod runs;
mod settings;
mod starts;
mod states;
mod stepping;
mod threads;
mod unwinding;

pub use moves::Moved;
pub use runs::run;
pub use settings::Setting;
pub use states::State;
