//! `help`: the words of each command.
ghost use Rattle.joana_top.specs.Help.{IsHelpOutcome};

use crate::words::command_lines;
use joana_base::{Answer, Stop};
use std::alloc::Global;

/// What `help` comes to. It reads nothing.
pub fn run(alloc: Global) -> Result<Answer, Stop>
    ensures { IsHelpOutcome result }
{
    match command_lines(alloc) {
        Ok(text) => Ok(Answer::Yes(text)),
        Err(_) => Err(Stop::Memory),
    }
}
