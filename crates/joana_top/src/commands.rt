//! The commands, a file each, and what each of them comes to.
ghost use Rattle.joana_base.specs.Reading.{files_change};
ghost use Rattle.joana_top.specs.Words.{as_command};
ghost use Rattle.joana_top.specs.Commands.{AfterCommandReads, IsCommandOutcome};

mod asm;
mod check;
mod dis;
mod help;
mod run;
mod stops;
mod traces;

use crate::words::Command;
use jo_io::Files;
use joana_base::{Answer, Stop};
use std::alloc::Global;

/// What a command comes to before anything is put.
pub fn run_command<F: Files>(
    alloc: Global,
    files: &mut F,
    command: Command<'_>,
) -> Result<Answer, Stop>
    ensures after { AfterCommandReads (as_command command.entry) result
        (files_change F.held F.faults F.failed files.old files.new) }
    ensures outcome { IsCommandOutcome (F.held files.old) (as_command command.entry) result }
{
    match command {
        Command::Check(names) => check::run(alloc, files, names),
        Command::Run(names) => run::run(alloc, files, names),
        Command::Asm(name) => asm::run(alloc, files, name),
        Command::Dis(name) => dis::run(alloc, files, name),
        Command::Help => help::run(alloc),
    }
}
