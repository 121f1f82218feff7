//! The process: words, files and streams of the system.
ghost use Rattle.std.specs.Process.{exit_status};
ghost use Rattle.std.specs.Prelude.{◌≡◌};
ghost use Rattle.joana_base.specs.Status.{code_of};
ghost use Rattle.joana_cli.specs.Codes.{IsStatusCode};

use jo_io::{StdFiles, StdSink};
use joana_top::{Status, joana};
use std::process::ExitCode;
use std::{env, io};

/// The words after the program's name. None of them where one isn't UTF-8, since such words are no command.
fn words(rt: &HostRuntime) -> io::Result<Vec<String>> {
    let mut words = Vec::new(rt.alloc());
    let all = match env::args(rt) {
        Ok(all) => all,
        Err(error) if error.kind() == io::ErrorKind::InvalidData => return Ok(words),
        Err(error) => return Err(error),
    };
    for word in all.skip(1) {
        words.push(word)?;
    }
    Ok(words)
}

fn exit(status: &Status) -> ExitCode
    ensures { exit_status result ≡ code_of status.now }
{
    ExitCode::from(status.code())
}

/// Runs the command that the words after the program's name are, and gives the code of what the top call answers.
pub fn run(rt: HostRuntime) -> ExitCode
    ensures { IsStatusCode (exit_status result) }
{
    let words = match words(&rt) {
        Ok(words) => words,
        Err(_) => return exit(&Status::Memory),
    };
    let mut files = StdFiles::new(&rt);
    let mut out = StdSink::new(rt.stdout());
    let mut notes = StdSink::new(rt.stderr());
    let status = joana(
        rt.alloc(),
        words.as_slice(),
        &mut files,
        &mut out,
        &mut notes,
    );
    exit(&status)
}
