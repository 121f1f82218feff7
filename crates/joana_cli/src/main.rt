//! The program `joana`: an information flow checker for Java class files.
#![tactic(auto)]

mod process;

use std::process::ExitCode;

fn main(rt: HostRuntime) -> ExitCode {
    process::run(rt)
}
