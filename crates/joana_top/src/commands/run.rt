//! `run CLASSES POLICY RUNFILE`: one run.
ghost use Rattle.std.specs.Prelude.{◌≡◌};
ghost use Rattle.hierarchy.specs.Hierarchies.{HasItsParents};
ghost use Rattle.jo_prog.specs.Program.{HasNumbers};
ghost use Rattle.joana_base.specs.Files.{names_of, AreReadable};
ghost use Rattle.joana_base.specs.Reading.{files_change, in_bytes, third_bytes, AfterProgramReads};
ghost use Rattle.joana_top.specs.Run.{run_file_in, IsProgramRun, IsFilesRun, IsRunOutcome};

use super::stops::{labelled, plan_for, program_of};
use super::traces::trace_text;
use hierarchy::Hierarchy;
use jo_io::Files;
use jo_prog::program::Program;
use joana_base::{Answer, ProgramFiles, ProgramNames, Stop, read_program};
use jvm_step::run as run_plan;
use std::alloc::Global;

/// The text of the run file.
fn run_file(third: &Option<Vec<u8>>) -> &[u8]
    ensures { result.now ≡ run_file_in (third_bytes third.now) }
{
    match third {
        Some(file) => file.as_slice(),
        None => b"".as_slice(),
    }
}

/// The answer on a program and the texts of a policy and of a run file.
fn run_program(
    alloc: Global,
    program: &Program,
    policy: &[u8],
    run_file: &[u8],
) -> Result<Answer, Stop>
    requires numbers { HasNumbers program.now }
    requires parents { HasItsParents program.now }
    ensures { IsProgramRun program.now policy.now run_file.now result }
{
    let Ok(hierarchy) = Hierarchy::build(alloc, program) else {
        return Err(Stop::Memory);
    };
    let policy = match labelled(alloc, program, &hierarchy, policy) {
        Ok(policy) => policy,
        Err(stop) => return Err(stop),
    };
    let plan = match plan_for(alloc, program, &policy, run_file) {
        Ok(plan) => plan,
        Err(stop) => return Err(stop),
    };
    let Ok(trace) = run_plan(alloc, program, &hierarchy, policy.labels(), &plan) else {
        return Err(Stop::Memory);
    };
    match trace_text(alloc, program, &trace) {
        Ok(text) => Ok(Answer::Yes(text)),
        Err(_) => Err(Stop::Memory),
    }
}

/// The answer on files that were read.
fn run_files(alloc: Global, files: &ProgramFiles) -> Result<Answer, Stop>
    requires { AreReadable (in_bytes files.now) }
    ensures { IsFilesRun (in_bytes files.now) result }
{
    match program_of(alloc, files) {
        Ok(program) => run_program(
            alloc,
            &program,
            files.policy.as_slice(),
            run_file(&files.third),
        ),
        Err(stop) => Err(stop),
    }
}

/// What `run` comes to.
pub fn run<F: Files>(alloc: Global, files: &mut F, names: ProgramNames<'_>) -> Result<Answer, Stop>
    ensures after { AfterProgramReads (names_of names.entry) result
        (files_change F.held F.faults F.failed files.old files.new) }
    ensures outcome { IsRunOutcome (F.held files.old) (names_of names.entry) result }
{
    match read_program(alloc, files, names) {
        Ok(read) => run_files(alloc, &read),
        Err(stop) => Err(stop),
    }
}
