//! `check CLASSES POLICY`: the verdict.
ghost use Rattle.std.specs.Prelude.{◌≡◌, ◌↔◌, IfOk, IsTrue};
ghost use Rattle.hierarchy.specs.Hierarchies.{HasItsParents};
ghost use Rattle.jo_prog.specs.Program.{HasNumbers};
ghost use Rattle.jo_prog.specs.PlainCode.{IsWellLabelled, IsPlainProgram};
ghost use Rattle.plain_graph.specs.Building.{HasShortCode};
ghost use Rattle.joana_base.specs.Files.{names_of, AreReadable};
ghost use Rattle.joana_base.specs.Reading.{files_change, in_bytes, AfterProgramReads};
ghost use Rattle.joana_base.specs.declared.answers.Stop.TheVariants.{Faulty};
ghost use Rattle.joana_base.specs.declared.status.Refusal.TheVariants.{Input};
ghost use Rattle.joana_base.specs.declared.status.InputFault.TheVariants.{NotBuilt};
ghost use Rattle.joana_top.specs.Stops.{IsTypedProgram};
ghost use Rattle.joana_top.specs.Check.{HasLimits, HasShortLimits, IsFormOf, IsVerdict, IsDecision, IsShown, IsProgramOutcome, IsFilesOutcome, IsCheckOutcome};

use super::stops::{labelled, program_of};
use hierarchy::Hierarchy;
use jo_ids::MethodId;
use jo_io::Files;
use jo_policy::laws::policies_label_well;
use jo_prog::jvm_typing::is_plain;
use jo_prog::labels::Labels;
use jo_prog::program::{Program, code_at};
use joana_base::{Answer, InputFault, ProgramFiles, ProgramNames, Refusal, Stop, read_program};
use low_run::refusal;
use plain_graph::sdg;
use std::alloc::{AllocError as Memory, Global};

/// What there is to say of the program and the policy.
#[derive(Drop)]
enum Decision {
    NotBuilt,
    Accepted,
    /// The text of the report.
    Refused(Vec<u8>),
}

/// The limits of a method's code.
fn limits_of(program: &Program, method: MethodId) -> (u16, u16)
    ensures { HasLimits program.now method result.0 result.1 }
{
    match code_at(program, method) {
        Some(code) => (code.max_stack, code.max_locals),
        None => (0, 0),
    }
}

/// Says of these limits that they are numbers of 16 bits.
fn limits_are_short(program: &Program, method: MethodId)
    ensures { HasShortLimits program.now method }
{
    let (_stack, _locals) = limits_of(program, method);
}

/// The verdict on a program of the first form.
fn verdict(alloc: Global, program: &Program, labels: &Labels) -> Result<Decision, Memory>
    requires plain { IsPlainProgram program.now labels.now }
    requires short { HasShortCode program.now labels.now.entry }
    ensures { IfOk result (IsVerdict program.now labels.now) }
{
    let graph = sdg::build(alloc, program, labels)?;
    match refusal(alloc, program, labels, &graph)? {
        Some(text) => Ok(Decision::Refused(text)),
        None => Ok(Decision::Accepted),
    }
}

/// The verdict on a program that is typed and well labelled, or that it is in no form that is built.
fn decide(alloc: Global, program: &Program, labels: &Labels) -> Result<Decision, Memory>
    requires typed { IsTypedProgram program.now }
    requires well { IsWellLabelled program.now labels.now }
    ensures { IfOk result (IsDecision program.now labels.now) }
{
    if !is_plain(program, labels) {
        return Ok(Decision::NotBuilt);
    }
    limits_are_short(program, labels.entry);
    match verdict(alloc, program, labels) {
        Ok(decision) => Ok(decision),
        Err(memory) => Err(memory),
    }
}

/// The stop at files that are in no form that is built.
fn not_built() -> Stop
    ensures { result ≡ Faulty (Input NotBuilt) }
{
    Stop::Faulty(Refusal::Input(InputFault::NotBuilt))
}

/// What is shown of a decision.
fn shown(alloc: Global, decision: Decision) -> Result<Answer, Stop>
    ensures { IsShown decision result }
{
    match decision {
        Decision::NotBuilt => Err(not_built()),
        Decision::Accepted => match Vec::from_slice(alloc, b"accepted\n") {
            Ok(text) => Ok(Answer::Yes(text)),
            Err(_) => Err(Stop::Memory),
        },
        Decision::Refused(text) => Ok(Answer::No(text)),
    }
}

/// The answer on a program and the text of a policy.
fn check_program(alloc: Global, program: &Program, policy: &[u8]) -> Result<Answer, Stop>
    requires numbers { HasNumbers program.now }
    requires parents { HasItsParents program.now }
    ensures { IsProgramOutcome program.now policy.now result }
{
    let Ok(hierarchy) = Hierarchy::build(alloc, program) else {
        return Err(Stop::Memory);
    };
    let policy = match labelled(alloc, program, &hierarchy, policy) {
        Ok(policy) => policy,
        Err(stop) => return Err(stop),
    };
    policies_label_well();
    match decide(alloc, program, policy.labels()) {
        Ok(decision) => shown(alloc, decision),
        Err(_) => Err(Stop::Memory),
    }
}

/// The answer on files that were read.
fn check_files(alloc: Global, files: &ProgramFiles) -> Result<Answer, Stop>
    requires { AreReadable (in_bytes files.now) }
    ensures { IsFilesOutcome (in_bytes files.now) result }
{
    match program_of(alloc, files) {
        Ok(program) => check_program(alloc, &program, files.policy.as_slice()),
        Err(stop) => Err(stop),
    }
}

/// What `check` comes to.
pub fn run<F: Files>(alloc: Global, files: &mut F, names: ProgramNames<'_>) -> Result<Answer, Stop>
    ensures after { AfterProgramReads (names_of names.entry) result
        (files_change F.held F.faults F.failed files.old files.new) }
    ensures outcome { IsCheckOutcome (F.held files.old) (names_of names.entry) result }
{
    match read_program(alloc, files, names) {
        Ok(read) => check_files(alloc, &read),
        Err(stop) => Err(stop),
    }
}
