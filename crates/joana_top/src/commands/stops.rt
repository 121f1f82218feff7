//! Why class files and a policy can't be judged: faults of linking, of typing and of the policy.
ghost use Rattle.std.specs.Prelude.{◌≡◌, ◌++◌, ◌∷◌, ◌<◌, ◌^◌, IfOk, IfErr, OnOk, length};
ghost use Rattle.std.specs.Fmt.{decimal};
ghost use Rattle.jo_text.specs.Escapes.{escaped};
ghost use Rattle.class_pool.specs.declared.classes.ClassFile.{ClassFile};
ghost use Rattle.jo_prog.specs.Program.{HasNumbers};
ghost use Rattle.jo_prog.specs.Spelling.{spelled_method};
ghost use Rattle.hierarchy.specs.Hierarchies.{HasItsParents, IsHierarchyOf};
ghost use Rattle.joana_base.specs.Files.{AreReadable};
ghost use Rattle.joana_base.specs.Reading.{in_bytes};
ghost use Rattle.joana_top.specs.Stops.{link_kind, link_stop, IsTypedProgram, typing_kind, IsMethodStop, IsTypingStop, policy_kind, carried_levels, carried, IsLinked, IsLinkStop, GivesLabels, IsPolicyStop, IsLabelStop, IsLabellingStop, GivesPlan, run_file_kind, run_file_stop_by, IsRunFileStop, IsProgramOf, IsMakingStop};

use class_pool::ClassFile;
use hierarchy::Hierarchy;
use jo_ids::MethodId;
use jo_policy::{LevelFault, Policy, PolicyFault, read_policy};
use jo_prog::program::Program;
use jo_prog::spelling::push_method;
use jo_prog::typed::TypeCode;
use jo_text::{Name, push_escaped};
use joana_base::{
    InputFault, LinkKind, PolicyKind, ProgramFiles, Refusal, RunFileKind, Stop, TypingFault,
    TypingKind, classes_of,
};
use jvm_typing::programs::{MethodFault, type_program};
use linker::{LinkCode, LinkFault, link};
use run_plans::{RunFileFault, RunPlan, read_run};
use std::alloc::{AllocError as Memory, Global};

// ---- linking

/// The kind of a fault. Want of memory is none.
fn link_kind(code: LinkCode) -> Option<LinkKind>
    ensures { result ≡ link_kind code }
{
    match code {
        LinkCode::TwiceDefined => Some(LinkKind::TwiceDefined),
        LinkCode::MissingClass => Some(LinkKind::MissingClass),
        LinkCode::CyclicSuper => Some(LinkKind::CyclicSuper),
        LinkCode::MissingMember => Some(LinkKind::MissingMember),
        LinkCode::NotImplemented => Some(LinkKind::NotImplemented),
        LinkCode::InterfaceBody => Some(LinkKind::InterfaceBody),
        LinkCode::StaticInit => Some(LinkKind::StaticInit),
        LinkCode::Memory => None,
    }
}

/// The stop at class files that make no program.
fn link_stop(fault: LinkFault) -> Stop
    ensures { result ≡ link_stop fault }
{
    match link_kind(fault.code) {
        Some(kind) => Stop::Faulty(Refusal::Input(InputFault::Link(kind, fault.name))),
        None => Stop::Memory,
    }
}

/// The program of the class files.
fn linked(alloc: Global, classes: Vec<ClassFile>) -> Result<Program, Stop>
    ensures program { IfOk result (IsLinked classes.items) }
    ensures numbers { IfOk result HasNumbers }
    ensures parents { IfOk result HasItsParents }
    ensures stop { IfErr result (IsLinkStop classes.items) }
{
    match link(alloc, classes) {
        Ok(program) => Ok(program),
        Err(fault) => Err(link_stop(fault)),
    }
}

/// The program that the files make.
pub fn program_of(alloc: Global, files: &ProgramFiles) -> Result<Program, Stop>
    requires { AreReadable (in_bytes files.now) }
    ensures program { IfOk result (IsProgramOf (in_bytes files.now)) }
    ensures numbers { IfOk result HasNumbers }
    ensures parents { IfOk result HasItsParents }
    ensures stop { IfErr result (IsMakingStop (in_bytes files.now)) }
{
    let classes = match classes_of(alloc, &files.third, files.classes.as_slice()) {
        Ok(classes) => classes,
        Err(stop) => return Err(stop),
    };
    match linked(alloc, classes) {
        Ok(program) => Ok(program),
        Err(stop) => Err(stop),
    }
}

// ---- typing

/// The kind of a fault. Want of memory is none.
fn typing_kind(code: TypeCode) -> Option<TypingKind>
    ensures { result ≡ typing_kind code }
{
    match code {
        TypeCode::Underflow => Some(TypingKind::Underflow),
        TypeCode::Overflow => Some(TypingKind::Overflow),
        TypeCode::HeightDiffers => Some(TypingKind::HeightDiffers),
        TypeCode::WrongKind => Some(TypingKind::WrongKind),
        TypeCode::FallsOff => Some(TypingKind::FallsOff),
        TypeCode::LocalRange => Some(TypingKind::LocalRange),
        TypeCode::Memory => None,
    }
}

/// A method as it is spelled.
fn spelling_of(alloc: Global, program: &Program, method: MethodId) -> Result<Name, Memory>
    ensures { IfOk result (λ name. name ≡ spelled_method program.now method) }
{
    let mut text = Vec::new(alloc);
    push_method(&mut text, program, method)?;
    Ok(Name::from(text))
}

/// The stop at a program with that fault of a method.
fn method_stop(alloc: Global, program: &Program, found: &MethodFault) -> Stop
    ensures { IsMethodStop program.now found.now result }
{
    let kind = match typing_kind(found.fault.code) {
        Some(kind) => kind,
        None => return Stop::Memory,
    };
    match spelling_of(alloc, program, found.method) {
        Ok(method) => Stop::Faulty(Refusal::Input(InputFault::Typing(TypingFault {
            kind,
            method,
            pc: found.fault.pc,
        }))),
        Err(_) => Stop::Memory,
    }
}

/// Types the methods of the program. What stops it is the first fault of the method with the least number.
fn type_methods(alloc: Global, program: &Program, hierarchy: &Hierarchy) -> Result<(), Stop>
    requires kept { IsHierarchyOf program.now hierarchy.now }
    requires few_classes { length program.now.classes < 2 ^ 32 }
    requires few { length program.now.methods < 2 ^ 32 }
    ensures typed { IfOk result (λ _. IsTypedProgram program.now) }
    ensures stop { IfErr result (IsTypingStop program.now) }
{
    let typings = type_program(alloc, program, hierarchy);
    match &typings {
        Ok(_) => Ok(()),
        Err(found) => Err(method_stop(alloc, program, found)),
    }
}

// ---- the policy

/// The kind of a fault. Want of memory is none.
fn policy_kind(fault: &PolicyFault) -> Option<PolicyKind>
    ensures { result ≡ policy_kind fault.now }
{
    match fault {
        PolicyFault::NotToml => Some(PolicyKind::NotToml),
        PolicyFault::Key(_) => Some(PolicyKind::Key),
        PolicyFault::UnknownLevel(_) => Some(PolicyKind::UnknownLevel),
        PolicyFault::Order(_) => Some(PolicyKind::Order),
        PolicyFault::MissingMethod(_) => Some(PolicyKind::MissingMethod),
        PolicyFault::WrongShape(_) => Some(PolicyKind::WrongShape),
        PolicyFault::UnlabelledNative(_) => Some(PolicyKind::UnlabelledNative),
        PolicyFault::TwiceLabelled(_) => Some(PolicyKind::TwiceLabelled),
        PolicyFault::ReleaseUpward(_) => Some(PolicyKind::ReleaseUpward),
        PolicyFault::ReleaseWithThreads(_, _) => Some(PolicyKind::ReleaseWithThreads),
        PolicyFault::Entry => Some(PolicyKind::Entry),
        PolicyFault::Memory => None,
    }
}

/// Adds a name behind a space.
fn push_name(out: &mut Vec<u8>, name: &Name) -> Result<(), Memory>
    ensures { OnOk result (out.new.items ≡ out.old.items ++ 32 ∷ escaped name.now) }
{
    out.push(b' ')?;
    push_escaped(out, name.as_slice())
}

/// Adds a method behind a space.
fn push_method_name(out: &mut Vec<u8>, program: &Program, method: MethodId) -> Result<(), Memory>
    ensures { OnOk result (out.new.items ≡ out.old.items ++ 32 ∷ spelled_method program.now method) }
{
    out.push(b' ')?;
    push_method(out, program, method)
}

/// Adds a pc behind a space.
fn push_pc(alloc: Global, out: &mut Vec<u8>, pc: u32) -> Result<(), Memory>
    ensures { OnOk result (out.new.items ≡ out.old.items ++ 32 ∷ decimal pc) }
{
    out.push(b' ')?;
    let digits = pc.to_string(alloc)?;
    out.extend_from_slice(digits.as_bytes())
}

/// Adds the levels that a fault of their order carries.
fn push_levels(out: &mut Vec<u8>, fault: &LevelFault) -> Result<(), Memory>
    ensures { OnOk result (out.new.items ≡ out.old.items ++ carried_levels fault.now) }
{
    match fault {
        LevelFault::Twice(name) => push_name(out, name),
        LevelFault::TooMany => Ok(()),
        LevelFault::Cycle(low, high) => {
            push_name(out, low)?;
            push_name(out, high)
        }
    }
}

/// Adds what a fault carries.
fn push_carried(
    alloc: Global,
    out: &mut Vec<u8>,
    program: &Program,
    fault: &PolicyFault,
) -> Result<(), Memory>
    ensures { OnOk result (out.new.items ≡ out.old.items ++ carried program.now fault.now) }
{
    match fault {
        PolicyFault::Key(name) => push_name(out, name),
        PolicyFault::UnknownLevel(name) => push_name(out, name),
        PolicyFault::Order(levels) => push_levels(out, levels),
        PolicyFault::MissingMethod(name) => push_name(out, name),
        PolicyFault::WrongShape(method) => push_method_name(out, program, *method),
        PolicyFault::UnlabelledNative(method) => push_method_name(out, program, *method),
        PolicyFault::TwiceLabelled(method) => push_method_name(out, program, *method),
        PolicyFault::ReleaseUpward(method) => push_method_name(out, program, *method),
        PolicyFault::ReleaseWithThreads(method, pc) => {
            push_method_name(out, program, *method)?;
            push_pc(alloc, out, *pc)
        }
        PolicyFault::NotToml => Ok(()),
        PolicyFault::Entry => Ok(()),
        PolicyFault::Memory => Ok(()),
    }
}

/// What a fault carries, as it is printed.
fn carried(alloc: Global, program: &Program, fault: &PolicyFault) -> Result<Name, Memory>
    ensures { IfOk result (λ text. text ≡ carried program.now fault.now) }
{
    let mut text = Vec::new(alloc);
    push_carried(alloc, &mut text, program, fault)?;
    Ok(Name::from(text))
}

/// The stop at a policy with that fault.
fn policy_stop(alloc: Global, program: &Program, fault: &PolicyFault) -> Stop
    ensures { IsPolicyStop program.now fault.now result }
{
    let kind = match policy_kind(fault) {
        Some(kind) => kind,
        None => return Stop::Memory,
    };
    match carried(alloc, program, fault) {
        Ok(carried) => Stop::Faulty(Refusal::Input(InputFault::Policy(kind, carried))),
        Err(_) => Stop::Memory,
    }
}

/// The policy that a text gives the program.
fn policy_for(
    alloc: Global,
    program: &Program,
    hierarchy: &Hierarchy,
    text: &[u8],
) -> Result<Policy, Stop>
    requires kept { IsHierarchyOf program.now hierarchy.now }
    requires few_classes { length program.now.classes < 2 ^ 32 }
    requires few { length program.now.methods < 2 ^ 32 }
    ensures labels { IfOk result (λ policy. GivesLabels program.now text.now policy.labels) }
    ensures stop { IfErr result (IsLabelStop program.now text.now) }
{
    match read_policy(alloc, text, program, hierarchy) {
        Ok(policy) => Ok(policy),
        Err(fault) => Err(policy_stop(alloc, program, &fault)),
    }
}

/// The policy that a text gives a program, whose methods are typed first.
pub fn labelled(
    alloc: Global,
    program: &Program,
    hierarchy: &Hierarchy,
    text: &[u8],
) -> Result<Policy, Stop>
    requires kept { IsHierarchyOf program.now hierarchy.now }
    requires few_classes { length program.now.classes < 2 ^ 32 }
    requires few { length program.now.methods < 2 ^ 32 }
    ensures typed { IfOk result (λ _. IsTypedProgram program.now) }
    ensures labels { IfOk result (λ policy. GivesLabels program.now text.now policy.labels) }
    ensures stop { IfErr result (IsLabellingStop program.now text.now) }
{
    match type_methods(alloc, program, hierarchy) {
        Ok(()) => (),
        Err(untyped) => return Err(untyped),
    }
    match policy_for(alloc, program, hierarchy, text) {
        Ok(policy) => Ok(policy),
        Err(stop) => Err(stop),
    }
}

// ---- the run file

/// The kind of a fault. Want of memory is none.
fn run_file_kind(fault: RunFileFault) -> Option<RunFileKind>
    ensures { result ≡ run_file_kind fault }
{
    match fault {
        RunFileFault::NotToml => Some(RunFileKind::NotToml),
        RunFileFault::Key => Some(RunFileKind::Key),
        RunFileFault::Source => Some(RunFileKind::Source),
        RunFileFault::Range => Some(RunFileKind::Range),
        RunFileFault::Memory => None,
    }
}

/// The stop at a run file with that fault.
fn run_file_stop(fault: RunFileFault) -> Stop
    ensures { result ≡ run_file_stop_by (run_file_kind fault) }
{
    match run_file_kind(fault) {
        Some(kind) => Stop::Faulty(Refusal::Input(InputFault::RunFile(kind))),
        None => Stop::Memory,
    }
}

/// The plan that the text of a run file gives.
pub fn plan_for(
    alloc: Global,
    program: &Program,
    policy: &Policy,
    text: &[u8],
) -> Result<RunPlan, Stop>
    requires { length program.now.methods < 2 ^ 32 }
    ensures plan { IfOk result (GivesPlan program.now policy.now.labels text.now) }
    ensures stop { IfErr result (IsRunFileStop program.now policy.now.labels text.now) }
{
    match read_run(alloc, text, program, policy) {
        Ok(plan) => Ok(plan),
        Err(fault) => Err(run_file_stop(fault)),
    }
}
