//! Releases beside calls that may start a thread.
ghost use Rattle.std.specs.Prelude.{◌≡◌, ◌<◌, ◌^◌, ℕ, length, Some, IfOk};
ghost use Rattle.std.specs.List.{list_any};
ghost use Rattle.std.specs.Option.{option_copied};
ghost use Rattle.hierarchy.specs.Hierarchies.{IsHierarchyOf};
ghost use Rattle.jo_prog.specs.Calls.{receiver_class as class_of_type};
ghost use Rattle.jo_prog.specs.Hierarchy.{is_subtype};
ghost use Rattle.jo_prog.specs.PlainCode.{is_release as release_item};
ghost use Rattle.jo_prog.specs.Starts;
ghost use Rattle.policy_tree.specs.Outcomes.{Gives, refused};
ghost use Rattle.jo_policy.specs.Threads.{selects_start as selects, thread_classes as classes_of_threads, is_named_start as named_start, HasStartName, first_among as insns_first, start_beside, with_threads};

use hierarchy::Hierarchy;
use jo_ids::{ClassId, Id, List, Memory, MethodId};
use jo_insn::{Insn, Placed};
use jo_prog::calls::{Taken, taken_from};
use jo_prog::labels::Label;
use jo_prog::lists::add;
use jo_prog::program::{Code, MemberRef, Operand, Program, TypeRef, class_at};
use jo_prog::sites::instructions;
use policy_tree::PolicyFault;
use std::alloc::Global;

/// Opcodes of calls that take one method, whatever the receiver.
const INVOKESPECIAL: u8 = 183;

const INVOKESTATIC: u8 = 184;

/// How many bytes code has at most.
const LONGEST_CODE: usize = 65_535;

fn is_start(taken: Taken) -> bool
    ensures { result ≡ Starts.is_start taken }
{
    matches!(taken, Taken::Start)
}

// ---- the classes of threads

/// Whether a call of `start` takes Thread.start for a receiver of this class.
#[tactic(auto, unfolding(crate::specs::Threads::selects_start))]
fn selects_start(program: &Program, hierarchy: &Hierarchy, class: ClassId) -> bool
    requires { IsHierarchyOf program.now hierarchy.now }
    ensures { result ≡ selects program.now class }
{
    let found = hierarchy.search_from(program, class, b"start".as_slice(), b"()V".as_slice());
    is_start(taken_from(program, found))
}

/// The classes for which it does.
fn thread_classes(
    alloc: Global,
    program: &Program,
    hierarchy: &Hierarchy,
) -> Result<List<ClassId>, Memory>
    requires few { length program.now.classes < 2 ^ 32 }
    requires kept { IsHierarchyOf program.now hierarchy.now }
    ensures { IfOk result (λ threads. threads ≡ classes_of_threads program.now) }
{
    let count = program.classes.as_slice().len() as u32;
    let mut threads = List::new(alloc);
    for class in 0..count {
        if selects_start(program, hierarchy, Id::of(class)) {
            add(&mut threads, Id::of(class))?;
        }
    }
    Ok(threads)
}

/// Whether one of the classes is the named one or below it.
fn has_subtype(
    program: &Program,
    hierarchy: &Hierarchy,
    classes: &[ClassId],
    named: ClassId,
) -> bool
    requires { IsHierarchyOf program.now hierarchy.now }
    ensures { result ≡ list_any (λ (k : ℕ). is_subtype program.now k named) classes.now }
{
    for class in classes {
        if hierarchy.subtype(program, *class, named) {
            return true;
        }
    }
    false
}

// ---- calls

/// The class whose members a type has: an array those of java/lang/Object.
fn receiver_class(owner: &TypeRef) -> ClassId
    ensures { result ≡ class_of_type owner.now }
{
    match owner {
        TypeRef::Class(class) => *class,
        TypeRef::Array(_) => Id::of(0),
    }
}

/// Whether a member has the name and the descriptor of Thread.start.
fn is_named_start(member: &MemberRef) -> bool
    ensures { result ≡ named_start member.now.name member.now.desc }
{
    member.name.as_slice() == b"start".as_slice() && member.desc.as_slice() == b"()V".as_slice()
}

/// Whether a call of a named class's method, which has the name and descriptor of Thread.start, may take that.
fn may_start_by(
    program: &Program,
    hierarchy: &Hierarchy,
    threads: &[ClassId],
    op: u8,
    current: ClassId,
    named: ClassId,
    method: MethodId,
) -> bool
    requires kept { IsHierarchyOf program.now hierarchy.now }
    requires threads { threads.now ≡ classes_of_threads program.now }
    requires start { HasStartName program.now method }
    ensures { result ≡ Starts.may_start_by program.now op current named (Some method) }
{
    if op == INVOKESPECIAL || op == INVOKESTATIC {
        return is_start(hierarchy.takes(program, op, current, method, named));
    }
    has_subtype(program, hierarchy, threads, named)
}

/// Whether a call of the member may take Thread.start.
fn member_may_start(
    program: &Program,
    hierarchy: &Hierarchy,
    threads: &[ClassId],
    op: u8,
    current: ClassId,
    member: &MemberRef,
) -> bool
    requires kept { IsHierarchyOf program.now hierarchy.now }
    requires threads { threads.now ≡ classes_of_threads program.now }
    ensures { result ≡ Starts.member_may_start program.now op current member.now }
{
    if !is_named_start(member) {
        return false;
    }
    let named = receiver_class(&member.owner);
    let found = hierarchy.resolve(
        program,
        named,
        member.name.as_slice(),
        member.desc.as_slice(),
    );
    match found {
        Some(method) => may_start_by(program, hierarchy, threads, op, current, named, method),
        None => false,
    }
}

/// The operand with that index in the pool of a class.
fn operand_of_class(program: &Program, class: ClassId, index: u16) -> Option<&Operand>
    ensures { option_copied result ≡ Starts.operand_of_class program.now class index }
{
    class_at(program, class)?
        .operands
        .as_slice()
        .get(index as usize)
}

fn operand_may_start(
    program: &Program,
    hierarchy: &Hierarchy,
    threads: &[ClassId],
    op: u8,
    current: ClassId,
    operand: Option<&Operand>,
) -> bool
    requires kept { IsHierarchyOf program.now hierarchy.now }
    requires threads { threads.now ≡ classes_of_threads program.now }
    ensures { result ≡ Starts.operand_may_start program.now op current (option_copied operand.entry) }
{
    match operand {
        Some(Operand::Member(member)) => {
            member_may_start(program, hierarchy, threads, op, current, member)
        }
        _ => false,
    }
}

/// Whether an instruction of a class is a call that may take Thread.start.
fn may_start(
    program: &Program,
    hierarchy: &Hierarchy,
    threads: &[ClassId],
    current: ClassId,
    insn: Insn,
) -> bool
    requires kept { IsHierarchyOf program.now hierarchy.now }
    requires threads { threads.now ≡ classes_of_threads program.now }
    ensures { result ≡ Starts.may_start program.now current insn }
{
    let Insn::Pooled { op, index } = insn else {
        return false;
    };
    if !matches!(op, 182..=185) {
        return false;
    }
    let operand = operand_of_class(program, current, index);
    operand_may_start(program, hierarchy, threads, op, current, operand)
}

/// The pc of the first such call among instructions.
fn first_among(
    program: &Program,
    hierarchy: &Hierarchy,
    threads: &[ClassId],
    current: ClassId,
    insns: &[Placed],
) -> Option<u32>
    requires kept { IsHierarchyOf program.now hierarchy.now }
    requires threads { threads.now ≡ classes_of_threads program.now }
    ensures { result ≡ insns_first program.now current insns.now }
{
    for placed in insns {
        if may_start(program, hierarchy, threads, current, placed.insn) {
            return Some(placed.pc);
        }
    }
    None
}

fn first_start_in(
    alloc: Global,
    program: &Program,
    hierarchy: &Hierarchy,
    threads: &[ClassId],
    current: ClassId,
    code: Option<&Code>,
) -> Result<Option<u32>, Memory>
    requires kept { IsHierarchyOf program.now hierarchy.now }
    requires threads { threads.now ≡ classes_of_threads program.now }
    ensures { IfOk result (λ found. found ≡ Starts.first_start_in program.now current (option_copied code.entry)) }
{
    let Some(code) = code else {
        return Ok(None);
    };
    let bytes = code.bytes.as_slice();
    if bytes.len() > LONGEST_CODE {
        return Ok(None);
    }
    let insns = instructions(alloc, bytes)?;
    Ok(first_among(program, hierarchy, threads, current, insns.as_slice()))
}

/// The first call of a program that may start a thread, by its method and pc.
fn first_start(
    alloc: Global,
    program: &Program,
    hierarchy: &Hierarchy,
) -> Result<Option<(MethodId, u32)>, Memory>
    requires few_classes { length program.now.classes < 2 ^ 32 }
    requires few_methods { length program.now.methods < 2 ^ 32 }
    requires kept { IsHierarchyOf program.now hierarchy.now }
    ensures { IfOk result (λ found. found ≡ Starts.first_start program.now) }
{
    let threads = thread_classes(alloc, program, hierarchy)?;
    let classes = threads.as_slice();
    for (i, method) in program.methods.as_slice().iter().enumerate() {
        let found = first_start_in(
            alloc,
            program,
            hierarchy,
            classes,
            method.class,
            method.code.as_ref(),
        )?;
        if let Some(pc) = found {
            return Ok(Some((Id::of(i as u32), pc)));
        }
    }
    Ok(None)
}

// ---- releases

fn is_release(item: &(MethodId, Label)) -> bool
    ensures { result ≡ release_item item.now }
{
    matches!(item.1, Label::Release { .. })
}

fn has_release(labelled: &[(MethodId, Label)]) -> bool
    ensures { result ≡ list_any release_item labelled.now }
{
    for item in labelled {
        if is_release(item) {
            return true;
        }
    }
    false
}

/// No release stands beside a call that may start a thread.
pub fn no_release_with_threads(
    alloc: Global,
    program: &Program,
    hierarchy: &Hierarchy,
    labelled: &[(MethodId, Label)],
) -> Result<(), PolicyFault>
    requires few_classes { length program.now.classes < 2 ^ 32 }
    requires few_methods { length program.now.methods < 2 ^ 32 }
    requires kept { IsHierarchyOf program.now hierarchy.now }
    ensures { Gives (λ x. x) result (refused with_threads (start_beside labelled.now program.now)) }
{
    if !has_release(labelled) {
        return Ok(());
    }
    let found = first_start(alloc, program, hierarchy)?;
    match found {
        Some((method, pc)) => Err(PolicyFault::ReleaseWithThreads(method, pc)),
        None => Ok(()),
    }
}
