//! The places that the nodes of a method read and write.
ghost use Rattle.std.specs.Prelude.{◌≡◌, ℕ, Some, ◌+◌, ◌-◌, [], ◌∷◌, map, length, Contains, option_map, is_some, if◌then◌else◌, IfOk, IfSome, OnOk};
ghost use Rattle.std.specs.Option.{option_copied};
ghost use Rattle.std.specs.List.{range_with_len};
ghost use Rattle.jo_insn.specs.AccessFlags;
ghost use Rattle.jo_insn.specs.AccessFlags.{static_flag};
ghost use Rattle.jo_insn.specs.declared.instructions.Insn.TheVariants.{Plain};
ghost use Rattle.jo_prog.specs.Operations;
ghost use Rattle.dependence.specs.declared.flow.Place.TheVariants.{Local as ALocal, Stack as AStack};
ghost use Rattle.dependence.specs.WideGraph;
ghost use Rattle.dependence.specs.NodePlaces;
ghost use Rattle.dependence.specs.NodePlaces.{stack_use, local_place, stack_places, argument_count, Writes};
ghost use Rattle.dependence.specs.GraphsAsData.{ListsRead};
ghost use Rattle.flow_graph.specs.Adding.{AddsThose, HasThose};
ghost use Rattle.flow_graph.specs.NodeUses;
ghost use Rattle.flow_graph.specs.NodeUses.{HeightIs, IsCallUse, AreParameters, read_by, written_by, arguments_of, result_of, locals_of};

use crate::insns::{insn_at, is_call, operand_of};
use dep_nodes::NodeKind;
use dependence::flow::Place;
use dependence::flows::Places;
use jo_ids::{Memory, MethodId};
use jo_insn::{ACC_STATIC, Insn, has_flag};
use jo_prog::program::{MemberRef, Operand, Program, method_at};
use jo_prog::sites::opcode_of;
use jo_prog::typed::Typed;
use jo_text::{DescFault, MethodDesc, read_method_desc};
use std::alloc::Global;

/// How many places on top of the stack an instruction reads, how many of these it leaves, and how many it writes above those.
#[derive(Clone, Copy)]
pub(crate) struct StackUse {
    pops: u8,
    leaves: u8,
    pushes: u8,
}

/// Where the arguments of a call stand on the stack, how many they are, and whether it gives a result.
#[derive(Clone, Copy)]
pub(crate) struct CallUse {
    base: usize,
    arguments: usize,
    result: bool,
}

// ---- the table of opcodes

fn within(low: u8, high: u8, op: u8) -> bool
    ensures { result ≡ Operations.within low high op }
{
    low <= op && op <= high
}

fn using(pops: u8, leaves: u8, pushes: u8) -> StackUse
    ensures { stack_use result.pops result.leaves result.pushes ≡ stack_use pops leaves pushes }
{
    StackUse {
        pops,
        leaves,
        pushes,
    }
}

fn stack_use_of(op: u8) -> StackUse
    ensures { stack_use result.pops result.leaves result.pushes ≡ NodePlaces.stack_use_of op }
{
    if within(1, 45, op) {
        using(0, 0, 1)
    } else if within(46, 53, op) {
        using(2, 0, 1)
    } else if within(54, 78, op) {
        using(1, 0, 0)
    } else if within(79, 86, op) {
        using(3, 0, 0)
    } else if op == 87 {
        using(1, 0, 0)
    } else if op == 88 {
        using(2, 0, 0)
    } else if op == 89 {
        using(1, 1, 1)
    } else if op == 90 {
        using(2, 0, 3)
    } else if op == 91 {
        using(3, 0, 4)
    } else if op == 92 {
        using(2, 2, 2)
    } else if op == 93 {
        using(3, 0, 5)
    } else if op == 94 {
        using(4, 0, 6)
    } else if op == 95 {
        using(2, 0, 2)
    } else if op == 116 || within(145, 147, op) {
        using(1, 0, 1)
    } else if within(96, 130, op) {
        using(2, 0, 1)
    } else if within(153, 158, op) || within(198, 199, op) || within(170, 171, op) {
        using(1, 0, 0)
    } else if within(159, 166, op) {
        using(2, 0, 0)
    } else if op == 172 || op == 176 || op == 191 {
        using(1, 0, 0)
    } else if op == 178 || op == 187 {
        using(0, 0, 1)
    } else if op == 179 {
        using(1, 0, 0)
    } else if op == 180 {
        using(1, 0, 1)
    } else if op == 181 {
        using(2, 0, 0)
    } else if within(188, 190, op) || within(192, 193, op) {
        using(1, 0, 1)
    } else {
        using(0, 0, 0)
    }
}

fn short_read(op: u8) -> Option<u16>
    ensures { result ≡ NodePlaces.local_read (Plain op) }
{
    if within(26, 29, op) {
        Some(u16::from(op - 26))
    } else if within(42, 45, op) {
        Some(u16::from(op - 42))
    } else {
        None
    }
}

fn local_read(insn: Insn) -> Option<u16>
    ensures { result ≡ NodePlaces.local_read insn }
{
    match insn {
        Insn::Local { op, index, .. } => {
            if op == 21 || op == 25 {
                Some(index)
            } else {
                None
            }
        }
        Insn::Iinc { index, .. } => Some(index),
        Insn::Plain(op) => short_read(op),
        _ => None,
    }
}

fn short_written(op: u8) -> Option<u16>
    ensures { result ≡ NodePlaces.local_written (Plain op) }
{
    if within(59, 62, op) {
        Some(u16::from(op - 59))
    } else if within(75, 78, op) {
        Some(u16::from(op - 75))
    } else {
        None
    }
}

fn local_written(insn: Insn) -> Option<u16>
    ensures { result ≡ NodePlaces.local_written insn }
{
    match insn {
        Insn::Local { op, index, .. } => {
            if op == 54 || op == 58 {
                Some(index)
            } else {
                None
            }
        }
        Insn::Iinc { index, .. } => Some(index),
        Insn::Plain(op) => short_written(op),
        _ => None,
    }
}

// ---- adding places

fn add_local(places: &mut Places, local: Option<u16>) -> Result<(), Memory>
    ensures { OnOk result (AddsThose (Contains (local_place local)) places.old places.new) }
{
    match local {
        Some(k) => places.add(Place::Local(k)),
        None => Ok(()),
    }
}

/// The place of the stack so far above another. A height past 65,535 is none.
fn stack_place(from: usize, above: usize) -> Option<Place>
    ensures { IfSome result (λ place. place ≡ AStack (from + above)) }
{
    match u16::try_from(from.checked_add(above)?) {
        Ok(height) => Some(Place::Stack(height)),
        Err(_) => None,
    }
}

/// Adds so many places of the stack from a height on. Where one is past 65,535, as in no method that is typed, memory is said
/// to be wanting.
fn add_stack(places: &mut Places, from: usize, count: usize) -> Result<(), Memory>
    ensures { OnOk result (AddsThose (Contains (stack_places from count)) places.old places.new) }
{
    for above in 0..count {
        let Some(place) = stack_place(from, above) else {
            return Err(Memory);
        };
        places.add(place)?;
    }
    Ok(())
}

/// Adds the first locals. A local past 65,535 is none: for it memory is said to be wanting.
fn add_locals(places: &mut Places, count: usize) -> Result<(), Memory>
    ensures { OnOk result (AddsThose (Contains (map ALocal (range_with_len 0 count))) places.old places.new) }
{
    for k in 0..count {
        let Ok(local) = u16::try_from(k) else {
            return Err(Memory);
        };
        places.add(Place::Local(local))?;
    }
    Ok(())
}

fn one_place(alloc: Global, place: Place) -> Result<Places, Memory>
    ensures { IfOk result (λ places. HasThose (Contains (place ∷ [])) places) }
{
    let mut places = Places::new(alloc);
    places.add(place)?;
    Ok(places)
}

// ---- instructions

/// The instruction at a pc that is no call, with its height.
fn used_at(program: &Program, typed: &Typed, method: MethodId, pc: u32) -> Option<(Insn, u16)>
    ensures { result ≡ NodeUses.used_at program.now method typed.now pc }
{
    let Some(height) = typed.height(pc) else {
        return None;
    };
    let Some((insn, _)) = insn_at(program, method, pc) else {
        return None;
    };
    if is_call(opcode_of(insn)) {
        return None;
    }
    Some((insn, height))
}

fn add_reads(places: &mut Places, insn: Insn, height: u16) -> Result<(), Memory>
    ensures { OnOk result (AddsThose (Contains (NodePlaces.reads_of insn height)) places.old places.new) }
{
    let stack = stack_use_of(opcode_of(insn));
    let pops = usize::from(stack.pops);
    add_local(places, local_read(insn))?;
    add_stack(places, usize::from(height).saturating_sub(pops), pops)
}

fn add_writes(places: &mut Places, insn: Insn, height: u16) -> Result<(), Memory>
    ensures { OnOk result (AddsThose (Contains (NodePlaces.writes_of insn height)) places.old places.new) }
{
    let stack = stack_use_of(opcode_of(insn));
    let kept = usize::from(height).saturating_sub(usize::from(stack.pops))
        + usize::from(stack.leaves);
    add_local(places, local_written(insn))?;
    add_stack(places, kept, usize::from(stack.pushes))
}

fn with_reads(alloc: Global, insn: Insn, height: u16) -> Result<Places, Memory>
    ensures { IfOk result (λ places. HasThose (Contains (NodePlaces.reads_of insn height)) places) }
{
    let mut places = Places::new(alloc);
    add_reads(&mut places, insn, height)?;
    Ok(places)
}

fn with_writes(alloc: Global, insn: Insn, height: u16) -> Result<Places, Memory>
    ensures { IfOk result (λ places. HasThose (Contains (NodePlaces.writes_of insn height)) places) }
{
    let mut places = Places::new(alloc);
    add_writes(&mut places, insn, height)?;
    Ok(places)
}

fn with_stack(alloc: Global, from: usize, count: usize) -> Result<Places, Memory>
    ensures { IfOk result (λ places. HasThose (Contains (stack_places from count)) places) }
{
    let mut places = Places::new(alloc);
    add_stack(&mut places, from, count)?;
    Ok(places)
}

fn with_locals(alloc: Global, count: usize) -> Result<Places, Memory>
    ensures { IfOk result (λ places. HasThose (Contains (map ALocal (range_with_len 0 count))) places) }
{
    let mut places = Places::new(alloc);
    add_locals(&mut places, count)?;
    Ok(places)
}

fn insn_reads(alloc: Global, found: Option<(Insn, u16)>) -> Result<Places, Memory>
    ensures { IfOk result (λ places. HasThose (Contains (read_by found)) places) }
{
    match found {
        Some((insn, height)) => with_reads(alloc, insn, height),
        None => Ok(Places::new(alloc)),
    }
}

fn insn_writes(alloc: Global, found: Option<(Insn, u16)>) -> Result<Places, Memory>
    ensures { IfOk result (λ places. HasThose (Contains (written_by found)) places) }
{
    match found {
        Some((insn, height)) => with_writes(alloc, insn, height),
        None => Ok(Places::new(alloc)),
    }
}

// ---- calls

fn member_in(operand: Option<&Operand>) -> Option<&MemberRef>
    ensures { option_copied result ≡ NodeUses.ref_in (option_copied operand.entry) }
{
    let Some(Operand::Member(member)) = operand else {
        return None;
    };
    Some(member)
}

/// The member that an instruction names.
fn member_named(program: &Program, method: MethodId, insn: Insn) -> Option<&MemberRef>
    ensures { (next : ℕ) → option_copied result ≡ NodeUses.ref_in (WideGraph.operand_of program.now method (Some (insn, next))) }
{
    let operand = operand_of(program, method, insn);
    let member = member_in(operand);
    member
}

/// The opcode of an instruction that is a call, and what it names.
fn call_named(program: &Program, method: MethodId, insn: Insn) -> Option<(u8, &MemberRef)>
    ensures { (next : ℕ) → option_map (λ found. (found.0, found.1.now)) result ≡ NodeUses.member_if_call program.now method (Some (insn, next)) }
{
    let op = opcode_of(insn);
    if !is_call(op) {
        return None;
    }
    match member_named(program, method, insn) {
        Some(member) => Some((op, member)),
        None => None,
    }
}

/// The opcode of the call at a pc, and what it names.
fn called_at(program: &Program, method: MethodId, pc: u32) -> Option<(u8, &MemberRef)>
    ensures { option_map (λ found. (found.0, found.1.now)) result ≡ NodeUses.called_at program.now method pc }
{
    match insn_at(program, method, pc) {
        Some((insn, _)) => call_named(program, method, insn),
        None => None,
    }
}

fn used_by(op: u8, desc: &MethodDesc, height: u16) -> CallUse
    ensures { result ≡ record { base = height - argument_count op desc.now; arguments = argument_count op desc.now; result = is_some desc.now.result } }
{
    let receiver = if op == 184 { 0 } else { 1 };
    let arguments = desc.params.as_slice().len() + receiver;
    CallUse {
        base: usize::from(height).saturating_sub(arguments),
        arguments,
        result: desc.result.is_some(),
    }
}

/// What the call at a pc uses. `None` where no call stands, where it names no method, and where typing gives no height.
fn call_use(
    alloc: Global,
    program: &Program,
    typed: &Typed,
    method: MethodId,
    pc: u32,
) -> Result<Option<CallUse>, Memory>
    ensures { IfOk result (λ found. IsCallUse program.now method (HeightIs typed.now) pc found) }
{
    let Some(height) = typed.height(pc) else {
        return Ok(None);
    };
    let Some((op, member)) = called_at(program, method, pc) else {
        return Ok(None);
    };
    match read_method_desc(alloc, member.desc.as_slice()) {
        Ok(desc) => Ok(Some(used_by(op, &desc, height))),
        Err(DescFault::Bad) => Ok(None),
        Err(DescFault::Memory) => Err(Memory),
    }
}

fn argument_places(alloc: Global, found: Option<CallUse>) -> Result<Places, Memory>
    ensures { IfOk result (λ places. HasThose (Contains (arguments_of found)) places) }
{
    match found {
        Some(used) => with_stack(alloc, used.base, used.arguments),
        None => Ok(Places::new(alloc)),
    }
}

fn results(used: &CallUse) -> usize
    ensures { result ≡ (if used.now.result then 1 else 0) }
{
    if used.result { 1 } else { 0 }
}

fn result_places(alloc: Global, found: Option<CallUse>) -> Result<Places, Memory>
    ensures { IfOk result (λ places. HasThose (Contains (result_of found)) places) }
{
    match found {
        Some(used) => with_stack(alloc, used.base, results(&used)),
        None => Ok(Places::new(alloc)),
    }
}

// ---- parameters

fn counted(desc: &MethodDesc, flags: u16) -> usize
    ensures { result ≡ length desc.now.params + (if AccessFlags.has_flag static_flag flags then 0 else 1) }
{
    let this = if has_flag(ACC_STATIC, flags) { 0 } else { 1 };
    desc.params.as_slice().len() + this
}

/// How many parameters a method has, `this` included. `None` where there is no such method, or its descriptor is none.
pub fn parameters(
    alloc: Global,
    program: &Program,
    method: MethodId,
) -> Result<Option<usize>, Memory>
    ensures { IfOk result (λ count. AreParameters program.now method count) }
{
    let Some(method) = method_at(program, method) else {
        return Ok(None);
    };
    match read_method_desc(alloc, method.desc.as_slice()) {
        Ok(desc) => Ok(Some(counted(&desc, method.flags))),
        Err(DescFault::Bad) => Ok(None),
        Err(DescFault::Memory) => Err(Memory),
    }
}

fn parameter_places(alloc: Global, count: Option<usize>) -> Result<Places, Memory>
    ensures { IfOk result (λ places. HasThose (Contains (locals_of count)) places) }
{
    match count {
        Some(count) => with_locals(alloc, count),
        None => Ok(Places::new(alloc)),
    }
}

// ---- nodes

/// The places that a node reads. At a Call they are those of its arguments.
pub(crate) fn reads_of(
    alloc: Global,
    program: &Program,
    typed: &Typed,
    method: MethodId,
    kind: NodeKind,
) -> Result<Places, Memory>
    ensures { IfOk result (λ places. HasThose (ListsRead program.now method (HeightIs typed.now) kind) places) }
{
    match kind {
        NodeKind::Instr(pc) => insn_reads(alloc, used_at(program, typed, method, pc)),
        NodeKind::Call(pc) => {
            let used = call_use(alloc, program, typed, method, pc)?;
            argument_places(alloc, used)
        }
        NodeKind::Catch(_) => one_place(alloc, Place::Pending),
        _ => Ok(Places::new(alloc)),
    }
}

/// The places that a node writes.
pub(crate) fn writes_of(
    alloc: Global,
    program: &Program,
    typed: &Typed,
    method: MethodId,
    kind: NodeKind,
) -> Result<Places, Memory>
    ensures { IfOk result (λ places. HasThose (Writes program.now method (HeightIs typed.now) kind) places) }
{
    match kind {
        NodeKind::Entry => {
            let count = parameters(alloc, program, method)?;
            parameter_places(alloc, count)
        }
        NodeKind::Instr(pc) => insn_writes(alloc, used_at(program, typed, method, pc)),
        NodeKind::RetVal(pc) => {
            let used = call_use(alloc, program, typed, method, pc)?;
            result_places(alloc, used)
        }
        NodeKind::Throw(_) => one_place(alloc, Place::Pending),
        NodeKind::Catch(_) => one_place(alloc, Place::Stack(0)),
        _ => Ok(Places::new(alloc)),
    }
}
