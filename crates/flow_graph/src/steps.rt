//! The steps of the wide graph from a node.
ghost use Rattle.std.specs.Prelude.{◌≡◌, ◌++◌, Some, IfOk, OnOk};
ghost use Rattle.std.specs.List.{flat_map};
ghost use Rattle.std.specs.Option.{option_to_list};
ghost use Rattle.jo_prog.specs.InsnTyping;
ghost use Rattle.jo_prog.specs.Program.{code_at as code_found};
ghost use Rattle.hierarchy.specs.Hierarchies.{IsHierarchyOf};
ghost use Rattle.dependence.specs.WideGraph;
ghost use Rattle.flow_graph.specs.Steps;

use crate::insns::{
    calls_native, first_at, goes_on, insn_at, is_call, is_return, may_throw, row_at,
};
use dep_nodes::NodeKind;
use hierarchy::Hierarchy;
use jo_ids::{Memory, MethodId};
use jo_insn::{Insn, Placed, targets_of};
use jo_prog::program::{Program, Row, code_at};
use jo_prog::sites::opcode_of;
use std::alloc::Global;

fn add(steps: &mut Vec<NodeKind>, step: Option<NodeKind>) -> Result<(), Memory>
    ensures { OnOk result (steps.new.items ≡ steps.old.items ++ option_to_list step) }
{
    if let Some(step) = step {
        steps.push(step)?;
    }
    Ok(())
}

fn add_if(steps: &mut Vec<NodeKind>, test: bool, step: NodeKind) -> Result<(), Memory>
    ensures { OnOk result (steps.new.items ≡ steps.old.items ++ Steps.step_if test step) }
{
    if test {
        steps.push(step)?;
    }
    Ok(())
}

fn add_first(
    program: &Program,
    method: MethodId,
    pc: u32,
    steps: &mut Vec<NodeKind>,
) -> Result<(), Memory>
    ensures { OnOk result (steps.new.items ≡ steps.old.items ++ Steps.first_steps program.now method pc) }
{
    let first = first_at(program, method, pc);
    add(steps, first)
}

fn add_fall(
    program: &Program,
    method: MethodId,
    insn: Insn,
    next: u32,
    steps: &mut Vec<NodeKind>,
) -> Result<(), Memory>
    ensures { OnOk result (steps.new.items ≡ steps.old.items ++ Steps.fall_steps program.now method insn next) }
{
    if !goes_on(opcode_of(insn)) {
        return Ok(());
    }
    add_first(program, method, next, steps)
}

fn pc_of(target: i64) -> Option<u32>
    ensures { result ≡ Steps.pc_of target }
{
    match u16::try_from(target) {
        Ok(pc) => Some(u32::from(pc)),
        Err(_) => None,
    }
}

/// Where a jump to a pc leads first.
fn jump_to(program: &Program, method: MethodId, pc: u32, target: u32) -> Option<NodeKind>
    ensures { option_to_list result ≡ Steps.jump_to program.now method pc (Some target) }
{
    match first_at(program, method, target) {
        Some(first) => {
            if pc < target {
                Some(first)
            } else {
                Some(NodeKind::Poll(pc, target))
            }
        }
        None => None,
    }
}

fn add_jump(
    program: &Program,
    method: MethodId,
    pc: u32,
    target: i64,
    steps: &mut Vec<NodeKind>,
) -> Result<(), Memory>
    ensures { OnOk result (steps.new.items ≡ steps.old.items ++ Steps.jump_to program.now method pc (Steps.pc_of target)) }
{
    let Some(target) = pc_of(target) else {
        return Ok(());
    };
    let step = jump_to(program, method, pc, target);
    add(steps, step)
}

fn add_each_jump(
    program: &Program,
    method: MethodId,
    pc: u32,
    targets: &[i64],
    steps: &mut Vec<NodeKind>,
) -> Result<(), Memory>
    ensures { OnOk result (steps.new.items ≡ steps.old.items ++ flat_map (λ target. Steps.jump_to program.now method pc (Steps.pc_of target)) targets.now) }
{
    for target in targets {
        add_jump(program, method, pc, *target, steps)?;
    }
    Ok(())
}

fn add_jumps(
    alloc: Global,
    program: &Program,
    method: MethodId,
    placed: &Placed,
    steps: &mut Vec<NodeKind>,
) -> Result<(), Memory>
    requires { WideGraph.insn_at program.now method placed.now.pc ≡ Some (placed.now.insn, placed.now.next) }
    ensures { OnOk result (steps.new.items ≡ steps.old.items ++ Steps.jump_steps program.now method placed.now.pc placed.now.insn) }
{
    let Some(code) = code_at(program, method) else {
        return Ok(());
    };
    let targets = targets_of(alloc, code.bytes.as_slice(), placed)?;
    add_each_jump(program, method, placed.pc, targets.as_slice(), steps)
}

fn insn_steps(
    alloc: Global,
    program: &Program,
    method: MethodId,
    pc: u32,
) -> Result<Vec<NodeKind>, Memory>
    ensures { IfOk result (λ steps. steps.items ≡ Steps.insn_steps program.now method pc (WideGraph.insn_at program.now method pc)) }
{
    let mut steps = Vec::new(alloc);
    let Some((insn, next)) = insn_at(program, method, pc) else {
        return Ok(steps);
    };
    let op = opcode_of(insn);
    let placed = Placed { pc, insn, next };
    add_fall(program, method, insn, next, &mut steps)?;
    add_jumps(alloc, program, method, &placed, &mut steps)?;
    add_if(&mut steps, is_return(op), NodeKind::Exit)?;
    let throws = may_throw(op) && !is_call(op);
    add_if(&mut steps, throws, NodeKind::Throw(pc))?;
    Ok(steps)
}

/// How a call is answered: by its result, or by how it ended.
fn answer_of(program: &Program, hierarchy: &Hierarchy, method: MethodId, pc: u32) -> NodeKind
    requires { IsHierarchyOf program.now hierarchy.now }
    ensures { result ≡ Steps.answer_of program.now method pc }
{
    if calls_native(program, hierarchy, method, pc) {
        NodeKind::RetVal(pc)
    } else {
        NodeKind::RetKind(pc)
    }
}

fn call_steps(
    alloc: Global,
    program: &Program,
    hierarchy: &Hierarchy,
    method: MethodId,
    pc: u32,
) -> Result<Vec<NodeKind>, Memory>
    requires { IsHierarchyOf program.now hierarchy.now }
    ensures { IfOk result (λ steps. steps.items ≡ Steps.call_steps program.now method pc (WideGraph.insn_at program.now method pc)) }
{
    let mut steps = Vec::new(alloc);
    let Some((insn, _)) = insn_at(program, method, pc) else {
        return Ok(steps);
    };
    let op = opcode_of(insn);
    if !is_call(op) {
        return Ok(steps);
    }
    steps.push(answer_of(program, hierarchy, method, pc))?;
    add_if(&mut steps, may_throw(op), NodeKind::Throw(pc))?;
    Ok(steps)
}

fn result_steps(
    alloc: Global,
    program: &Program,
    method: MethodId,
    pc: u32,
) -> Result<Vec<NodeKind>, Memory>
    ensures { IfOk result (λ steps. steps.items ≡ Steps.result_steps program.now method (WideGraph.insn_at program.now method pc)) }
{
    let mut steps = Vec::new(alloc);
    let Some((insn, next)) = insn_at(program, method, pc) else {
        return Ok(steps);
    };
    if !is_call(opcode_of(insn)) {
        return Ok(steps);
    }
    add_first(program, method, next, &mut steps)?;
    Ok(steps)
}

/// Whether the row covers the pc.
fn covers(pc: u32, row: &Row) -> bool
    ensures { result ≡ InsnTyping.covers pc row.now }
{
    u32::from(row.start) <= pc && pc < u32::from(row.end)
}

/// Where an exception at a pc goes by a row.
fn row_step(pc: u32, k: u32, row: &Row) -> Option<NodeKind>
    ensures { option_to_list result ≡ Steps.row_step pc k row.now }
{
    if !covers(pc, row) {
        return None;
    }
    if pc < u32::from(row.handler) {
        Some(NodeKind::Catch(k))
    } else {
        Some(NodeKind::XPoll(pc, k))
    }
}

/// Adds where an exception at a pc goes by these rows. A row past 2^32 has no number: for it memory is said to be wanting.
fn add_rows(pc: u32, rows: &[Row], steps: &mut Vec<NodeKind>) -> Result<(), Memory>
    ensures { OnOk result (steps.new.items ≡ steps.old.items ++ Steps.row_steps pc 0 rows.now) }
{
    for (k, row) in rows.iter().enumerate() {
        let Ok(k) = u32::try_from(k) else {
            return Err(Memory);
        };
        add(steps, row_step(pc, k, row))?;
    }
    Ok(())
}

fn throw_steps(
    alloc: Global,
    program: &Program,
    method: MethodId,
    pc: u32,
) -> Result<Vec<NodeKind>, Memory>
    ensures { IfOk result (λ steps. steps.items ≡ Steps.throw_steps pc (code_found program.now method)) }
{
    let mut ways = Vec::new(alloc);
    if let Some(code) = code_at(program, method) {
        add_rows(pc, code.rows.as_slice(), &mut ways)?;
    }
    ways.push(NodeKind::Exit)?;
    Ok(ways)
}

fn catch_steps(
    alloc: Global,
    program: &Program,
    method: MethodId,
    k: u32,
) -> Result<Vec<NodeKind>, Memory>
    ensures { IfOk result (λ steps. steps.items ≡ Steps.catch_steps program.now method (WideGraph.row_at program.now method k)) }
{
    let mut steps = Vec::new(alloc);
    let Some(row) = row_at(program, method, k) else {
        return Ok(steps);
    };
    add_first(program, method, u32::from(row.handler), &mut steps)?;
    Ok(steps)
}

/// To a pc, or to the end: of Entry and of a Poll.
fn first_or_exit(
    alloc: Global,
    program: &Program,
    method: MethodId,
    pc: u32,
) -> Result<Vec<NodeKind>, Memory>
    ensures { IfOk result (λ steps. steps.items ≡ Steps.poll_steps program.now method pc) }
{
    let mut steps = Vec::new(alloc);
    add_first(program, method, pc, &mut steps)?;
    steps.push(NodeKind::Exit)?;
    Ok(steps)
}

/// The steps from a node of the wide graph.
pub(crate) fn steps_from(
    alloc: Global,
    program: &Program,
    hierarchy: &Hierarchy,
    method: MethodId,
    kind: NodeKind,
) -> Result<Vec<NodeKind>, Memory>
    requires { IsHierarchyOf program.now hierarchy.now }
    ensures { IfOk result (λ steps. steps.items ≡ Steps.steps_from program.now method kind) }
{
    match kind {
        NodeKind::Entry => first_or_exit(alloc, program, method, 0),
        NodeKind::Instr(pc) => insn_steps(alloc, program, method, pc),
        NodeKind::Call(pc) => call_steps(alloc, program, hierarchy, method, pc),
        NodeKind::RetVal(pc) => result_steps(alloc, program, method, pc),
        NodeKind::RetKind(pc) => Ok(vec![in alloc;
            NodeKind::RetVal(pc),
            NodeKind::Throw(pc),
            NodeKind::Exit,
        ]?),
        NodeKind::Throw(pc) => throw_steps(alloc, program, method, pc),
        NodeKind::Catch(k) => catch_steps(alloc, program, method, k),
        NodeKind::Poll(_, target) => first_or_exit(alloc, program, method, target),
        NodeKind::XPoll(_, k) => Ok(vec![in alloc; NodeKind::Catch(k), NodeKind::Exit]?),
        _ => Ok(Vec::new(alloc)),
    }
}
