//! The wide graph of a method.
ghost use Rattle.std.specs.Prelude.{◌≡◌, ℕ, ◌<◌, ◌^◌, length, Some, option_map, IfErr, IfOk, OnOk};
ghost use Rattle.jo_insn.specs.declared.instructions.Insn.{Insn as AnInsn};
ghost use Rattle.hierarchy.specs.Hierarchies.{IsHierarchyOf};
ghost use Rattle.dep_nodes.specs.OnceLists.{IsOnceEach};
ghost use Rattle.dependence.specs.WideGraph.{insn_at as insn_there, IsWideNode};
ghost use Rattle.dependence.specs.GraphsAsData.{HasMoreNodes, IsWideGraph, node_with, pc_kept};
ghost use Rattle.flow_graph.specs.Adding.{HasThose};
ghost use Rattle.flow_graph.specs.Exploring.{AreWideNodes, IsLimitOf};
ghost use Rattle.flow_graph.specs.NodeUses.{HeightIs};
ghost use Rattle.flow_graph.specs.Rows.{AddsNumber, IsNumberAmong, IsRowOf, AreRowsOf};

use crate::exploring::{kind_at, wide_nodes, wide_steps};
use crate::insns::{field_at, insn_at, resolved_at};
use crate::node_places::{reads_of, writes_of};
use crate::spots::Spot;
use dep_nodes::{NodeKind, OnceList};
use dependence::flows::{Flow, FlowNode, FlowRow};
use hierarchy::Hierarchy;
use jo_ids::{LimitKind, List, Memory, MethodId};
use jo_insn::Insn;
use jo_prog::lists::add;
use jo_prog::program::Program;
use jo_prog::typed::Typed;
use std::alloc::{AllocError, Global};

/// Why a flow graph isn't made.
#[derive(Clone, Copy, PartialEq, Eq, Debug)]
pub enum FlowFault {
    /// It has more nodes than the limit.
    Limit(LimitKind),
    Memory,
}

impl From<AllocError> for FlowFault {
    ghost use Rattle.std.specs.Prelude.{◌≡◌};
    ghost use Rattle.flow_graph.specs.declared.wide.FlowFault.TheVariants.{Memory};

    ghost from_gives = { λ _ fault. fault ≡ Memory };

    fn from(_e: AllocError) -> FlowFault {
        FlowFault::Memory
    }
}

// ---- what a node keeps

fn insn_kept(program: &Program, method: MethodId, pc: u32) -> Option<Insn>
    ensures { result ≡ option_map (λ (found : AnInsn × ℕ). found.0) (insn_there program.now method pc) }
{
    match insn_at(program, method, pc) {
        Some((insn, _)) => Some(insn),
        None => None,
    }
}

fn node_at_pc(
    program: &Program,
    hierarchy: &Hierarchy,
    method: MethodId,
    kind: NodeKind,
    pc: u32,
) -> FlowNode
    requires { IsHierarchyOf program.now hierarchy.now }
    ensures { result ≡ node_with program.now method kind (Some pc) }
{
    FlowNode {
        kind,
        insn: insn_kept(program, method, pc),
        field: field_at(program, hierarchy, method, pc),
        method: resolved_at(program, hierarchy, method, pc),
    }
}

fn node_of(program: &Program, hierarchy: &Hierarchy, method: MethodId, kind: NodeKind) -> FlowNode
    requires { IsHierarchyOf program.now hierarchy.now }
    ensures { result ≡ node_with program.now method kind (pc_kept kind) }
{
    match kind {
        NodeKind::Instr(pc) => node_at_pc(program, hierarchy, method, kind, pc),
        NodeKind::Call(pc) => node_at_pc(program, hierarchy, method, kind, pc),
        NodeKind::RetVal(pc) => node_at_pc(program, hierarchy, method, kind, pc),
        _ => FlowNode {
            kind,
            insn: None,
            field: None,
            method: None,
        },
    }
}

// ---- successors by number

/// Adds the number of the node, if it is in the list.
fn add_number(nodes: &OnceList<Spot>, kind: NodeKind, numbers: &mut Vec<u32>) -> Result<(), Memory>
    requires { length nodes.now < 2 ^ 32 }
    ensures { OnOk result (AddsNumber nodes.now kind numbers.old.items numbers.new.items) }
{
    match nodes.find(&Spot::of(kind)) {
        Some(number) => {
            numbers.push(number as u32)?;
            Ok(())
        }
        None => Ok(()),
    }
}

/// The numbers of those of these nodes that are in the list, as they come.
fn numbers_as_they_come(
    alloc: Global,
    nodes: &OnceList<Spot>,
    kinds: &[NodeKind],
) -> Result<Vec<u32>, Memory>
    requires few { length nodes.now < 2 ^ 32 }
    requires nodes { IsOnceEach nodes.now }
    ensures { IfOk result (λ numbers. HasThose (IsNumberAmong nodes.now kinds.now) numbers.items) }
{
    let mut numbers = Vec::new(alloc);
    for kind in kinds {
        add_number(nodes, *kind, &mut numbers)?;
    }
    Ok(numbers)
}

/// The same in order, each once.
fn numbers_of(alloc: Global, nodes: &OnceList<Spot>, kinds: &[NodeKind]) -> Result<Vec<u32>, Memory>
    requires few { length nodes.now < 2 ^ 32 }
    requires nodes { IsOnceEach nodes.now }
    ensures those { IfOk result (λ numbers. HasThose (IsNumberAmong nodes.now kinds.now) numbers.items) }
    ensures once { IfOk result (λ numbers. IsOnceEach numbers.items) }
{
    let mut numbers = numbers_as_they_come(alloc, nodes, kinds)?;
    numbers.sort()?;
    numbers.dedup();
    Ok(numbers)
}

fn listed(alloc: Global, numbers: &[u32]) -> Result<List<u32>, Memory>
    ensures { IfOk result (λ list. list ≡ numbers.now) }
{
    let mut list = List::new(alloc);
    for number in numbers {
        add(&mut list, *number)?;
    }
    Ok(list)
}

// ---- rows

fn row_of(
    alloc: Global,
    program: &Program,
    hierarchy: &Hierarchy,
    typed: &Typed,
    method: MethodId,
    nodes: &OnceList<Spot>,
    kind: NodeKind,
) -> Result<FlowRow, Memory>
    requires kept { IsHierarchyOf program.now hierarchy.now }
    requires few { length nodes.now < 2 ^ 32 }
    requires nodes { IsOnceEach nodes.now }
    requires there { IsWideNode program.now method kind }
    ensures { IfOk result (λ row. IsRowOf program.now method typed.now nodes.now kind row) }
{
    let steps = wide_steps(alloc, program, hierarchy, method, kind)?;
    let numbers = numbers_of(alloc, nodes, steps.as_slice())?;
    let successors = listed(alloc, numbers.as_slice())?;
    let reads = reads_of(alloc, program, typed, method, kind)?;
    let writes = writes_of(alloc, program, typed, method, kind)?;
    Ok(FlowRow {
        node: node_of(program, hierarchy, method, kind),
        successors,
        reads,
        writes,
    })
}

fn rows_of(
    alloc: Global,
    program: &Program,
    hierarchy: &Hierarchy,
    typed: &Typed,
    method: MethodId,
    nodes: &OnceList<Spot>,
) -> Result<Vec<FlowRow>, Memory>
    requires kept { IsHierarchyOf program.now hierarchy.now }
    requires few { length nodes.now < 2 ^ 32 }
    requires nodes { AreWideNodes program.now method nodes.now }
    ensures { IfOk result (λ rows. AreRowsOf program.now method typed.now nodes.now rows.items) }
{
    let mut rows = Vec::new(alloc);
    let mut done = 0;
    while done < nodes.as_slice().len() {
        let kind = kind_at(nodes, done);
        let row = row_of(alloc, program, hierarchy, typed, method, nodes, kind)?;
        rows.push(row)?;
        done += 1;
    }
    Ok(rows)
}

/// The wide graph of a method, at the heights that typing gives. Its nodes stand in the order in which a search breadth first
/// from Entry comes to them, and the successors of a node in the order of their numbers.
pub fn wide_of(
    alloc: Global,
    program: &Program,
    hierarchy: &Hierarchy,
    typed: &Typed,
    method: MethodId,
) -> Result<Flow, FlowFault>
    requires { IsHierarchyOf program.now hierarchy.now }
    ensures graph { IfOk result (λ flow. IsWideGraph program.now method (HeightIs typed.now) flow) }
    ensures few { IfOk result (λ _. HasMoreNodes program.now method 16384 → ⊥) }
    ensures limit { IfErr result (λ fault. IsLimitOf program.now method fault) }
{
    let nodes = match wide_nodes(alloc, program, hierarchy, method) {
        Ok(nodes) => nodes,
        Err(fault) => return Err(fault),
    };
    let rows = rows_of(alloc, program, hierarchy, typed, method, &nodes)?;
    Ok(Flow::of(alloc, rows))
}
