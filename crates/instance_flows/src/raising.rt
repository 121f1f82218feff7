//! Which instructions may raise an exception at their own pc, by the definitions that arrive at them.
ghost use Rattle.std.specs.Prelude.{◌≡◌, ◌↔◌, ◌⊎◌, ℕ, ◌<◌, ◌^◌, ◌==◌, length, true, false, Some, Contains, option_map, IfOk, IfNone, IfSome, IsTrue, OnOk};
ghost use Rattle.std.specs.Option.{option_copied};
ghost use Rattle.jo_ids.specs.Rows.{has_number};
ghost use Rattle.jo_prog.specs.TypingPaths.{HasHeightAt};
ghost use Rattle.jo_prog.specs.declared.sites.Cause.TheVariants.{NullBase, ZeroDivisor, NegativeLength};
ghost use Rattle.jo_prog.specs.Sites.{opcode_of as opcode_in, may_raise as may_raise_for};
ghost use Rattle.jo_prog.specs.declared.program.Program.{Program as AProgram};
ghost use Rattle.jo_insn.specs.declared.instructions.Insn.TheVariants.{Plain};
ghost use Rattle.dependence.specs.WideGraph.{operand_of as operand_there};
ghost use Rattle.instance_flows.specs.Bases;
ghost use Rattle.jo_prog.specs.Operations;
ghost use Rattle.hierarchy.specs.Hierarchies.{IsHierarchyOf};
ghost use Rattle.dep_nodes.specs.declared.kinds.NodeKind.{NodeKind as ANode};
ghost use Rattle.dependence.specs.declared.flow.Place.TheVariants.{Stack};
ghost use Rattle.dependence.specs.declared.flows.Use.{Use as AUse};
ghost use Rattle.dependence.specs.FlowData.{AreUses, ReadsIn, IsUse};
ghost use Rattle.dependence.specs.GraphsAsData.{kind_at, IsWideGraph};
ghost use Rattle.dependence.specs.MayBeNull;
ghost use Rattle.dependence.specs.NodePlaces;
ghost use Rattle.dependence.specs.FlowGraph;
ghost use Rattle.dependence.specs.FlowGraph.{BasePlace, IsUnlike, is_not_zero, is_not_negative};
ghost use Rattle.instance_flows.specs.InstanceFlow.{AreHeightsOf};
ghost use Rattle.instance_flows.specs.NodeTests;
ghost use Rattle.instance_flows.specs.NodeTests.{AreNulls};
ghost use Rattle.instance_flows.specs.BySite.{BySite};
ghost use Rattle.instance_flows.specs.Bases.{IsLeastOf, IsBelowTop};
ghost use Rattle.instance_flows.specs.Raising.{UseAt, UseRaises, NullRaises, OperandRaises, ValueRaises, AlwaysAt, AreRaisingBy};

use crate::nulls::definition_may_be_null;
use crate::objects::{named_by, operand_of, some_object_raises};
use dep_nodes::NodeKind;
use dependence::flow::Place;
use dependence::flows::{Flow, FlowNode, Use};
use fact_sets::facts::Facts;
use hierarchy::Hierarchy;
use jo_ids::{BitRow, InstanceId, Memory, MethodId};
use jo_insn::Insn;
use jo_prog::program::{Operand, Program};
use jo_prog::sites::{Cause, may_raise, opcode_of};
use jo_prog::typed::Typed;
use std::alloc::Global;
use std::hash::Hash;

fn within(low: u8, high: u8, op: u8) -> bool
    ensures { result ≡ Operations.within low high op }
{
    low <= op && op <= high
}

// ---- what stands at a node

/// The instruction that stands at a node, with its pc.
fn standing(node: &FlowNode) -> Option<(u32, Insn)>
    ensures { result ≡ NodeTests.standing_by node.now.kind node.now.insn }
{
    let pc = match node.kind {
        NodeKind::Instr(pc) => pc,
        NodeKind::Call(pc) => pc,
        _ => return None,
    };
    match node.insn {
        Some(insn) => Some((pc, insn)),
        None => None,
    }
}

fn always_raises(at: Option<(u32, Insn)>) -> bool
    ensures { result ≡ NodeTests.always_raises at }
{
    match at {
        Some((_, insn)) => { may_raise(Cause::BadIndex, opcode_of(insn)) || opcode_of(insn) == 191 }
        None => false,
    }
}

// ---- the base of an instruction

fn base_depth(op: u8) -> u16
    ensures { result ≡ FlowGraph.base_depth op }
{
    if within(46, 53, op) {
        2
    } else if within(79, 86, op) {
        3
    } else if op == 181 {
        2
    } else {
        1
    }
}

/// Whether the place is so far below the top of the stack at a pc, counted from 1.
fn is_below(typed: &Typed, pc: u32, depth: u16, place: Place) -> bool
    ensures { IsTrue result ↔ IsBelowTop typed.now pc depth place }
{
    match typed.height(pc) {
        Some(height) => place == Place::Stack(height.saturating_sub(depth)),
        None => false,
    }
}

fn is_lower(place: Place, other: Place) -> bool
    ensures { result ≡ Bases.is_lower place other }
{
    match place {
        Place::Stack(low) => match other {
            Place::Stack(high) => low < high,
            _ => false,
        },
        _ => false,
    }
}

/// Whether none of the places is lower on the stack.
fn is_least(places: &[Place], place: Place) -> bool
    ensures { IsTrue result ↔ IsLeastOf places.now place }
{
    for other in places {
        if is_lower(*other, place) {
            return false;
        }
    }
    true
}

/// Whether the place of a use is the base of the instruction there: of a call the lowest of its arguments.
fn is_base(typed: &Typed, wide: &Flow, u: &Use, pc: u32, insn: Insn) -> bool
    requires node { u.now.node < length wide.now }
    ensures { (program : AProgram) (m : ℕ) → IsWideGraph program m (HasHeightAt program m) wide.now → AreHeightsOf program m typed.now → UseAt program m wide.now u.now pc insn
        → (IsTrue result ↔ BasePlace program m (HasHeightAt program m) pc u.now.place) }
{
    let op = opcode_of(insn);
    if within(182, 185, op) {
        return is_least(wide.reads(u.node), u.place);
    }
    is_below(typed, pc, base_depth(op), u.place)
}

// ---- constants

fn int_operand(operand: Option<&Operand>) -> Option<i32>
    ensures { result ≡ MayBeNull.int_operand (option_copied operand.entry) }
{
    let Some(Operand::Int(value)) = operand else {
        return None;
    };
    Some(*value)
}

fn short_constant(op: u8) -> Option<i32>
    ensures { (program : AProgram) (m : ℕ) → result ≡ MayBeNull.constant_of program m (Plain op) }
{
    if within(2, 8, op) {
        Some(i32::from(op) - 3)
    } else {
        None
    }
}

fn named_constant(program: &Program, method: MethodId, insn: Insn) -> Option<i32>
    ensures { (next : ℕ) → result ≡ MayBeNull.int_operand (operand_there program.now method (Some (insn, next))) }
{
    let operand = operand_of(program, method, insn);
    let value = int_operand(operand);
    value
}

/// The int constant that an instruction loads.
fn constant_of(program: &Program, method: MethodId, insn: Insn) -> Option<i32>
    ensures { result ≡ MayBeNull.constant_of program.now method insn }
{
    match insn {
        Insn::Plain(op) => short_constant(op),
        Insn::Push { value, .. } => Some(value),
        Insn::Pooled { op, .. } => {
            if within(18, 19, op) {
                named_constant(program, method, insn)
            } else {
                None
            }
        }
        _ => None,
    }
}

/// The int constant that a node writes.
fn constant_at(program: &Program, method: MethodId, node: &FlowNode) -> Option<i32>
    ensures { result ≡ NodeTests.constant_by program.now method node.now.kind node.now.insn }
{
    match node.kind {
        NodeKind::Instr(_) => match node.insn {
            Some(insn) => constant_of(program, method, insn),
            None => None,
        },
        _ => None,
    }
}

fn may_be_zero(constant: Option<i32>) -> bool
    ensures { IsTrue result ↔ IsUnlike constant is_not_zero }
{
    match constant {
        Some(value) => value == 0,
        None => true,
    }
}

fn may_be_negative(constant: Option<i32>) -> bool
    ensures { IsTrue result ↔ IsUnlike constant is_not_negative }
{
    match constant {
        Some(value) => value < 0,
        None => true,
    }
}

// ---- definitions

/// Whether the value of the definition may be null where the instruction needs an object.
fn null_raises(
    program: &Program,
    method: MethodId,
    wide: &Flow,
    null: &BitRow,
    u: &Use,
    op: u8,
) -> bool
    requires null { AreNulls program.now method (HasHeightAt program.now method) wide.now null.now }
    requires from { u.now.from < length wide.now }
    ensures { (d : ANode) → kind_at wide.now u.now.from ≡ Some d → (IsTrue result ↔ NullRaises program.now (HasHeightAt program.now method) method op d u.now.place) }
{
    if !may_raise(Cause::NullBase, op) {
        return false;
    }
    definition_may_be_null(program, method, wide, null, u.from, u.place)
}

fn zero_raises(op: u8, constant: Option<i32>) -> bool
    ensures { IsTrue result ↔ ((may_raise_for ZeroDivisor op ≡ true) × IsUnlike constant is_not_zero) }
{
    may_raise(Cause::ZeroDivisor, op) && may_be_zero(constant)
}

fn negative_raises(op: u8, constant: Option<i32>) -> bool
    ensures { IsTrue result ↔ ((may_raise_for NegativeLength op ≡ true) × IsUnlike constant is_not_negative) }
{
    may_raise(Cause::NegativeLength, op) && may_be_negative(constant)
}

/// Whether the value of the definition is null, or an int that the instruction can't take.
fn operand_raises(
    program: &Program,
    method: MethodId,
    wide: &Flow,
    null: &BitRow,
    u: &Use,
    op: u8,
) -> bool
    requires graph { IsWideGraph program.now method (HasHeightAt program.now method) wide.now }
    requires null { AreNulls program.now method (HasHeightAt program.now method) wide.now null.now }
    requires from { u.now.from < length wide.now }
    ensures { (d : ANode) → kind_at wide.now u.now.from ≡ Some d
        → (IsTrue result ↔ OperandRaises program.now (HasHeightAt program.now method) method op d u.now.place) }
{
    if null_raises(program, method, wide, null, u, op) {
        return true;
    }
    let constant = constant_at(program, method, wide.node(u.from));
    if zero_raises(op, constant) {
        return true;
    }
    negative_raises(op, constant)
}

// ---- uses

/// Whether the definition of a use of the base makes the instruction there raise an exception.
fn value_raises<C: Copy + Ord + Hash>(
    alloc: Global,
    program: &Program,
    hierarchy: &Hierarchy,
    method: MethodId,
    wide: &Flow,
    null: &BitRow,
    facts: &Facts<C>,
    instance: InstanceId,
    u: &Use,
    pc: u32,
    insn: Insn,
) -> Result<bool, Memory>
    requires kept { IsHierarchyOf program.now hierarchy.now }
    requires short { length program.now.classes < 2 ^ 32 }
    requires graph { IsWideGraph program.now method (HasHeightAt program.now method) wide.now }
    requires null { AreNulls program.now method (HasHeightAt program.now method) wide.now null.now }
    requires node { u.now.node < length wide.now }
    requires from { u.now.from < length wide.now }
    requires at { UseAt program.now method wide.now u.now pc insn }
    ensures { IfOk result (λ raises. (d : ANode) → kind_at wide.now u.now.from ≡ Some d
        → (IsTrue raises ↔ ValueRaises program.now (BySite facts.now instance) (HasHeightAt program.now method) method pc (opcode_in insn) d u.now.place)) }
{
    if operand_raises(program, method, wide, null, u, opcode_of(insn)) {
        return Ok(true);
    }
    let holder = named_by(wide.node(u.from).kind, u.place);
    let resolved = &wide.node(u.node).method;
    some_object_raises(
        alloc, program, hierarchy, method, facts, instance, holder, pc, insn, resolved,
    )
}

/// Whether the definition of a use makes the instruction at its node raise an exception.
fn use_raises<C: Copy + Ord + Hash>(
    alloc: Global,
    program: &Program,
    hierarchy: &Hierarchy,
    method: MethodId,
    typed: &Typed,
    wide: &Flow,
    null: &BitRow,
    facts: &Facts<C>,
    instance: InstanceId,
    u: &Use,
) -> Result<bool, Memory>
    requires kept { IsHierarchyOf program.now hierarchy.now }
    requires short { length program.now.classes < 2 ^ 32 }
    requires graph { IsWideGraph program.now method (HasHeightAt program.now method) wide.now }
    requires heights { AreHeightsOf program.now method typed.now }
    requires null { AreNulls program.now method (HasHeightAt program.now method) wide.now null.now }
    requires is_use { IsUse wide.now u.now }
    requires node { u.now.node < length wide.now }
    requires from { u.now.from < length wide.now }
    ensures { IfOk result (λ raises. IsTrue raises ↔ UseRaises program.now (BySite facts.now instance) (HasHeightAt program.now method) method wide.now u.now) }
{
    let Some((pc, insn)) = standing(wide.node(u.node)) else {
        return Ok(false);
    };
    if !is_base(typed, wide, u, pc, insn) {
        return Ok(false);
    }
    value_raises(
        alloc, program, hierarchy, method, wide, null, facts, instance, u, pc, insn,
    )
}

// ---- nodes

/// Adds the number to the set where it is to be marked.
fn mark(raising: &mut BitRow, n: u32, marks: bool)
    requires { n < length raising.old }
    ensures same { length raising.new ≡ length raising.old }
    ensures each { (x : ℕ) → (has_number raising.new x ≡ true) ↔ ((has_number raising.old x ≡ true) ⊎ ((x ≡ n) × (marks ≡ true))) }
{
    if !marks {
        return;
    }
    raising.set(n);
}

fn mark_always(wide: &Flow, raising: &mut BitRow)
    requires { length raising.old ≡ length wide.now }
    ensures same { length raising.new ≡ length wide.now }
    ensures each { (n : ℕ) → (has_number raising.new n ≡ true) ↔ ((has_number raising.old n ≡ true) ⊎ AlwaysAt wide.now n) }
{
    for n in 0..wide.len() {
        mark(raising, n, always_raises(standing(wide.node(n))));
    }
}

/// The instructions that may throw at their own pc: those that always may, and those that some definition makes raise an exception.
/// It looks at each node and at each use once.
pub(crate) fn raising_of<C: Copy + Ord + Hash>(
    alloc: Global,
    program: &Program,
    hierarchy: &Hierarchy,
    method: MethodId,
    typed: &Typed,
    wide: &Flow,
    uses: &[Use],
    null: &BitRow,
    facts: &Facts<C>,
    instance: InstanceId,
) -> Result<BitRow, Memory>
    requires kept { IsHierarchyOf program.now hierarchy.now }
    requires short { length program.now.classes < 2 ^ 32 }
    requires graph { IsWideGraph program.now method (HasHeightAt program.now method) wide.now }
    requires heights { AreHeightsOf program.now method typed.now }
    requires uses { AreUses wide.now uses.now }
    requires null { AreNulls program.now method (HasHeightAt program.now method) wide.now null.now }
    ensures same { IfOk result (λ raising. length raising ≡ length wide.now) }
    ensures each { IfOk result (λ raising. AreRaisingBy program.now (BySite facts.now instance) (HasHeightAt program.now method) method wide.now uses.now raising) }
{
    let mut raising = BitRow::with_len(alloc, wide.len())?;
    mark_always(wide, &mut raising);
    for u in uses {
        let raises = use_raises(
            alloc, program, hierarchy, method, typed, wide, null, facts, instance, u,
        )?;
        mark(&mut raising, u.node, raises);
    }
    Ok(raising)
}
