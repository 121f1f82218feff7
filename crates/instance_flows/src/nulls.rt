//! Which definitions may be null, by the wide graph alone.
ghost use Rattle.std.specs.Prelude.{◌≡◌, ◌↔◌, ◌⊎◌, ℕ, ◌<◌, ◌+◌, true, length, Some, Contains, IfNone, IfOk, IfSome, OnOk, IsTrue};
ghost use Rattle.jo_graph.specs.Graphs.{HasEdge};
ghost use Rattle.jo_insn.specs.AccessFlags.{has_flag as has_flag_in, static_flag};
ghost use Rattle.jo_prog.specs.declared.program.Method.{Method as AMethod};
ghost use Rattle.jo_prog.specs.Operations;
ghost use Rattle.jo_prog.specs.Program.{method_at as method_there};
ghost use Rattle.jo_prog.specs.TypingPaths.{HasHeightAt};
ghost use Rattle.dep_nodes.specs.declared.kinds.NodeKind.{NodeKind as ANode};
ghost use Rattle.dep_nodes.specs.declared.kinds.NodeKind.TheVariants.{Entry};
ghost use Rattle.dependence.specs.declared.flows.Use.{Use as AUse};
ghost use Rattle.dependence.specs.FlowData.{AreUses};
ghost use Rattle.dependence.specs.GraphsAsData.{kind_at, IsWideGraph};
ghost use Rattle.dependence.specs.MayBeNull;
ghost use Rattle.dependence.specs.MayBeNull.{MayBeNull as ItMayBeNull, MayBeNullParameter};
ghost use Rattle.instance_flows.specs.NodeTests;
ghost use Rattle.instance_flows.specs.NodeTests.{AreNulls, GivesNullAt, NullComes, NullStep};

use dep_nodes::NodeKind;
use dependence::flow::Place;
use dependence::flows::{Flow, FlowNode, Use};
use jo_graph::{Digraph, Work};
use jo_ids::{BitRow, Memory, MethodId};
use jo_insn::{ACC_STATIC, has_flag};
use jo_prog::program::{Program, method_at};
use jo_prog::sites::opcode_of;
use std::alloc::Global;

// ---- nodes

pub(crate) fn is_entry(kind: NodeKind) -> bool
    ensures { result ≡ NodeTests.is_entry kind }
{
    match kind {
        NodeKind::Entry => true,
        _ => false,
    }
}

fn within(low: u8, high: u8, op: u8) -> bool
    ensures { result ≡ Operations.within low high op }
{
    low <= op && op <= high
}

fn may_give_null(op: u8) -> bool
    ensures { result ≡ MayBeNull.may_give_null op }
{
    op == 1 || op == 50 || op == 178 || op == 180
}

fn is_move(op: u8) -> bool
    ensures { result ≡ MayBeNull.is_move op }
{
    op == 25
        || within(42, 45, op)
        || op == 58
        || within(75, 78, op)
        || within(89, 95, op)
        || op == 192
}

/// Whether the node's value may be null, whatever it reads.
fn gives_null(node: &FlowNode) -> bool
    ensures { result ≡ NodeTests.gives_null_by node.now.kind node.now.insn }
{
    match node.kind {
        NodeKind::RetVal(_) => true,
        NodeKind::Instr(_) => match node.insn {
            Some(insn) => may_give_null(opcode_of(insn)),
            None => false,
        },
        _ => false,
    }
}

/// Whether the node's value is one that it reads.
fn moves(node: &FlowNode) -> bool
    ensures { result ≡ NodeTests.moves_by node.now.kind node.now.insn }
{
    match node.kind {
        NodeKind::Instr(_) => match node.insn {
            Some(insn) => is_move(opcode_of(insn)),
            None => false,
        },
        _ => false,
    }
}

// ---- parameters

fn is_static(program: &Program, method: MethodId) -> bool
    ensures { IsTrue result ↔ ((found : AMethod) × (method_there program.now method ≡ Some found) × (has_flag_in static_flag found.flags ≡ true)) }
{
    match method_at(program, method) {
        Some(method) => has_flag(ACC_STATIC, method.flags),
        None => false,
    }
}

/// Whether a parameter may be null: each but `this`.
fn local_may_be_null(program: &Program, method: MethodId, local: u16) -> bool
    ensures { IsTrue result ↔ MayBeNullParameter program.now method local }
{
    local > 0 || is_static(program, method)
}

/// Whether what Entry writes to a place may be null.
fn parameter_may_be_null(program: &Program, method: MethodId, place: Place) -> bool
    ensures { IsTrue result ↔ ItMayBeNull program.now method (HasHeightAt program.now method) Entry place }
{
    match place {
        Place::Local(local) => local_may_be_null(program, method, local),
        _ => false,
    }
}

// ---- how null comes from node to node

/// The number from which null comes to the node of a use.
fn null_comes_from(program: &Program, method: MethodId, wide: &Flow, u: &Use) -> Option<u32>
    requires node { u.now.node < length wide.now }
    requires from { u.now.from < length wide.now }
    ensures found { IfSome result (λ a. NullComes program.now method (HasHeightAt program.now method) wide.now u.now a) }
    ensures absent { IfNone result ((a : ℕ) → NullComes program.now method (HasHeightAt program.now method) wide.now u.now a → ⊥) }
{
    if !moves(wide.node(u.node)) {
        return None;
    }
    if !is_entry(wide.node(u.from).kind) {
        return Some(u.from);
    }
    if parameter_may_be_null(program, method, u.place) {
        Some(wide.len())
    } else {
        None
    }
}

fn add_giver(wide: &Flow, n: u32, graph: &mut Digraph) -> Result<(), Memory>
    requires node { n < length wide.now }
    requires room { length graph.old ≡ length wide.now + 1 }
    ensures edges { OnOk result ((x y : ℕ) → HasEdge graph.new x y ↔ (HasEdge graph.old x y ⊎ ((y ≡ n) × (x ≡ length wide.now) × GivesNullAt wide.now n))) }
    ensures room { length graph.new ≡ length graph.old }
{
    if !gives_null(wide.node(n)) {
        return Ok(());
    }
    graph.add(wide.len(), n)?;
    Ok(())
}

fn add_givers(wide: &Flow, graph: &mut Digraph) -> Result<(), Memory>
    requires { length graph.old ≡ length wide.now + 1 }
    ensures edges { OnOk result ((x y : ℕ) → HasEdge graph.new x y ↔ (HasEdge graph.old x y ⊎ ((x ≡ length wide.now) × GivesNullAt wide.now y))) }
    ensures room { length graph.new ≡ length graph.old }
{
    for n in 0..wide.len() {
        add_giver(wide, n, graph)?;
    }
    Ok(())
}

fn add_move(
    program: &Program,
    method: MethodId,
    wide: &Flow,
    u: &Use,
    graph: &mut Digraph,
) -> Result<(), Memory>
    requires room { length graph.old ≡ length wide.now + 1 }
    requires node { u.now.node < length wide.now }
    requires from { u.now.from < length wide.now }
    ensures edges { OnOk result ((x y : ℕ) → HasEdge graph.new x y ↔ (HasEdge graph.old x y ⊎ ((u.now.node ≡ y) × NullComes program.now method (HasHeightAt program.now method) wide.now u.now x))) }
    ensures room { length graph.new ≡ length graph.old }
{
    match null_comes_from(program, method, wide, u) {
        Some(from) => {
            graph.add(from, u.node)?;
            Ok(())
        }
        None => Ok(()),
    }
}

fn add_moves(
    program: &Program,
    method: MethodId,
    wide: &Flow,
    uses: &[Use],
    graph: &mut Digraph,
) -> Result<(), Memory>
    requires room { length graph.old ≡ length wide.now + 1 }
    requires uses { AreUses wide.now uses.now }
    ensures edges { OnOk result ((x y : ℕ) → HasEdge graph.new x y ↔ (HasEdge graph.old x y ⊎ ((u : AUse) × Contains uses.now u × (u.node ≡ y) × NullComes program.now method (HasHeightAt program.now method) wide.now u x))) }
    ensures room { length graph.new ≡ length graph.old }
{
    for u in uses {
        add_move(program, method, wide, u, graph)?;
    }
    Ok(())
}

/// Null as it comes from node to node, and to those that make it from a number behind them all.
fn null_graph(
    alloc: Global,
    program: &Program,
    method: MethodId,
    wide: &Flow,
    uses: &[Use],
    len: u32,
) -> Result<Digraph, Memory>
    requires uses { AreUses wide.now uses.now }
    requires len { len ≡ length wide.now + 1 }
    ensures edges { IfOk result (λ graph. (x y : ℕ) → HasEdge graph x y ↔ NullStep program.now method (HasHeightAt program.now method) wide.now uses.now x y) }
    ensures room { IfOk result (λ graph. length graph ≡ length wide.now + 1) }
{
    let mut graph = Digraph::new(alloc, len)?;
    add_givers(wide, &mut graph)?;
    add_moves(program, method, wide, uses, &mut graph)?;
    Ok(graph)
}

/// The nodes whose values may be null: the least such set, found by a search of what comes from what makes null.
pub(crate) fn nulls_of(
    alloc: Global,
    program: &Program,
    method: MethodId,
    wide: &Flow,
    uses: &[Use],
) -> Result<BitRow, Memory>
    requires graph { IsWideGraph program.now method (HasHeightAt program.now method) wide.now }
    requires uses { AreUses wide.now uses.now }
    ensures { IfOk result (λ null. AreNulls program.now method (HasHeightAt program.now method) wide.now null) }
{
    let Some(len) = wide.len().checked_add(1) else {
        return Err(Memory);
    };
    let graph = null_graph(alloc, program, method, wide, uses, len)?;
    let mut null = BitRow::with_len(alloc, len)?;
    let mut work = Work::with_len(alloc, len)?;
    graph.reach(wide.len(), &mut null, &mut work);
    Ok(null)
}

/// Whether the definition of a place at a node may be null.
pub(crate) fn definition_may_be_null(
    program: &Program,
    method: MethodId,
    wide: &Flow,
    null: &BitRow,
    from: u32,
    place: Place,
) -> bool
    requires there { from < length wide.now }
    requires null { AreNulls program.now method (HasHeightAt program.now method) wide.now null.now }
    ensures { (kind : ANode) → kind_at wide.now from ≡ Some kind → (IsTrue result ↔ ItMayBeNull program.now method (HasHeightAt program.now method) kind place) }
{
    if is_entry(wide.node(from).kind) {
        return parameter_may_be_null(program, method, place);
    }
    null.has(from)
}
