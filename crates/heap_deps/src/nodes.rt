//! Accesses that nodes make by themselves.
ghost use Rattle.std.specs.Prelude.{◌≡◌, ◌<◌, ◌^◌, ◌+◌, ◌≤◌, ℕ, length, option_map, Contains};
ghost use Rattle.dep_nodes.specs.OneForm.{plain_cell};
ghost use Rattle.heap_deps.specs.Items.{GrowsOrStops};
ghost use Rattle.heap_deps.specs.Accesses.{ReadsAndWrites, IsCursorOf, StaticMakes, SourceMakes, IsStartBy, StartMakes, NodeMakesBy};
ghost use Rattle.jo_insn.specs.declared.instructions.Insn.{Insn as AnInsn};
ghost use Rattle.jo_prog.specs.declared.program.Program.{Program as AProgram};
ghost use Rattle.hierarchy.specs.Hierarchies.{IsHierarchyOf};
ghost use Rattle.dependence.specs.WideGraph;
ghost use Rattle.dependence.specs.GraphsAsData.{node_with, pc_kept};
ghost use Rattle.fact_sets.specs.FactLists.{IsInstance};
ghost use Rattle.fact_sets.specs.Seen.{Known, instance_seen, object_seen};
ghost use Rattle.heap_deps.specs.Adds.{From};
ghost use Rattle.heap_deps.specs.ObjectCells.{OfObject};

use crate::additions::add_access;
use crate::instructions::{is_source, static_access};
use crate::objects::name_of;
use crate::starts::{site_starts, start_call};
use contexts::Contexts;
use dep_nodes::{Cell, DependenceGraph, GraphFault, NodeKind};
use dependence::facts::InstKey;
use dependence::flows::FlowNode;
use fact_sets::facts::Facts;
use fact_sets::numbered::Holder;
use hierarchy::Hierarchy;
use jo_ids::{InstanceId, MethodId, NodeId, ObjKey, ObjectId};
use jo_prog::labels::Labels;
use jo_prog::program::{Program, TypeRef};
use jo_prog::sites::opcode_of;
use std::alloc::Global;

/// Adds that a node reads the cell and that it writes it.
pub(crate) fn add_both(
    graph: &mut DependenceGraph,
    node: NodeId,
    cell: &Cell,
) -> Result<(), GraphFault>
    requires { node < length graph.old }
    ensures { GrowsOrStops result graph.old graph.new (ReadsAndWrites node (plain_cell cell.now)) }
{
    add_access(graph, node, *cell, false)?;
    add_access(graph, node, *cell, true)
}

/// Adds the access of an instruction to a static field.
pub(crate) fn add_static(
    flow_node: &FlowNode,
    node: NodeId,
    graph: &mut DependenceGraph,
) -> Result<(), GraphFault>
    requires { node < length graph.old }
    ensures { GrowsOrStops result graph.old graph.new (StaticMakes node flow_node.now) }
{
    match static_access(&flow_node.insn, &flow_node.field) {
        Some(access) => add_access(graph, node, Cell::Static(access.field), access.write),
        None => Ok(()),
    }
}

fn add_cursor(
    labels: &Labels,
    source: MethodId,
    node: NodeId,
    graph: &mut DependenceGraph,
) -> Result<(), GraphFault>
    requires { node < length graph.old }
    ensures { GrowsOrStops result graph.old graph.new (IsCursorOf labels.now source node) }
{
    if !is_source(labels, source) {
        return Ok(());
    }
    add_both(graph, node, &Cell::Cursor(source))
}

/// Adds that the result of a call of a source reads the cursor of its inputs and moves it on.
pub(crate) fn add_source(
    labels: &Labels,
    flow_node: &FlowNode,
    node: NodeId,
    graph: &mut DependenceGraph,
) -> Result<(), GraphFault>
    requires { node < length graph.old }
    ensures { GrowsOrStops result graph.old graph.new (SourceMakes labels.now node flow_node.now) }
{
    match &flow_node.method {
        Some(source) => add_cursor(labels, *source, node, graph),
        None => Ok(()),
    }
}

// ---- calls that start threads

/// Adds that a call reads and sets whether the thread of an object is started, where it starts that.
fn add_start<X: Contexts>(
    alloc: Global,
    program: &Program,
    hierarchy: &Hierarchy,
    contexts: &X,
    method: MethodId,
    op: u8,
    named: &TypeRef,
    resolved: MethodId,
    object: ObjKey<X::C>,
    node: NodeId,
    graph: &mut DependenceGraph,
) -> Result<(), GraphFault>
    requires kept { IsHierarchyOf program.now hierarchy.now }
    requires short { length program.now.classes < 2 ^ 32 }
    requires node { node < length graph.old }
    ensures { GrowsOrStops result graph.old graph.new (IsStartBy program.now method op named.now resolved node (object_seen X.list object)) }
{
    let starts = match site_starts(
        alloc,
        program,
        hierarchy,
        method,
        op,
        named,
        resolved,
        object.site,
    ) {
        Ok(starts) => starts,
        Err(_) => return Err(GraphFault::Memory),
    };
    if !starts {
        return Ok(());
    }
    add_both(graph, node, &Cell::Started(name_of(contexts, object)))
}

/// Adds these of each object.
fn add_each_start<X: Contexts>(
    alloc: Global,
    program: &Program,
    hierarchy: &Hierarchy,
    contexts: &X,
    facts: &Facts<X::C>,
    method: MethodId,
    op: u8,
    named: &TypeRef,
    resolved: &MethodId,
    held: &[ObjectId],
    node: NodeId,
    graph: &mut DependenceGraph,
) -> Result<(), GraphFault>
    requires kept { IsHierarchyOf program.now hierarchy.now }
    requires short { length program.now.classes < 2 ^ 32 }
    requires node { node < length graph.old }
    requires there { (o : ℕ) → Contains held.now o → o < length facts.now.objects }
    ensures { GrowsOrStops result graph.old graph.new (From held.now (OfObject X.list facts.now.objects (IsStartBy program.now method op named.now resolved.now node))) }
{
    for id in held {
        let object = facts.object(*id);
        add_start(
            alloc, program, hierarchy, contexts, method, op, named, *resolved, object, node, graph,
        )?;
    }
    Ok(())
}

/// Adds what the call at a pc does with the threads of the objects that it is made on.
fn add_starts<X: Contexts>(
    alloc: Global,
    program: &Program,
    hierarchy: &Hierarchy,
    contexts: &X,
    facts: &Facts<X::C>,
    instance: InstanceId,
    key: &InstKey<X::C>,
    flow_node: &FlowNode,
    pc: u32,
    node: NodeId,
    graph: &mut DependenceGraph,
) -> Result<(), GraphFault>
    requires kept { IsHierarchyOf program.now hierarchy.now }
    requires short { length program.now.classes < 2 ^ 32 }
    requires few { length program.now.sites < 2 ^ 32 }
    requires is { IsInstance facts.now.instances instance key.now }
    requires insn { flow_node.now.insn ≡ option_map (λ (found : AnInsn × ℕ). found.0) (WideGraph.insn_at program.now key.now.method pc) }
    requires method { flow_node.now.method ≡ WideGraph.resolved_at program.now key.now.method pc }
    requires node { node < length graph.old }
    ensures { GrowsOrStops result graph.old graph.new (StartMakes program.now (Known X.list facts.now) (instance_seen X.list key.now) pc node) }
{
    let _count = facts.instances();
    let Some(insn) = flow_node.insn else {
        return Ok(());
    };
    let Some(resolved) = &flow_node.method else {
        return Ok(());
    };
    let found = match start_call(alloc, program, key.method, pc, insn) {
        Ok(found) => found,
        Err(_) => return Err(GraphFault::Memory),
    };
    let Some(member) = found else {
        return Ok(());
    };
    let held = facts.held(&Holder::Node(instance, NodeKind::Arg(pc, 0)));
    add_each_start(
        alloc,
        program,
        hierarchy,
        contexts,
        facts,
        key.method,
        opcode_of(insn),
        &member.owner,
        resolved,
        held,
        node,
        graph,
    )
}

// ---- all of a node

/// Adds the accesses that a node makes by itself.
pub(crate) fn add_node_accesses<X: Contexts>(
    alloc: Global,
    program: &Program,
    hierarchy: &Hierarchy,
    labels: &Labels,
    contexts: &X,
    facts: &Facts<X::C>,
    instance: InstanceId,
    key: &InstKey<X::C>,
    flow_node: &FlowNode,
    node: NodeId,
    graph: &mut DependenceGraph,
) -> Result<(), GraphFault>
    requires kept { IsHierarchyOf program.now hierarchy.now }
    requires short { length program.now.classes < 2 ^ 32 }
    requires few { length program.now.sites < 2 ^ 32 }
    requires is { IsInstance facts.now.instances instance key.now }
    requires same { flow_node.now ≡ node_with program.now key.now.method flow_node.now.kind (pc_kept flow_node.now.kind) }
    requires node { node < length graph.old }
    ensures { GrowsOrStops result graph.old graph.new (NodeMakesBy program.now labels.now (Known X.list facts.now) (instance_seen X.list key.now) node flow_node.now flow_node.now.kind) }
{
    match flow_node.kind {
        NodeKind::Instr(_) => add_static(flow_node, node, graph),
        NodeKind::RetVal(_) => add_source(labels, flow_node, node, graph),
        NodeKind::Call(pc) => add_starts(
            alloc, program, hierarchy, contexts, facts, instance, key, flow_node, pc, node, graph,
        ),
        _ => Ok(()),
    }
}
