//! Which edges of the wide graph an instance keeps.
ghost use Rattle.std.specs.Prelude.{◌≡◌, ◌↔◌, ℕ, ◌<◌, ◌^◌, length, true, false, Some, Contains, IfOk, IsTrue, OnOk};
ghost use Rattle.std.specs.Option.{option_copied};
ghost use Rattle.jo_prog.specs.TypingPaths.{HasHeightAt};
ghost use Rattle.hierarchy.specs.Hierarchies.{IsHierarchyOf};
ghost use Rattle.dependence.specs.Listed.{AddsExactly, ListsExactly};
ghost use Rattle.dep_nodes.specs.declared.kinds.NodeKind.{NodeKind as ANode};
ghost use Rattle.dep_nodes.specs.declared.kinds.NodeKind.TheVariants.{Throw};
ghost use Rattle.dependence.specs.declared.facts.Fact.TheVariants.{Holds, Throws, Stalls};
ghost use Rattle.dependence.specs.GraphsAsData.{kind_at, IsWideGraph};
ghost use Rattle.dependence.specs.FlowGraph.{AnObject, TargetEnds, type_of_object};
ghost use Rattle.fact_sets.specs.declared.numbered.NumberedFact.TheVariants.{Throws as MayThrow, Stalls as MayStall};
ghost use Rattle.flow_graph.specs.Adding.{AddsThose, HasThose};
ghost use Rattle.instance_flows.specs.BySite.{BySite};
ghost use Rattle.instance_flows.specs.Raising.{alone, AreRaising};
ghost use Rattle.instance_flows.specs.Keeping.{IsWay, IsWayOf, Allows, AreKept, RaisesAt, KeepsAt, IsKeptEnd, IsAllowedAt};

use dep_nodes::NodeKind;
use dependence::facts::Target;
use dependence::flows::{Flow, FlowRow, Places};
use fact_sets::facts::Facts;
use fact_sets::numbered::Holder;
use hierarchy::Hierarchy;
use jo_ids::{BitRow, InstanceId, List, Memory, MethodId, ObjectId, SiteId};
use jo_prog::lists::add;
use jo_prog::program::{Program, TypeRef};
use object_types::types::{first_catching, type_of};
use std::alloc::Global;
use std::hash::Hash;

/// How an exception leaves the pc at which it is thrown: to the handler of a row, or out of the method.
#[derive(Clone, Copy, PartialEq, Eq)]
pub(crate) enum Way {
    Row(u32),
    Out,
}

/// Which edges from a node are kept: all; that to Throw only where an exception may be raised; those by how targets end; those by
/// which objects may be thrown.
#[derive(Drop)]
pub(crate) enum Keeps {
    All,
    Raising(bool),
    Ends { throws: bool, stalls: bool },
    Ways(List<Way>),
}

// ---- how targets end

/// Whether the target runs in the same thread and may end with an exception.
fn throws_here<C: Copy + Ord + Hash>(facts: &Facts<C>, target: &Target) -> bool
    ensures { IsTrue result ↔ ((target.now.fork ≡ false) × Contains facts.now.facts (MayThrow target.now.instance)) }
{
    !target.fork && facts.throws(target.instance)
}

/// Whether the target runs in the same thread and may never end.
fn stalls_here<C: Copy + Ord + Hash>(facts: &Facts<C>, target: &Target) -> bool
    ensures { IsTrue result ↔ ((target.now.fork ≡ false) × Contains facts.now.facts (MayStall target.now.instance)) }
{
    !target.fork && facts.stalls(target.instance)
}

/// Whether some target of the call at a pc, which runs in the same thread, may end with an exception.
pub(crate) fn some_target_throws<C: Copy + Ord + Hash>(
    facts: &Facts<C>,
    instance: InstanceId,
    pc: u32,
) -> bool
    ensures { (m : ℕ) → (IsTrue result ↔ TargetEnds (BySite facts.now instance) (alone m) pc Throws) }
{
    let targets = facts.targets(instance, pc);
    for target in targets {
        if throws_here(facts, target) {
            return true;
        }
    }
    false
}

/// Whether some target of the call at a pc, which runs in the same thread, may never end.
pub(crate) fn some_target_stalls<C: Copy + Ord + Hash>(
    facts: &Facts<C>,
    instance: InstanceId,
    pc: u32,
) -> bool
    ensures { (m : ℕ) → (IsTrue result ↔ TargetEnds (BySite facts.now instance) (alone m) pc Stalls) }
{
    let targets = facts.targets(instance, pc);
    for target in targets {
        if stalls_here(facts, target) {
            return true;
        }
    }
    false
}

// ---- which rows catch

/// How an object of this type leaves the pc at which it is thrown. A row past 2^32 has no number: for it memory is said to be
/// wanting.
fn way_of(
    program: &Program,
    hierarchy: &Hierarchy,
    method: MethodId,
    pc: u32,
    own: Option<&TypeRef>,
) -> Result<Way, Memory>
    requires kept { IsHierarchyOf program.now hierarchy.now }
    requires short { length program.now.classes < 2 ^ 32 }
    ensures { IfOk result (λ way. (o : AnObject) → type_of_object program.now o ≡ option_copied own.entry → IsWay program.now method pc way o) }
{
    match first_catching(program, hierarchy, method, pc, own) {
        Some(k) => match u32::try_from(k) {
            Ok(k) => Ok(Way::Row(k)),
            Err(_) => Err(Memory),
        },
        None => Ok(Way::Out),
    }
}

/// How an object of this site leaves the pc at which it is thrown.
fn way_at(
    alloc: Global,
    program: &Program,
    hierarchy: &Hierarchy,
    method: MethodId,
    pc: u32,
    site: SiteId,
) -> Result<Way, Memory>
    requires kept { IsHierarchyOf program.now hierarchy.now }
    requires short { length program.now.classes < 2 ^ 32 }
    ensures { IfOk result (λ way. (o : AnObject) → o.site ≡ site → IsWay program.now method pc way o) }
{
    let own = type_of(alloc, program, site)?;
    let way = way_of(program, hierarchy, method, pc, own.as_ref())?;
    Ok(way)
}

/// How the objects leave that may be thrown at a pc.
fn ways_of<C: Copy + Ord + Hash>(
    alloc: Global,
    program: &Program,
    hierarchy: &Hierarchy,
    method: MethodId,
    facts: &Facts<C>,
    instance: InstanceId,
    pc: u32,
) -> Result<List<Way>, Memory>
    requires kept { IsHierarchyOf program.now hierarchy.now }
    requires short { length program.now.classes < 2 ^ 32 }
    ensures { IfOk result (λ ways. HasThose (IsWayOf program.now (BySite facts.now instance) method pc) ways) }
{
    let mut ways = List::new(alloc);
    let held = facts.held(&Holder::Node(instance, NodeKind::Throw(pc)));
    for id in held {
        let way = way_at(
            alloc,
            program,
            hierarchy,
            method,
            pc,
            facts.object(*id).site,
        )?;
        add(&mut ways, way)?;
    }
    Ok(ways)
}

// ---- one node

/// Which edges are kept from a node of this kind, at which an instruction raises an exception or doesn't.
fn keeps_of<C: Copy + Ord + Hash>(
    alloc: Global,
    program: &Program,
    hierarchy: &Hierarchy,
    method: MethodId,
    facts: &Facts<C>,
    instance: InstanceId,
    kind: NodeKind,
    raises: bool,
) -> Result<Keeps, Memory>
    requires kept { IsHierarchyOf program.now hierarchy.now }
    requires short { length program.now.classes < 2 ^ 32 }
    requires raises { RaisesAt program.now (BySite facts.now instance) (HasHeightAt program.now method) method kind raises }
    ensures { IfOk result (λ keeps. KeepsAt program.now (BySite facts.now instance) (HasHeightAt program.now method) method kind keeps) }
{
    match kind {
        NodeKind::Instr(_) => Ok(Keeps::Raising(raises)),
        NodeKind::Call(_) => Ok(Keeps::Raising(raises)),
        NodeKind::RetKind(pc) => Ok(Keeps::Ends {
            throws: some_target_throws(facts, instance, pc),
            stalls: some_target_stalls(facts, instance, pc),
        }),
        NodeKind::Throw(pc) => {
            let ways = ways_of(alloc, program, hierarchy, method, facts, instance, pc)?;
            Ok(Keeps::Ways(ways))
        }
        _ => Ok(Keeps::All),
    }
}

fn has_way(ways: &[Way], way: Way) -> bool
    ensures { IsTrue result ↔ Contains ways.now way }
{
    ways.contains(&way)
}

fn allows(keeps: &Keeps, to: NodeKind) -> bool
    ensures { IsTrue result ↔ Allows keeps.now to }
{
    match keeps {
        Keeps::All => true,
        Keeps::Raising(raises) => match to {
            NodeKind::Throw(_) => *raises,
            _ => true,
        },
        Keeps::Ends { throws, stalls } => match to {
            NodeKind::Throw(_) => *throws,
            NodeKind::Exit => *stalls,
            _ => true,
        },
        Keeps::Ways(ways) => match to {
            NodeKind::Catch(k) => has_way(ways.as_slice(), Way::Row(k)),
            NodeKind::XPoll(_, k) => has_way(ways.as_slice(), Way::Row(k)),
            NodeKind::Exit => has_way(ways.as_slice(), Way::Out),
            _ => true,
        },
    }
}

fn add_if_allowed(wide: &Flow, keeps: &Keeps, end: u32, ends: &mut List<u32>) -> Result<(), Memory>
    requires { end < length wide.now }
    ensures { OnOk result (AddsExactly (IsAllowedAt wide.now keeps.now end) ends.old ends.new) }
{
    if !allows(keeps, wide.node(end).kind) {
        return Ok(());
    }
    add(ends, end)
}

/// Those of the successors of a node to which the edge is kept.
pub(crate) fn kept_ends(
    alloc: Global,
    wide: &Flow,
    keeps: &Keeps,
    n: u32,
) -> Result<List<u32>, Memory>
    requires { n < length wide.now }
    ensures { IfOk result (λ ends. ListsExactly (IsKeptEnd wide.now keeps.now n) ends) }
{
    let mut ends = List::new(alloc);
    let successors = wide.successors(n);
    for end in successors {
        add_if_allowed(wide, keeps, *end, &mut ends)?;
    }
    Ok(ends)
}

// ---- all nodes

/// The edges of the wide graph that are kept, between the same nodes without their places.
pub(crate) fn kept_of<C: Copy + Ord + Hash>(
    alloc: Global,
    program: &Program,
    hierarchy: &Hierarchy,
    method: MethodId,
    wide: &Flow,
    raising: &BitRow,
    facts: &Facts<C>,
    instance: InstanceId,
) -> Result<Flow, Memory>
    requires kept { IsHierarchyOf program.now hierarchy.now }
    requires short { length program.now.classes < 2 ^ 32 }
    requires graph { IsWideGraph program.now method (HasHeightAt program.now method) wide.now }
    requires same { length raising.now ≡ length wide.now }
    requires raising { AreRaising program.now (BySite facts.now instance) (HasHeightAt program.now method) method wide.now raising.now }
    ensures { IfOk result (λ kept. AreKept program.now (BySite facts.now instance) (HasHeightAt program.now method) method wide.now kept) }
{
    let mut rows = Vec::new(alloc);
    for n in 0..wide.len() {
        let node = wide.node(n);
        let keeps = keeps_of(
            alloc,
            program,
            hierarchy,
            method,
            facts,
            instance,
            node.kind,
            raising.has(n),
        )?;
        let row = FlowRow {
            node: *node,
            successors: kept_ends(alloc, wide, &keeps, n)?,
            reads: Places::new(alloc),
            writes: Places::new(alloc),
        };
        rows.push(row)?;
    }
    Ok(Flow::of(alloc, rows))
}
