//! What instructions do with the objects that they may be given.
ghost use Rattle.std.specs.Prelude.{◌≡◌, ◌↔◌, ◌⊎◌, ℕ, ◌<◌, ◌^◌, ◌||◌, length, true, false, Some, Contains, slice_get, IfOk, IfSome, IfNone, IsTrue};
ghost use Rattle.std.specs.Option.{option_copied};
ghost use Rattle.jo_ids.specs.declared.ObjKey.{ObjKey as AnObjKey};
ghost use Rattle.jo_insn.specs.declared.instructions.Insn.{Insn as AnInsn};
ghost use Rattle.jo_prog.specs.declared.sites.Cause.TheVariants.{FailingCast, SecondStart, MissingInterface};
ghost use Rattle.jo_prog.specs.Program.{operand_at as operand_found};
ghost use Rattle.jo_prog.specs.Calls;
ghost use Rattle.jo_prog.specs.declared.calls.Taken.TheVariants.{Start};
ghost use Rattle.jo_prog.specs.Sites.{opcode_of as opcode_in, may_raise as may_raise_for};
ghost use Rattle.hierarchy.specs.Hierarchies.{IsHierarchyOf};
ghost use Rattle.dep_nodes.specs.declared.kinds.NodeKind.{NodeKind as ANode};
ghost use Rattle.dependence.specs.declared.facts.Fact.TheVariants.{Holds};
ghost use Rattle.dependence.specs.NodePlaces;
ghost use Rattle.dependence.specs.NodePlaces.{CallAt};
ghost use Rattle.dependence.specs.WideGraph;
ghost use Rattle.dependence.specs.FlowGraph;
ghost use Rattle.dependence.specs.FlowGraph.{AnObject, FailsToFit, Fits, type_of_object};
ghost use Rattle.flow_graph.specs.NodeUses;
ghost use Rattle.instance_flows.specs.BySite.{BySite};
ghost use Rattle.instance_flows.specs.Raising.{alone, FailsCast, StartsAgain, LacksInterface, ObjectRaises, IsCallWhereCalling, TakesStartOf};

use dep_nodes::NodeKind;
use dependence::flow::Place;
use fact_sets::facts::Facts;
use fact_sets::numbered::Holder;
use hierarchy::Hierarchy;
use jo_ids::{ClassId, Id, InstanceId, Memory, MethodId, ObjectId, SiteId};
use jo_insn::Insn;
use jo_prog::calls::Taken;
use jo_prog::program::{MemberRef, Operand, Program, TypeRef, class_at, method_at};
use jo_prog::sites::{Cause, may_raise, opcode_of};
use object_types::types::{fails_to_fit, type_of};
use std::alloc::Global;
use std::hash::Hash;

/// The definition that a node makes of a place: Entry stands for the parameters.
pub(crate) fn named_by(kind: NodeKind, place: Place) -> NodeKind
    ensures { result ≡ NodePlaces.named_by kind place }
{
    match kind {
        NodeKind::Entry => match place {
            Place::Local(k) => NodeKind::Param(u32::from(k)),
            _ => kind,
        },
        _ => kind,
    }
}

// ---- what an instruction names

/// What an instruction names by a pool index.
fn operand_by(program: &Program, method: MethodId, index: u16) -> Option<&Operand>
    ensures { option_copied result ≡ operand_found program.now method index }
{
    let class = class_at(program, method_at(program, method)?.class)?;
    class.operands.as_slice().get(index as usize)
}

/// What the instruction of a method names.
pub(crate) fn operand_of(program: &Program, method: MethodId, insn: Insn) -> Option<&Operand>
    ensures { (next : ℕ) → option_copied result ≡ WideGraph.operand_of program.now method (Some (insn, next)) }
{
    let Insn::Pooled { index, .. } = insn else {
        return None;
    };
    operand_by(program, method, index)
}

fn type_in(operand: Option<&Operand>) -> Option<&TypeRef>
    ensures { option_copied result ≡ FlowGraph.type_in (option_copied operand.entry) }
{
    let Some(Operand::OfType(named)) = operand else {
        return None;
    };
    Some(named)
}

fn member_in(operand: Option<&Operand>) -> Option<&MemberRef>
    ensures { option_copied result ≡ NodeUses.ref_in (option_copied operand.entry) }
{
    let Some(Operand::Member(member)) = operand else {
        return None;
    };
    Some(member)
}

/// The type that the instruction of a method names.
fn type_named(program: &Program, method: MethodId, insn: Insn) -> Option<&TypeRef>
    ensures { (next : ℕ) → option_copied result ≡ FlowGraph.type_in (WideGraph.operand_of program.now method (Some (insn, next))) }
{
    let operand = operand_of(program, method, insn);
    let named = type_in(operand);
    named
}

/// The member that the instruction of a method names.
fn member_named(program: &Program, method: MethodId, insn: Insn) -> Option<&MemberRef>
    ensures { (next : ℕ) → option_copied result ≡ NodeUses.ref_in (WideGraph.operand_of program.now method (Some (insn, next))) }
{
    let operand = operand_of(program, method, insn);
    let named = member_in(operand);
    named
}

fn receiver_class(own: &TypeRef) -> ClassId
    ensures { result ≡ Calls.receiver_class own.now }
{
    match own {
        TypeRef::Class(class) => *class,
        TypeRef::Array(_) => Id::of(0),
    }
}

/// Whether it depends on the object at its base whether an instruction with this opcode raises an exception.
fn asks_objects(op: u8) -> bool
    ensures { result ≡ (may_raise_for FailingCast op || may_raise_for SecondStart op || may_raise_for MissingInterface op) }
{
    may_raise(Cause::FailingCast, op)
        || may_raise(Cause::SecondStart, op)
        || may_raise(Cause::MissingInterface, op)
}

// ---- one object

/// Whether the instruction is a cast that an object of this type fails.
fn cast_fails(
    program: &Program,
    hierarchy: &Hierarchy,
    method: MethodId,
    pc: u32,
    insn: Insn,
    own: Option<&TypeRef>,
) -> bool
    requires kept { IsHierarchyOf program.now hierarchy.now }
    requires short { length program.now.classes < 2 ^ 32 }
    requires stands { (next : ℕ) × (WideGraph.insn_at program.now method pc ≡ Some (insn, next)) }
    ensures { (o : AnObject) → type_of_object program.now o ≡ option_copied own.entry → (IsTrue result ↔ FailsCast program.now method pc (opcode_in insn) o) }
{
    if !may_raise(Cause::FailingCast, opcode_of(insn)) {
        return false;
    }
    match type_named(program, method, insn) {
        Some(named) => fails_to_fit(program, hierarchy, own, named),
        None => false,
    }
}

/// Whether the call is of an interface that the class of an object of this type doesn't implement.
fn lacks_interface(
    program: &Program,
    hierarchy: &Hierarchy,
    method: MethodId,
    pc: u32,
    insn: Insn,
    own: Option<&TypeRef>,
) -> bool
    requires kept { IsHierarchyOf program.now hierarchy.now }
    requires short { length program.now.classes < 2 ^ 32 }
    requires call { IsCallWhereCalling program.now method pc insn }
    ensures { (o : AnObject) → type_of_object program.now o ≡ option_copied own.entry → (IsTrue result ↔ LacksInterface program.now method pc (opcode_in insn) o) }
{
    if !may_raise(Cause::MissingInterface, opcode_of(insn)) {
        return false;
    }
    match member_named(program, method, insn) {
        Some(member) => fails_to_fit(program, hierarchy, own, &member.owner),
        None => false,
    }
}

fn is_start(taken: Taken) -> bool
    ensures { IsTrue result ↔ (taken ≡ Start) }
{
    match taken {
        Taken::Start => true,
        _ => false,
    }
}

/// Whether a call of the resolved method takes Thread.start for a receiver of this type, which fits what the call names.
fn takes_start(
    program: &Program,
    hierarchy: &Hierarchy,
    method: MethodId,
    op: u8,
    named: &TypeRef,
    resolved: MethodId,
    own: &TypeRef,
) -> bool
    requires kept { IsHierarchyOf program.now hierarchy.now }
    requires short { length program.now.classes < 2 ^ 32 }
    ensures { IsTrue result ↔ TakesStartOf program.now method op named.now resolved own.now }
{
    let Some(current) = method_at(program, method) else {
        return false;
    };
    if !hierarchy.type_fits(program, own, named) {
        return false;
    }
    is_start(hierarchy.takes(program, op, current.class, resolved, receiver_class(own)))
}

/// Whether the call may start the thread of an object of this type.
fn starts(
    program: &Program,
    hierarchy: &Hierarchy,
    method: MethodId,
    pc: u32,
    insn: Insn,
    resolved: &Option<MethodId>,
    own: Option<&TypeRef>,
) -> bool
    requires kept { IsHierarchyOf program.now hierarchy.now }
    requires short { length program.now.classes < 2 ^ 32 }
    requires call { IsCallWhereCalling program.now method pc insn }
    requires resolved { resolved.now ≡ WideGraph.resolved_at program.now method pc }
    ensures { (o : AnObject) → type_of_object program.now o ≡ option_copied own.entry → (IsTrue result ↔ StartsAgain program.now method pc (opcode_in insn) o) }
{
    let op = opcode_of(insn);
    if !may_raise(Cause::SecondStart, op) {
        return false;
    }
    let Some(own) = own else {
        return false;
    };
    let Some(resolved) = *resolved else {
        return false;
    };
    match member_named(program, method, insn) {
        Some(member) => takes_start(program, hierarchy, method, op, &member.owner, resolved, own),
        None => false,
    }
}

/// Whether an object of this type at its base makes an instruction raise an exception.
fn object_raises(
    program: &Program,
    hierarchy: &Hierarchy,
    method: MethodId,
    pc: u32,
    insn: Insn,
    resolved: &Option<MethodId>,
    own: Option<&TypeRef>,
) -> bool
    requires kept { IsHierarchyOf program.now hierarchy.now }
    requires short { length program.now.classes < 2 ^ 32 }
    requires call { IsCallWhereCalling program.now method pc insn }
    requires resolved { resolved.now ≡ WideGraph.resolved_at program.now method pc }
    ensures { (o : AnObject) → type_of_object program.now o ≡ option_copied own.entry → (IsTrue result ↔ ObjectRaises program.now method pc (opcode_in insn) o) }
{
    if cast_fails(program, hierarchy, method, pc, insn, own) {
        return true;
    }
    if starts(program, hierarchy, method, pc, insn, resolved, own) {
        return true;
    }
    lacks_interface(program, hierarchy, method, pc, insn, own)
}

/// Whether an object of this site at its base makes an instruction raise an exception.
fn site_raises(
    alloc: Global,
    program: &Program,
    hierarchy: &Hierarchy,
    method: MethodId,
    site: SiteId,
    pc: u32,
    insn: Insn,
    resolved: &Option<MethodId>,
) -> Result<bool, Memory>
    requires kept { IsHierarchyOf program.now hierarchy.now }
    requires short { length program.now.classes < 2 ^ 32 }
    requires call { IsCallWhereCalling program.now method pc insn }
    requires resolved { resolved.now ≡ WideGraph.resolved_at program.now method pc }
    ensures { IfOk result (λ raises. (o : AnObject) → o.site ≡ site → (IsTrue raises ↔ ObjectRaises program.now method pc (opcode_in insn) o)) }
{
    let own = type_of(alloc, program, site)?;
    let raises = object_raises(program, hierarchy, method, pc, insn, resolved, own.as_ref());
    Ok(raises)
}

// ---- all objects of a node

/// Whether some object that a node may hold makes an instruction raise an exception at whose base it stands.
pub(crate) fn some_object_raises<C: Copy + Ord + Hash>(
    alloc: Global,
    program: &Program,
    hierarchy: &Hierarchy,
    method: MethodId,
    facts: &Facts<C>,
    instance: InstanceId,
    kind: NodeKind,
    pc: u32,
    insn: Insn,
    resolved: &Option<MethodId>,
) -> Result<bool, Memory>
    requires kept { IsHierarchyOf program.now hierarchy.now }
    requires short { length program.now.classes < 2 ^ 32 }
    requires call { IsCallWhereCalling program.now method pc insn }
    requires resolved { resolved.now ≡ WideGraph.resolved_at program.now method pc }
    ensures { IfOk result (λ raises. IsTrue raises ↔ ((o : AnObject) × BySite facts.now instance (Holds (alone method) kind o) × ObjectRaises program.now method pc (opcode_in insn) o)) }
{
    if !asks_objects(opcode_of(insn)) {
        return Ok(false);
    }
    let held = facts.held(&Holder::Node(instance, kind));
    for id in held {
        let site = facts.object(*id).site;
        let raises = site_raises(alloc, program, hierarchy, method, site, pc, insn, resolved)?;
        if raises {
            return Ok(true);
        }
    }
    Ok(false)
}
