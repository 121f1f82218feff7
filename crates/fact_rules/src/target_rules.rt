//! What calls take, and what their targets are given.
ghost use Rattle.std.specs.Prelude.{◌≡◌, ◌↔◌, ◌⊎◌, ℕ, ◌<◌, ◌≤◌, length, option_map, slice_get, Some, Contains, IsTrue, OnOk, List as Items};
ghost use Rattle.std.specs.Option.{option_copied};
ghost use Rattle.jo_prog.specs.Program.{method_at as method_found};
ghost use Rattle.jo_prog.specs.TypingPaths.{HasHeightAt};
ghost use Rattle.dependence.specs.declared.facts.InstKey.{InstKey as AnInstance};
ghost use Rattle.dependence.specs.declared.facts.Fact.{Fact as AFact};
ghost use Rattle.dependence.specs.declared.flow.Place.TheVariants.{Stack};
ghost use Rattle.dependence.specs.FactRules.{IsTarget};
ghost use Rattle.fact_sets.specs.FactLists.{HasFact, IsInstance};
ghost use Rattle.fact_sets.specs.Seen.{TellsApart, Known, Listed, instance_seen, object_seen};
ghost use Rattle.method_views.specs.InstanceRules.{ByTarget};
ghost use Rattle.method_views.specs.Views.{IsMethodView};
ghost use Rattle.fact_rules.specs.Adds.{Adds, FromBelow};
ghost use Rattle.fact_rules.specs.Additions.{AddsSeen};
ghost use Rattle.fact_rules.specs.Callees;
ghost use Rattle.fact_rules.specs.NamedNodes.{HasItsNodes};
ghost use Rattle.fact_rules.specs.Places.{instance_of};
ghost use Rattle.fact_rules.specs.TargetRules;
ghost use Rattle.fact_rules.specs.TargetRules.{call_so, HasNumber, LieBelow, ReceiverGives, EntryGives, CalleeGivesIf, ObjectGives, ObjectsGive, OnObjectsGive, StaticGivesIf, CallGivesFor, InsnGives, ArgumentGives, TargetsGive, NodeGives};

use crate::additions::{add_fact, add_objects};
use crate::callees::{Called, Callee, callee_at, entered_by, static_callee};
use crate::places::context_of;
use contexts::Contexts;
use dep_nodes::NodeKind;
use dependence::facts::{Fact, InstKey, Target};
use dependence::flow::Place;
use dependence::flows::FlowNode;
use fact_sets::facts::Facts;
use fact_sets::numbered::Holder;
use jo_ids::{InstanceId, Memory, MethodId, ObjKey};
use jo_insn::{ACC_STATIC, Insn, has_flag};
use jo_prog::program::{Method, Program, method_at};
use jo_prog::sites::opcode_of;
use method_views::operands::member_named;
use method_views::views::MethodView;
use std::alloc::Global;
use std::hash::Hash;

// ---- one target

fn call_fact<C: Copy + Ord + Hash>(
    fork: bool,
    caller: &InstKey<C>,
    pc: u32,
    to: &InstKey<C>,
) -> Fact<C>
    ensures { result ≡ call_so fork caller.now pc to.now }
{
    if fork {
        Fact::Fork(*caller, pc, *to)
    } else {
        Fact::Target(*caller, pc, *to)
    }
}

fn is_number(target: &Target, instance: InstanceId) -> bool
    ensures { IsTrue result ↔ (target.now.instance ≡ instance) }
{
    target.instance == instance
}

fn has_number(targets: &[Target], instance: InstanceId) -> bool
    ensures { IsTrue result ↔ HasNumber targets.now instance }
{
    for target in targets {
        if is_number(target, instance) {
            return true;
        }
    }
    false
}

/// Whether the call at a pc is known to have that target.
fn is_known<C: Copy + Ord + Hash>(
    facts: &Facts<C>,
    instance: InstanceId,
    pc: u32,
    to: &InstKey<C>,
) -> bool
    ensures { (list : C → Items ℕ) (key : AnInstance C) → TellsApart list → IsInstance facts.now.instances instance key
        → (IsTrue result ↔ IsTarget (Known list facts.now) (instance_seen list key) pc (instance_seen list to.now)) }
{
    let _count = facts.instances();
    match facts.number_of(to) {
        Some(number) => has_number(facts.targets(instance, pc), number),
        None => false,
    }
}

fn is_on_receiver(method: Option<&Method>) -> bool
    ensures { result ≡ TargetRules.is_on_receiver (option_copied method.entry) }
{
    match method {
        Some(method) => !has_flag(ACC_STATIC, method.flags),
        None => false,
    }
}

/// Whether a parameter of a method is its receiver.
fn receives(program: &Program, method: MethodId, k: u32) -> bool
    ensures { result ≡ TargetRules.receives (method_found program.now method) k }
{
    if k != 0 {
        return false;
    }
    let method = method_at(program, method);
    is_on_receiver(method)
}

/// Adds that a target has an object as its receiver, where the call is known to have that target.
fn add_receiver<C: Copy + Ord + Hash>(
    view: &MethodView<'_>,
    facts: &Facts<C>,
    instance: InstanceId,
    caller: &InstKey<C>,
    pc: u32,
    to: &InstKey<C>,
    object: &ObjKey<C>,
    following: &mut Vec<Fact<C>>,
) -> Result<(), Memory>
    requires named { IsInstance facts.now.instances instance caller.now }
    ensures { OnOk result (AddsSeen following.old.items following.new.items
        (λ list. ReceiverGives view.now.program.now (Known list facts.now) (instance_seen list caller.now) pc (object_seen list object.now) (instance_seen list to.now))) }
{
    if !receives(view.program, to.method, 0) {
        return Ok(());
    }
    if !is_known(facts, instance, pc, to) {
        return Ok(());
    }
    add_fact(following, Fact::Holds(*to, NodeKind::Param(0), *object))
}

/// Adds that the call at a pc has a target for an object.
fn add_entry<C: Copy + Ord + Hash>(
    view: &MethodView<'_>,
    facts: &Facts<C>,
    instance: InstanceId,
    caller: &InstKey<C>,
    pc: u32,
    fork: bool,
    to: &InstKey<C>,
    object: &ObjKey<C>,
    following: &mut Vec<Fact<C>>,
) -> Result<(), Memory>
    requires named { IsInstance facts.now.instances instance caller.now }
    ensures { OnOk result (AddsSeen following.old.items following.new.items
        (λ list. EntryGives view.now.program.now (Known list facts.now) (instance_seen list caller.now) pc (object_seen list object.now) fork (instance_seen list to.now))) }
{
    add_fact(following, call_fact(fork, caller, pc, to))?;
    add_receiver(view, facts, instance, caller, pc, to, object, following)
}

// ---- a call for objects

/// Adds the instance in which a call runs that for an object.
fn add_callee<X: Contexts>(
    contexts: &X,
    view: &MethodView<'_>,
    facts: &Facts<X::C>,
    instance: InstanceId,
    context: X::C,
    pc: u32,
    callee: Option<Callee>,
    object: &ObjKey<X::C>,
    following: &mut Vec<Fact<X::C>>,
) -> Result<(), Memory>
    requires view { IsMethodView view.now }
    requires named { IsInstance facts.now.instances instance (instance_of view.now.method context) }
    ensures { OnOk result (Adds (Listed X.list following.old.items) (Listed X.list following.new.items)
        (CalleeGivesIf view.now.program.now (Known X.list facts.now) (instance_seen X.list (instance_of view.now.method context)) pc (X.policy contexts.now) (object_seen X.list object.now) callee)) }
{
    let Some(callee) = callee else {
        return Ok(());
    };
    let receiver = Some(*object);
    let Some(to) = entered_by(contexts, view, context, pc, callee.method, receiver) else {
        return Ok(());
    };
    let caller = InstKey {
        method: view.method,
        context,
    };
    add_entry(
        view,
        facts,
        instance,
        &caller,
        pc,
        callee.fork,
        &to,
        object,
        following,
    )
}

/// Adds what a call gives for an object.
fn add_object<X: Contexts>(
    alloc: Global,
    contexts: &X,
    view: &MethodView<'_>,
    facts: &Facts<X::C>,
    instance: InstanceId,
    context: X::C,
    call: &Called<'_>,
    object: &ObjKey<X::C>,
    following: &mut Vec<Fact<X::C>>,
) -> Result<(), Memory>
    requires view { IsMethodView view.now }
    requires named { IsInstance facts.now.instances instance (instance_of view.now.method context) }
    ensures { OnOk result (Adds (Listed X.list following.old.items) (Listed X.list following.new.items)
        (ObjectGives view.now.program.now (Known X.list facts.now) (instance_seen X.list (instance_of view.now.method context)) call.now.pc (X.policy contexts.now)
        call.now.op call.now.member.now call.now.resolved (object_seen X.list object.now))) }
{
    let callee = callee_at(alloc, view, call, object.site)?;
    add_callee(
        contexts, view, facts, instance, context, call.pc, callee, object, following,
    )
}

/// Adds what a call gives for the objects that it may have as its receiver.
fn follow_objects<X: Contexts>(
    alloc: Global,
    contexts: &X,
    view: &MethodView<'_>,
    facts: &Facts<X::C>,
    instance: InstanceId,
    context: X::C,
    call: &Called<'_>,
    following: &mut Vec<Fact<X::C>>,
) -> Result<(), Memory>
    requires view { IsMethodView view.now }
    requires named { IsInstance facts.now.instances instance (instance_of view.now.method context) }
    ensures { OnOk result (Adds (Listed X.list following.old.items) (Listed X.list following.new.items)
        (ObjectsGive view.now.program.now (Known X.list facts.now) (instance_seen X.list (instance_of view.now.method context)) call.now.pc (X.policy contexts.now)
        call.now.op call.now.member.now call.now.resolved)) }
{
    let _count = facts.instances();
    let held = facts.held(&Holder::Node(instance, NodeKind::Arg(call.pc, 0)));
    for o in held {
        let object = facts.object(*o);
        add_object(
            alloc, contexts, view, facts, instance, context, call, &object, following,
        )?;
    }
    Ok(())
}

// ---- a static call

/// Adds the instance in which an invokestatic runs that.
fn add_static<X: Contexts>(
    contexts: &X,
    view: &MethodView<'_>,
    context: X::C,
    pc: u32,
    callee: Option<Callee>,
    following: &mut Vec<Fact<X::C>>,
) -> Result<(), Memory>
    requires view { IsMethodView view.now }
    ensures { OnOk result (Adds (Listed X.list following.old.items) (Listed X.list following.new.items)
        (StaticGivesIf view.now.program.now (X.policy contexts.now) (instance_seen X.list (instance_of view.now.method context)) pc callee)) }
{
    let Some(callee) = callee else {
        return Ok(());
    };
    let Some(to) = entered_by(contexts, view, context, pc, callee.method, None) else {
        return Ok(());
    };
    let caller = InstKey {
        method: view.method,
        context,
    };
    add_fact(following, Fact::Target(caller, pc, to))
}

// ---- one call

/// Adds what a call gives for the objects that it may have as its receiver, if it has one.
fn follow_receivers<X: Contexts>(
    alloc: Global,
    contexts: &X,
    view: &MethodView<'_>,
    facts: &Facts<X::C>,
    instance: InstanceId,
    context: X::C,
    call: &Called<'_>,
    following: &mut Vec<Fact<X::C>>,
) -> Result<(), Memory>
    requires view { IsMethodView view.now }
    requires named { IsInstance facts.now.instances instance (instance_of view.now.method context) }
    ensures { OnOk result (Adds (Listed X.list following.old.items) (Listed X.list following.new.items)
        (OnObjectsGive view.now.program.now (Known X.list facts.now) (instance_seen X.list (instance_of view.now.method context)) call.now.pc (X.policy contexts.now)
        call.now.op call.now.member.now call.now.resolved)) }
{
    if call.op == 184 {
        return Ok(());
    }
    follow_objects(
        alloc, contexts, view, facts, instance, context, call, following,
    )
}

/// Adds the targets of a call, and what they are given as their receivers.
fn follow_called<X: Contexts>(
    alloc: Global,
    contexts: &X,
    view: &MethodView<'_>,
    facts: &Facts<X::C>,
    instance: InstanceId,
    context: X::C,
    call: &Called<'_>,
    following: &mut Vec<Fact<X::C>>,
) -> Result<(), Memory>
    requires view { IsMethodView view.now }
    requires named { IsInstance facts.now.instances instance (instance_of view.now.method context) }
    ensures { OnOk result (Adds (Listed X.list following.old.items) (Listed X.list following.new.items)
        (CallGivesFor view.now.program.now (Known X.list facts.now) (instance_seen X.list (instance_of view.now.method context)) call.now.pc (X.policy contexts.now)
        call.now.op call.now.member.now call.now.resolved)) }
{
    let callee = static_callee(view, call);
    add_static(contexts, view, context, call.pc, callee, following)?;
    follow_receivers(
        alloc, contexts, view, facts, instance, context, call, following,
    )
}

/// The same for what stands at a call.
fn follow_insn<X: Contexts>(
    alloc: Global,
    contexts: &X,
    view: &MethodView<'_>,
    facts: &Facts<X::C>,
    instance: InstanceId,
    context: X::C,
    pc: u32,
    node: &FlowNode,
    following: &mut Vec<Fact<X::C>>,
) -> Result<(), Memory>
    requires view { IsMethodView view.now }
    requires named { IsInstance facts.now.instances instance (instance_of view.now.method context) }
    ensures { OnOk result (Adds (Listed X.list following.old.items) (Listed X.list following.new.items)
        (InsnGives view.now.program.now (Known X.list facts.now) (instance_seen X.list (instance_of view.now.method context)) pc (X.policy contexts.now) node.now.insn node.now.method)) }
{
    let Some(insn) = node.insn else {
        return Ok(());
    };
    let Some(member) = member_named(view.program, view.method, insn) else {
        return Ok(());
    };
    let call = Called {
        pc,
        op: opcode_of(insn),
        member,
        resolved: node.method,
    };
    follow_called(
        alloc, contexts, view, facts, instance, context, &call, following,
    )
}

// ---- arguments

/// Adds that a target has what an argument may be, unless that is its receiver.
fn add_argument<C: Copy + Ord + Hash>(
    view: &MethodView<'_>,
    facts: &Facts<C>,
    instance: InstanceId,
    caller: &InstKey<C>,
    pc: u32,
    to: &InstKey<C>,
    k: u32,
    following: &mut Vec<Fact<C>>,
) -> Result<(), Memory>
    requires named { IsInstance facts.now.instances instance caller.now }
    ensures { OnOk result (AddsSeen following.old.items following.new.items
        (λ list. ArgumentGives view.now.program.now (Known list facts.now) (instance_seen list caller.now) pc (instance_seen list to.now) k)) }
{
    if receives(view.program, to.method, k) {
        return Ok(());
    }
    let _count = facts.instances();
    let held = facts.held(&Holder::Node(instance, NodeKind::Arg(pc, k)));
    add_objects(facts, held, to, NodeKind::Param(k), following)
}

/// Adds what a target is given of these first arguments.
fn add_arguments<C: Copy + Ord + Hash>(
    view: &MethodView<'_>,
    facts: &Facts<C>,
    instance: InstanceId,
    caller: &InstKey<C>,
    pc: u32,
    to: &InstKey<C>,
    end: u32,
    following: &mut Vec<Fact<C>>,
) -> Result<(), Memory>
    requires named { IsInstance facts.now.instances instance caller.now }
    ensures { OnOk result (AddsSeen following.old.items following.new.items
        (λ list. FromBelow end (ArgumentGives view.now.program.now (Known list facts.now) (instance_seen list caller.now) pc (instance_seen list to.now)))) }
{
    for k in 0..end {
        add_argument(view, facts, instance, caller, pc, to, k, following)?;
    }
    Ok(())
}

/// Adds what the targets of the call at a pc are given of its first arguments.
fn follow_arguments<C: Copy + Ord + Hash>(
    view: &MethodView<'_>,
    facts: &Facts<C>,
    instance: InstanceId,
    caller: &InstKey<C>,
    pc: u32,
    end: u32,
    following: &mut Vec<Fact<C>>,
) -> Result<(), Memory>
    requires named { IsInstance facts.now.instances instance caller.now }
    ensures { OnOk result (AddsSeen following.old.items following.new.items
        (λ list. TargetsGive view.now.program.now (Known list facts.now) (instance_seen list caller.now) pc end)) }
{
    let _count = facts.instances();
    let targets = facts.targets(instance, pc);
    for target in targets {
        let to = facts.instance(target.instance);
        add_arguments(view, facts, instance, caller, pc, &to, end, following)?;
    }
    Ok(())
}

fn higher(place: Place, end: u32) -> u32
    ensures over { (h : ℕ) → place ≡ Stack h → h < result }
    ensures bound { end ≤ result }
{
    match place {
        Place::Stack(height) => end.max(u32::from(height) + 1),
        _ => end,
    }
}

/// A height above those places that are of the stack.
fn end_of(places: &[Place]) -> u32
    ensures { LieBelow places.now result }
{
    let mut end = 0;
    for place in places {
        end = higher(*place, end);
    }
    end
}

// ---- all nodes

/// Adds what a node gives.
fn follow_node<X: Contexts>(
    alloc: Global,
    contexts: &X,
    view: &MethodView<'_>,
    facts: &Facts<X::C>,
    instance: InstanceId,
    context: X::C,
    n: u32,
    following: &mut Vec<Fact<X::C>>,
) -> Result<(), Memory>
    requires view { IsMethodView view.now }
    requires named { IsInstance facts.now.instances instance (instance_of view.now.method context) }
    requires nodes { (f : AFact X.C) → HasFact facts.now f → HasItsNodes view.now.program.now f }
    requires node { n < length view.now.wide.now }
    ensures { OnOk result (Adds (Listed X.list following.old.items) (Listed X.list following.new.items)
        (NodeGives view.now.program.now (Known X.list facts.now) (instance_seen X.list (instance_of view.now.method context)) (X.policy contexts.now) view.now.wide.now n)) }
{
    let _count = facts.instances();
    let node = view.wide.node(n);
    let NodeKind::Call(pc) = node.kind else {
        return Ok(());
    };
    follow_insn(
        alloc, contexts, view, facts, instance, context, pc, node, following,
    )?;
    let caller = InstKey {
        method: view.method,
        context,
    };
    let end = end_of(view.wide.reads(n));
    follow_arguments(view, facts, instance, &caller, pc, end, following)
}

/// Adds what follows by one step from the calls of an instance: their targets, by the objects that they may have as their receivers,
/// and what these targets are given.
pub fn follow_targets<X: Contexts>(
    alloc: Global,
    contexts: &X,
    view: &MethodView<'_>,
    facts: &Facts<X::C>,
    instance: InstanceId,
    following: &mut Vec<Fact<X::C>>,
) -> Result<(), Memory>
    requires view { IsMethodView view.now }
    requires named { instance < length facts.now.instances }
    requires method { (key : AnInstance X.C) → IsInstance facts.now.instances instance key → key.method ≡ view.now.method }
    requires nodes { (f : AFact X.C) → HasFact facts.now f → HasItsNodes view.now.program.now f }
    ensures { OnOk result ((key : AnInstance X.C) → IsInstance facts.now.instances instance key → Adds (Listed X.list following.old.items) (Listed X.list following.new.items)
        (ByTarget view.now.program.now (X.policy contexts.now) (Known X.list facts.now) (HasHeightAt view.now.program.now view.now.method) (instance_seen X.list key))) }
{
    let _count = facts.instances();
    let context = context_of(view, facts, instance);
    for n in 0..view.wide.len() {
        follow_node(
            alloc, contexts, view, facts, instance, context, n, following,
        )?;
    }
    Ok(())
}
