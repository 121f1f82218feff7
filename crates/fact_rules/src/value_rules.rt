//! What follows from what the instructions of an instance make and hand on.
ghost use Rattle.std.specs.Prelude.{◌≡◌, ◌↔◌, ℕ, ◌+◌, ◌<◌, ◌≤◌, length, Some, Contains, IsTrue, OnOk, List as Items};
ghost use Rattle.std.specs.Option.{option_copied};
ghost use Rattle.jo_prog.specs.Sites.{opcode_of as opcode_in};
ghost use Rattle.jo_prog.specs.TypingPaths.{HasHeightAt};
ghost use Rattle.dep_nodes.specs.declared.kinds.NodeKind.{NodeKind as AKind};
ghost use Rattle.dep_nodes.specs.declared.kinds.NodeKind.TheVariants.{Arg};
ghost use Rattle.dependence.specs.declared.facts.InstKey.{InstKey as AnInstance};
ghost use Rattle.dependence.specs.declared.facts.Fact.{Fact as AFact};
ghost use Rattle.dependence.specs.declared.flow.Place.TheVariants.{Stack};
ghost use Rattle.dependence.specs.FactRules;
ghost use Rattle.dependence.specs.FlowData.{ReadsIn};
ghost use Rattle.dependence.specs.WideGraph.{insn_at};
ghost use Rattle.fact_sets.specs.FactLists.{IsInstance};
ghost use Rattle.fact_sets.specs.Seen.{Known, Listed, instance_seen};
ghost use Rattle.method_views.specs.Bases.{IsBelowTop};
ghost use Rattle.method_views.specs.InstanceRules.{ByValue};
ghost use Rattle.method_views.specs.UseTables.{StandsAt};
ghost use Rattle.method_views.specs.Views.{IsMethodView};
ghost use Rattle.fact_rules.specs.Adds.{Adds};
ghost use Rattle.fact_rules.specs.Additions.{AddsSeen};
ghost use Rattle.fact_rules.specs.Places.{IsAtNode, instance_of};
ghost use Rattle.fact_rules.specs.ValueSteps.{MakesAt, IsMade, TakenAs, HandsOver, UseHands, ValuesAt};

use crate::additions::add_fact;
use crate::places::{context_of, hand_to, is_call, is_move, lowest, within};
use contexts::Contexts;
use dep_nodes::NodeKind;
use dependence::facts::{Fact, InstKey};
use dependence::flow::Place;
use dependence::flows::Use;
use fact_sets::facts::Facts;
use jo_ids::{InstanceId, Memory, ObjKey, SiteId};
use jo_insn::Insn;
use jo_prog::program::Operand;
use jo_prog::sites::opcode_of;
use method_views::bases::is_below;
use method_views::operands::{operand_of, standing};
use method_views::views::MethodView;
use std::hash::Hash;

// ---- what an instruction makes

fn is_text(operand: Option<&Operand>) -> bool
    ensures { result ≡ FactRules.is_text (option_copied operand.entry) }
{
    matches!(operand, Some(Operand::Text(_)))
}

/// Whether the instruction loads a string constant.
fn loads_text(view: &MethodView<'_>, insn: Insn) -> bool
    ensures { (pc next : ℕ) → insn_at view.now.program.now view.now.method pc ≡ Some (insn, next) → (IsTrue result ↔ FactRules.LoadsText view.now.program.now view.now.method pc) }
{
    let operand = operand_of(view.program, view.method, insn);
    within(18, 19, opcode_of(insn)) && is_text(operand)
}

/// The object that the instruction at a pc makes in a context.
fn object_made<X: Contexts>(
    contexts: &X,
    view: &MethodView<'_>,
    context: X::C,
    pc: u32,
    insn: Insn,
) -> Option<ObjKey<X::C>>
    requires view { IsMethodView view.now }
    requires stands { (next : ℕ) × (insn_at view.now.program.now view.now.method pc ≡ Some (insn, next)) }
    ensures { (g : AFact (Items ℕ)) → IsMade X.list (instance_seen X.list (instance_of view.now.method context)) pc result g
        ↔ MakesAt view.now.program.now (X.policy contexts.now) (instance_seen X.list (instance_of view.now.method context)) pc g }
{
    if loads_text(view, insn) {
        return Some(ObjKey {
            site: SiteId::of(0),
            context: contexts.root(),
        });
    }
    if !within(187, 189, opcode_of(insn)) {
        return None;
    }
    match view.program.site_of(view.method, pc, None) {
        Some(site) => Some(ObjKey {
            site,
            context: contexts.heap(context, site),
        }),
        None => None,
    }
}

/// Adds that the instruction at a pc holds what it makes.
fn add_made<X: Contexts>(
    contexts: &X,
    view: &MethodView<'_>,
    context: X::C,
    pc: u32,
    insn: Insn,
    following: &mut Vec<Fact<X::C>>,
) -> Result<(), Memory>
    requires view { IsMethodView view.now }
    requires stands { (next : ℕ) × (insn_at view.now.program.now view.now.method pc ≡ Some (insn, next)) }
    ensures { OnOk result (Adds (Listed X.list following.old.items) (Listed X.list following.new.items)
        (MakesAt view.now.program.now (X.policy contexts.now) (instance_seen X.list (instance_of view.now.method context)) pc)) }
{
    let Some(object) = object_made(contexts, view, context, pc, insn) else {
        return Ok(());
    };
    let key = InstKey {
        method: view.method,
        context,
    };
    add_fact(following, Fact::Holds(key, NodeKind::Instr(pc), object))
}

// ---- what it hands on

/// Whether the instruction has that opcode, and the place is the top of the stack.
fn takes_top(view: &MethodView<'_>, wanted: u8, pc: u32, insn: Insn, place: Place) -> bool
    ensures { IsTrue result ↔ ((opcode_in insn ≡ wanted) × IsBelowTop view.now.typed.now pc 1 place) }
{
    if opcode_of(insn) != wanted {
        return false;
    }
    is_below(view.typed, pc, 1, place)
}

/// The argument of a call that stands at a place, by all places of its arguments.
fn argument_at(places: &[Place], pc: u32, place: Place) -> Option<NodeKind>
    ensures { (low k : ℕ) → Contains places.now (Stack low) → ((h : ℕ) → Contains places.now (Stack h) → low ≤ h) → Contains places.now place → place ≡ Stack (low + k)
        → result ≡ Some (Arg pc k) }
{
    match place {
        Place::Stack(height) => Some(NodeKind::Arg(pc, u32::from(height - lowest(places, height)))),
        _ => None,
    }
}

/// The node that the value of a place comes to by the instruction at a pc, which reads it.
fn taken_as(view: &MethodView<'_>, n: u32, pc: u32, insn: Insn, place: Place) -> Option<NodeKind>
    requires view { IsMethodView view.now }
    requires at { IsAtNode view.now.program.now view.now.method view.now.wide.now n pc insn }
    requires node { n < length view.now.wide.now }
    requires read { ReadsIn view.now.wide.now n place }
    ensures { (to : AKind) → (result ≡ Some to) ↔ TakenAs view.now.program.now view.now.method (HasHeightAt view.now.program.now view.now.method) pc place to }
{
    let op = opcode_of(insn);
    if is_move(op) {
        return Some(NodeKind::Instr(pc));
    }
    if is_call(op) {
        return argument_at(view.wide.reads(n), pc, place);
    }
    if takes_top(view, 176, pc, insn, place) {
        return Some(NodeKind::Value);
    }
    if takes_top(view, 191, pc, insn, place) {
        return Some(NodeKind::Throw(pc));
    }
    None
}

/// Adds what a use hands on.
fn hand_use<C: Copy + Ord + Hash>(
    view: &MethodView<'_>,
    facts: &Facts<C>,
    instance: InstanceId,
    context: C,
    n: u32,
    pc: u32,
    insn: Insn,
    u: &Use,
    following: &mut Vec<Fact<C>>,
) -> Result<(), Memory>
    requires view { IsMethodView view.now }
    requires named { IsInstance facts.now.instances instance (instance_of view.now.method context) }
    requires at { IsAtNode view.now.program.now view.now.method view.now.wide.now n pc insn }
    requires there { StandsAt view.now.uses.now n u.now }
    ensures { OnOk result (AddsSeen following.old.items following.new.items (λ list. UseHands view.now.program.now (Known list facts.now) (HasHeightAt view.now.program.now view.now.method)
        (instance_seen list (instance_of view.now.method context)) view.now.wide.now pc u.now)) }
{
    let Some(to) = taken_as(view, n, pc, insn, u.place) else {
        return Ok(());
    };
    hand_to(view, facts, instance, context, u, to, following)
}

/// Adds what the instruction at a node hands on.
fn hand_over<C: Copy + Ord + Hash>(
    view: &MethodView<'_>,
    facts: &Facts<C>,
    instance: InstanceId,
    context: C,
    n: u32,
    pc: u32,
    insn: Insn,
    following: &mut Vec<Fact<C>>,
) -> Result<(), Memory>
    requires view { IsMethodView view.now }
    requires named { IsInstance facts.now.instances instance (instance_of view.now.method context) }
    requires at { IsAtNode view.now.program.now view.now.method view.now.wide.now n pc insn }
    ensures { OnOk result (AddsSeen following.old.items following.new.items (λ list. HandsOver view.now.program.now (Known list facts.now) (HasHeightAt view.now.program.now view.now.method)
        (instance_seen list (instance_of view.now.method context)) pc)) }
{
    for u in view.uses.at(n) {
        hand_use(view, facts, instance, context, n, pc, insn, u, following)?;
    }
    Ok(())
}

// ---- all nodes

/// Adds what a node gives.
fn add_values<X: Contexts>(
    contexts: &X,
    view: &MethodView<'_>,
    facts: &Facts<X::C>,
    instance: InstanceId,
    context: X::C,
    n: u32,
    following: &mut Vec<Fact<X::C>>,
) -> Result<(), Memory>
    requires view { IsMethodView view.now }
    requires named { IsInstance facts.now.instances instance (instance_of view.now.method context) }
    requires node { n < length view.now.wide.now }
    ensures { OnOk result (Adds (Listed X.list following.old.items) (Listed X.list following.new.items)
        (ValuesAt view.now.program.now (X.policy contexts.now) (Known X.list facts.now) (HasHeightAt view.now.program.now view.now.method)
        (instance_seen X.list (instance_of view.now.method context)) view.now.wide.now n)) }
{
    let Some((pc, insn)) = standing(view.wide.node(n)) else {
        return Ok(());
    };
    add_made(contexts, view, context, pc, insn, following)?;
    hand_over(view, facts, instance, context, n, pc, insn, following)
}

/// Adds what follows by one step from the objects that the instructions of an instance make, and from those that its moves, calls,
/// throws and returns hand on.
pub fn follow_values<X: Contexts>(
    contexts: &X,
    view: &MethodView<'_>,
    facts: &Facts<X::C>,
    instance: InstanceId,
    following: &mut Vec<Fact<X::C>>,
) -> Result<(), Memory>
    requires view { IsMethodView view.now }
    requires named { instance < length facts.now.instances }
    requires method { (key : AnInstance X.C) → IsInstance facts.now.instances instance key → key.method ≡ view.now.method }
    ensures { OnOk result ((key : AnInstance X.C) → IsInstance facts.now.instances instance key → Adds (Listed X.list following.old.items) (Listed X.list following.new.items)
        (ByValue view.now.program.now (X.policy contexts.now) (Known X.list facts.now) (HasHeightAt view.now.program.now view.now.method) (instance_seen X.list key))) }
{
    let context = context_of(view, facts, instance);
    for n in 0..view.wide.len() {
        add_values(contexts, view, facts, instance, context, n, following)?;
    }
    Ok(())
}
