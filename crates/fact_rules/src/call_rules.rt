//! What follows from calls and their targets.
ghost use Rattle.std.specs.Prelude.{◌≡◌, ◌↔◌, ◌<◌, ℕ, length, Contains, IsTrue, OnOk, List as Items};
ghost use Rattle.dep_nodes.specs.OnceLists.{IsOnceEach};
ghost use Rattle.dependence.specs.declared.facts.Fact.TheVariants.{Reached as Runs, Stalls as MayStall};
ghost use Rattle.fact_sets.specs.FactLists.{HasFact, IsInstance};
ghost use Rattle.fact_sets.specs.declared.numbered.Holder.TheVariants.{Node};
ghost use Rattle.fact_sets.specs.declared.numbered.NumberedFact.TheVariants.{Holds as IsHeld};
ghost use Rattle.contexts.specs.Policies.{ContextPolicy};
ghost use Rattle.jo_prog.specs.declared.program.Program.{Program as AProgram};
ghost use Rattle.jo_prog.specs.TypingPaths.{HasHeightAt};
ghost use Rattle.dependence.specs.declared.facts.Fact.{Fact as AFact};
ghost use Rattle.dependence.specs.FactRules.{ByRule};
ghost use Rattle.fact_rules.specs.Adds.{Adds};
ghost use Rattle.fact_sets.specs.Seen.{TellsApart, Known, Listed};
ghost use Rattle.fact_rules.specs.CallRules.{ByCall, CallGives, HandsOn, IfHas, TargetGives};

use crate::additions::{add, add_held};
use dep_nodes::NodeKind;
use dependence::facts::{Fact, InstKey};
use fact_sets::facts::Facts;
use fact_sets::numbered::Holder;
use jo_ids::{Memory, ObjectId};
use std::hash::Hash;

/// Each instance has one number.
fn names_once<C: Copy + Ord + Hash>(facts: &Facts<C>)
    ensures { IsOnceEach facts.now.instances }
{
    let _count = facts.instances();
}

fn runs<C: Copy + Ord + Hash>(facts: &Facts<C>, key: &InstKey<C>) -> bool
    ensures { IsTrue result ↔ HasFact facts.now (Runs key.now) }
{
    names_once(facts);
    match facts.number_of(key) {
        Some(instance) => facts.reached(instance),
        None => false,
    }
}

fn stalls<C: Copy + Ord + Hash>(facts: &Facts<C>, key: &InstKey<C>) -> bool
    ensures { IsTrue result ↔ HasFact facts.now (MayStall key.now) }
{
    names_once(facts);
    match facts.number_of(key) {
        Some(instance) => facts.stalls(instance),
        None => false,
    }
}

/// The objects that a node of an instance holds.
fn held_by<'a, C: Copy + Ord + Hash>(
    facts: &'a Facts<C>,
    key: &InstKey<C>,
    kind: NodeKind,
) -> &'a [ObjectId]
    ensures each { (o : ℕ) → Contains result.now o ↔ ((i : ℕ) × IsInstance facts.now.instances i key.now × Contains facts.now.facts (IsHeld (Node i kind) o)) }
    ensures there { (o : ℕ) → Contains result.now o → o < length facts.now.objects }
{
    names_once(facts);
    match facts.number_of(key) {
        Some(instance) => facts.held(&Holder::Node(instance, kind)),
        None => &[],
    }
}

/// Adds that a node of an instance holds what a node of another holds.
fn hand_on<C: Copy + Ord + Hash>(
    facts: &Facts<C>,
    from: &InstKey<C>,
    from_kind: NodeKind,
    to: &InstKey<C>,
    to_kind: NodeKind,
    following: &mut Vec<Fact<C>>,
) -> Result<(), Memory>
    ensures { OnOk result (Adds (Contains following.old.items) (Contains following.new.items) (HandsOn (HasFact facts.now) from.now from_kind to.now to_kind)) }
{
    add_held(
        facts,
        held_by(facts, from, from_kind),
        to,
        to_kind,
        following,
    )
}

/// Adds that a caller of what may never end may never end.
fn add_waiting<C: Copy + Ord + Hash>(
    facts: &Facts<C>,
    caller: &InstKey<C>,
    target: &InstKey<C>,
    following: &mut Vec<Fact<C>>,
) -> Result<(), Memory>
    ensures { OnOk result (Adds (Contains following.old.items) (Contains following.new.items) (IfHas (HasFact facts.now) (MayStall target.now) (MayStall caller.now))) }
{
    if stalls(facts, target) {
        add(following, Fact::Stalls(*caller))
    } else {
        Ok(())
    }
}

/// Adds what follows for a target in the same thread.
fn add_target<C: Copy + Ord + Hash>(
    facts: &Facts<C>,
    caller: &InstKey<C>,
    pc: u32,
    target: &InstKey<C>,
    following: &mut Vec<Fact<C>>,
) -> Result<(), Memory>
    ensures { OnOk result (Adds (Contains following.old.items) (Contains following.new.items) (TargetGives (HasFact facts.now) caller.now pc target.now)) }
{
    add(following, Fact::Reached(*target))?;
    add_waiting(facts, caller, target, following)?;
    hand_on(
        facts,
        target,
        NodeKind::Value,
        caller,
        NodeKind::RetVal(pc),
        following,
    )?;
    hand_on(
        facts,
        target,
        NodeKind::Thrown,
        caller,
        NodeKind::Throw(pc),
        following,
    )
}

/// Adds what follows from a fact about a call.
fn add_from<C: Copy + Ord + Hash>(
    facts: &Facts<C>,
    fact: &Fact<C>,
    following: &mut Vec<Fact<C>>,
) -> Result<(), Memory>
    ensures { OnOk result (Adds (Contains following.old.items) (Contains following.new.items) (CallGives (HasFact facts.now) fact.now)) }
{
    match fact {
        Fact::Target(caller, pc, target) => {
            if !runs(facts, caller) {
                return Ok(());
            }
            add_target(facts, caller, *pc, target, following)
        }
        Fact::Fork(caller, _, target) => {
            if !runs(facts, caller) {
                return Ok(());
            }
            add(following, Fact::Reached(*target))
        }
        _ => Ok(()),
    }
}

/// Adds what follows from calls and their targets by one step: that targets run, what comes back from those in the same thread, as
/// a result and as an exception, and that a caller may never end where one of these may not.
pub fn follow_calls<C: Copy + Ord + Hash>(
    facts: &Facts<C>,
    following: &mut Vec<Fact<C>>,
) -> Result<(), Memory>
    ensures { OnOk result ((list : C → Items ℕ) → TellsApart list
        → Adds (Listed list following.old.items) (Listed list following.new.items) (ByCall (Known list facts.now))) }
{
    for place in 0..facts.len() {
        let fact = facts.fact(place);
        add_from(facts, &fact, following)?;
    }
    Ok(())
}

/// Each of these steps is one by the rules of facts.
pub fn calls_follow_by_rules<C: Copy + Ord + Hash>(facts: &Facts<C>)
    ensures { (list : C → Items ℕ) (program : AProgram) (policy : ContextPolicy) (entry : ℕ) (g : AFact (Items ℕ))
        → ByCall (Known list facts.now) g → ByRule program policy (HasHeightAt program) entry (Known list facts.now) g }
{}
