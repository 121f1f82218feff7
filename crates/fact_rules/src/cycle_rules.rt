//! What may never end by itself: loops, and cycles of calls.
ghost use Rattle.std.specs.Prelude.{◌≡◌, ◌↔◌, ◌<◌, ◌+◌, ◌^◌, ℕ, length, Contains, IfOk, IsTrue, OnOk, List as Items};
ghost use Rattle.jo_ids.specs.Path.{Path};
ghost use Rattle.jo_graph.specs.Graphs.{HasEdge};
ghost use Rattle.dependence.specs.declared.facts.InstKey.{InstKey as AnInstance};
ghost use Rattle.fact_sets.specs.FactLists.{IsInstance};
ghost use Rattle.fact_sets.specs.Seen.{TellsApart, Known, Listed, instance_seen};
ghost use Rattle.method_views.specs.Views.{IsMethodView};
ghost use Rattle.fact_rules.specs.Adds.{Adds, FromBelow};
ghost use Rattle.fact_rules.specs.CycleRules;
ghost use Rattle.fact_rules.specs.CycleRules.{ByLoop, HasLoop, ByRecursion, IsCallEdge, HasPair, IsPairOf, IsTargetPair, IsPairFrom, RecursAt};

use crate::additions::{add, add_fact};
use crate::places::names_once;
use dep_nodes::NodeKind;
use dependence::facts::{Fact, InstKey};
use dependence::flows::Flow;
use fact_sets::facts::Facts;
use jo_graph::{Digraph, Work};
use jo_ids::{BitRow, InstanceId, Memory};
use method_views::views::MethodView;
use std::alloc::Global;
use std::hash::Hash;

// ---- loops

fn is_loop(kind: NodeKind) -> bool
    ensures { result ≡ CycleRules.is_loop kind }
{
    matches!(kind, NodeKind::Poll(_, _) | NodeKind::XPoll(_, _))
}

/// Whether an edge of the graph may close a loop.
fn has_loop(wide: &Flow) -> bool
    ensures { IsTrue result ↔ HasLoop wide.now }
{
    for n in 0..wide.len() {
        if is_loop(wide.node(n).kind) {
            return true;
        }
    }
    false
}

/// Adds that an instance may never end whose method has a loop.
pub fn follow_loops<C: Copy + Ord + Hash>(
    view: &MethodView<'_>,
    facts: &Facts<C>,
    instance: InstanceId,
    following: &mut Vec<Fact<C>>,
) -> Result<(), Memory>
    requires view { IsMethodView view.now }
    requires named { instance < length facts.now.instances }
    requires method { (key : AnInstance C) → IsInstance facts.now.instances instance key → key.method ≡ view.now.method }
    ensures { OnOk result ((list : C → Items ℕ) (key : AnInstance C) → TellsApart list → IsInstance facts.now.instances instance key
        → Adds (Listed list following.old.items) (Listed list following.new.items) (ByLoop view.now.program.now (instance_seen list key))) }
{
    if !has_loop(view.wide) {
        return Ok(());
    }
    add_fact(following, Fact::Stalls(facts.instance(instance)))
}

// ---- cycles of calls

/// Adds a call to the graph, in which each number stands twice.
fn add_call(calls: &mut Digraph, count: u32, caller: u32, target: u32) -> Result<(), Memory>
    requires caller { caller < count }
    requires target { target < count }
    requires few { count + count < 2 ^ 32 }
    requires room { length calls.old ≡ count + count }
    ensures pairs { OnOk result (Adds (HasPair calls.old) (HasPair calls.new) (IsPairOf count caller target)) }
    ensures room { OnOk result (length calls.new ≡ count + count) }
{
    calls.add(caller, target)?;
    calls.add(count + caller, target)?;
    Ok(())
}

fn add_target<C: Copy + Ord + Hash>(
    facts: &Facts<C>,
    caller: &InstKey<C>,
    target: &InstKey<C>,
    count: u32,
    calls: &mut Digraph,
) -> Result<(), Memory>
    requires count { count ≡ length facts.now.instances }
    requires few { count + count < 2 ^ 32 }
    requires room { length calls.old ≡ count + count }
    ensures pairs { OnOk result (Adds (HasPair calls.old) (HasPair calls.new) (IsTargetPair facts.now.instances count caller.now target.now)) }
    ensures room { OnOk result (length calls.new ≡ count + count) }
{
    names_once(facts);
    let Some(from) = facts.number_of(caller) else {
        return Ok(());
    };
    let Some(to) = facts.number_of(target) else {
        return Ok(());
    };
    add_call(calls, count, from.number(), to.number())
}

/// Adds what a fact tells of calls in one thread.
fn add_from<C: Copy + Ord + Hash>(
    facts: &Facts<C>,
    fact: &Fact<C>,
    count: u32,
    calls: &mut Digraph,
) -> Result<(), Memory>
    requires count { count ≡ length facts.now.instances }
    requires few { count + count < 2 ^ 32 }
    requires room { length calls.old ≡ count + count }
    ensures pairs { OnOk result (Adds (HasPair calls.old) (HasPair calls.new) (IsPairFrom facts.now.instances count fact.now)) }
    ensures room { OnOk result (length calls.new ≡ count + count) }
{
    match fact {
        Fact::Target(caller, _, target) => add_target(facts, caller, target, count, calls),
        _ => Ok(()),
    }
}

/// The calls in one thread, by the numbers of instances. Each number stands twice, once with no edge that leads there: what a
/// search from there finds lies behind the instance.
fn calls_of<C: Copy + Ord + Hash>(
    alloc: Global,
    facts: &Facts<C>,
    count: u32,
) -> Result<Digraph, Memory>
    requires count { count ≡ length facts.now.instances }
    requires few { count + count < 2 ^ 32 }
    ensures edges { IfOk result (λ calls. (x y : ℕ) → HasEdge calls x y ↔ IsCallEdge facts.now count x y) }
    ensures room { IfOk result (λ calls. length calls ≡ count + count) }
{
    let mut calls = Digraph::new(alloc, count + count)?;
    for place in 0..facts.len() {
        let fact = facts.fact(place);
        add_from(facts, &fact, count, &mut calls)?;
    }
    Ok(calls)
}

/// Whether calls lead from an instance back to it.
fn recurs(calls: &Digraph, count: u32, instance: u32, found: &mut BitRow, work: &mut Work) -> bool
    requires instance { instance < count }
    requires few { count + count < 2 ^ 32 }
    requires room { length calls.now ≡ count + count }
    requires found { length found.old ≡ count + count }
    requires work { work.old ≡ count + count }
    ensures recurs { IsTrue result ↔ Path (HasEdge calls.now) (count + instance) instance }
    ensures found { length found.new ≡ count + count }
    ensures work { work.new ≡ count + count }
{
    calls.reach(count + instance, found, work);
    found.has(instance)
}

/// Adds that an instance that runs may never end, where calls lead back to it.
fn add_if_recurs<C: Copy + Ord + Hash>(
    facts: &Facts<C>,
    calls: &Digraph,
    instance: u32,
    found: &mut BitRow,
    work: &mut Work,
    following: &mut Vec<Fact<C>>,
) -> Result<(), Memory>
    requires instance { instance < length facts.now.instances }
    requires few { length facts.now.instances + length facts.now.instances < 2 ^ 32 }
    requires room { length calls.now ≡ length facts.now.instances + length facts.now.instances }
    requires found { length found.old ≡ length facts.now.instances + length facts.now.instances }
    requires work { work.old ≡ length facts.now.instances + length facts.now.instances }
    ensures adds { OnOk result (Adds (Contains following.old.items) (Contains following.new.items) (RecursAt facts.now calls.now (length facts.now.instances) instance)) }
    ensures found { length found.new ≡ length facts.now.instances + length facts.now.instances }
    ensures work { work.new ≡ length facts.now.instances + length facts.now.instances }
{
    names_once(facts);
    let id = InstanceId::of(instance);
    if !facts.reached(id) {
        return Ok(());
    }
    if !recurs(calls, facts.instances(), instance, found, work) {
        return Ok(());
    }
    add(following, Fact::Stalls(facts.instance(id)))
}

/// Adds that each instance may never end that runs, and to which calls lead back.
fn add_recurring<C: Copy + Ord + Hash>(
    facts: &Facts<C>,
    calls: &Digraph,
    found: &mut BitRow,
    work: &mut Work,
    following: &mut Vec<Fact<C>>,
) -> Result<(), Memory>
    requires few { length facts.now.instances + length facts.now.instances < 2 ^ 32 }
    requires room { length calls.now ≡ length facts.now.instances + length facts.now.instances }
    requires found { length found.old ≡ length facts.now.instances + length facts.now.instances }
    requires work { work.old ≡ length facts.now.instances + length facts.now.instances }
    ensures { OnOk result (Adds (Contains following.old.items) (Contains following.new.items) (FromBelow (length facts.now.instances) (RecursAt facts.now calls.now (length facts.now.instances)))) }
{
    for instance in 0..facts.instances() {
        add_if_recurs(facts, calls, instance, found, work, following)?;
    }
    Ok(())
}

/// Adds that each instance may never end that runs, and is called again by what it calls in its thread. It looks at each call
/// once for each instance that leads to it.
pub fn follow_cycles<C: Copy + Ord + Hash>(
    alloc: Global,
    facts: &Facts<C>,
    following: &mut Vec<Fact<C>>,
) -> Result<(), Memory>
    ensures { OnOk result ((list : C → Items ℕ) → TellsApart list
        → Adds (Listed list following.old.items) (Listed list following.new.items) (ByRecursion (Known list facts.now))) }
{
    names_once(facts);
    let count = facts.instances();
    let Some(nodes) = count.checked_add(count) else {
        return Err(Memory);
    };
    let calls = calls_of(alloc, facts, count)?;
    let mut found = BitRow::with_len(alloc, nodes)?;
    let mut work = Work::with_len(alloc, nodes)?;
    add_recurring(facts, &calls, &mut found, &mut work, following)
}
