//! What becomes of exceptions.
ghost use Rattle.std.specs.Prelude.{◌≡◌, ℕ, ◌<◌, length, IfOk, OnOk, List as Items};
ghost use Rattle.jo_ids.specs.declared.ObjKey.{ObjKey as AnObject};
ghost use Rattle.contexts.specs.Policies.{ContextPolicy};
ghost use Rattle.std.specs.Option.{option_copied};
ghost use Rattle.jo_prog.specs.TypingPaths.{HasHeightAt};
ghost use Rattle.dependence.specs.declared.facts.InstKey.{InstKey as AnInstance};
ghost use Rattle.dependence.specs.declared.facts.Fact.{Fact as AFact};
ghost use Rattle.dependence.specs.FlowGraph.{type_of_object};
ghost use Rattle.fact_sets.specs.FactLists.{HasFact, IsInstance};
ghost use Rattle.fact_sets.specs.Seen.{TellsApart, Known, Listed, instance_seen, object_seen};
ghost use Rattle.method_views.specs.InstanceRules.{ByCatch};
ghost use Rattle.method_views.specs.Views.{IsMethodView};
ghost use Rattle.fact_rules.specs.Adds.{Adds};
ghost use Rattle.fact_rules.specs.Additions.{AddsSeen};
ghost use Rattle.fact_rules.specs.CatchRules.{IsCaughtBy, GoesTo, ThrownGives, ThrowGives, CatchGives};
ghost use Rattle.fact_rules.specs.NamedNodes.{HasItsNodes};

use crate::additions::add_fact;
use dep_nodes::NodeKind;
use dependence::facts::{Fact, InstKey};
use fact_sets::facts::Facts;
use fact_sets::numbered::Holder;
use jo_ids::{InstanceId, Memory, ObjKey, SiteId};
use jo_prog::program::TypeRef;
use method_views::views::MethodView;
use object_types::types::{first_catching, type_of};
use std::alloc::Global;
use std::hash::Hash;

/// The first row that catches an object of this type at a pc. A row past 2^32 has no number: for it memory is said to be wanting.
fn row_for(view: &MethodView<'_>, pc: u32, own: Option<&TypeRef>) -> Result<Option<u32>, Memory>
    requires view { IsMethodView view.now }
    ensures { IfOk result (λ row. (o : AnObject (Items ℕ)) → type_of_object view.now.program.now o ≡ option_copied own.entry → IsCaughtBy view.now.program.now view.now.method pc row o) }
{
    match first_catching(view.program, view.hierarchy, view.method, pc, own) {
        Some(k) => match u32::try_from(k) {
            Ok(k) => Ok(Some(k)),
            Err(_) => Err(Memory),
        },
        None => Ok(None),
    }
}

/// The first row that catches what is thrown at a pc and made at a site.
fn row_catching(
    alloc: Global,
    view: &MethodView<'_>,
    pc: u32,
    site: SiteId,
) -> Result<Option<u32>, Memory>
    requires view { IsMethodView view.now }
    ensures { IfOk result (λ row. (o : AnObject (Items ℕ)) → o.site ≡ site → IsCaughtBy view.now.program.now view.now.method pc row o) }
{
    let own = type_of(alloc, view.program, site)?;
    let row = row_for(view, pc, own.as_ref())?;
    Ok(row)
}

/// Adds where an object comes that this row catches, or none.
fn add_caught<C: Copy + Ord + Hash>(
    key: &InstKey<C>,
    row: Option<u32>,
    object: &ObjKey<C>,
    following: &mut Vec<Fact<C>>,
) -> Result<(), Memory>
    ensures { OnOk result (AddsSeen following.old.items following.new.items (λ list. GoesTo (instance_seen list key.now) row (object_seen list object.now))) }
{
    match row {
        Some(k) => add_fact(following, Fact::Holds(*key, NodeKind::Catch(k), *object)),
        None => {
            add_fact(following, Fact::Holds(*key, NodeKind::Thrown, *object))?;
            add_fact(following, Fact::Throws(*key))
        }
    }
}

/// Adds what an object gives that is thrown at a pc.
fn add_thrown<C: Copy + Ord + Hash>(
    alloc: Global,
    view: &MethodView<'_>,
    key: &InstKey<C>,
    pc: u32,
    object: &ObjKey<C>,
    following: &mut Vec<Fact<C>>,
) -> Result<(), Memory>
    requires view { IsMethodView view.now }
    requires method { key.now.method ≡ view.now.method }
    ensures { OnOk result (AddsSeen following.old.items following.new.items (λ list. ThrownGives view.now.program.now (instance_seen list key.now) pc (object_seen list object.now))) }
{
    let row = row_catching(alloc, view, pc, object.site)?;
    add_caught(key, row, object, following)
}

/// Adds what the objects give that are thrown at a pc.
fn follow_throw<C: Copy + Ord + Hash>(
    alloc: Global,
    view: &MethodView<'_>,
    facts: &Facts<C>,
    instance: InstanceId,
    key: &InstKey<C>,
    pc: u32,
    following: &mut Vec<Fact<C>>,
) -> Result<(), Memory>
    requires view { IsMethodView view.now }
    requires method { key.now.method ≡ view.now.method }
    requires named { IsInstance facts.now.instances instance key.now }
    ensures { OnOk result (AddsSeen following.old.items following.new.items (λ list. ThrowGives view.now.program.now (Known list facts.now) (instance_seen list key.now) pc)) }
{
    let _count = facts.instances();
    let held = facts.held(&Holder::Node(instance, NodeKind::Throw(pc)));
    for o in held {
        let object = facts.object(*o);
        add_thrown(alloc, view, key, pc, &object, following)?;
    }
    Ok(())
}

/// Adds what the objects give that a node of this kind throws.
fn follow_kind<C: Copy + Ord + Hash>(
    alloc: Global,
    view: &MethodView<'_>,
    facts: &Facts<C>,
    instance: InstanceId,
    key: &InstKey<C>,
    kind: NodeKind,
    following: &mut Vec<Fact<C>>,
) -> Result<(), Memory>
    requires view { IsMethodView view.now }
    requires method { key.now.method ≡ view.now.method }
    requires named { IsInstance facts.now.instances instance key.now }
    ensures { OnOk result (AddsSeen following.old.items following.new.items (λ list. CatchGives view.now.program.now (Known list facts.now) (instance_seen list key.now) kind)) }
{
    match kind {
        NodeKind::Throw(pc) => follow_throw(alloc, view, facts, instance, key, pc, following),
        _ => Ok(()),
    }
}

/// Adds what becomes of the exceptions that an instance throws: they come to the first row that catches them, or leave it.
pub fn follow_catches<C: Copy + Ord + Hash>(
    alloc: Global,
    view: &MethodView<'_>,
    facts: &Facts<C>,
    instance: InstanceId,
    following: &mut Vec<Fact<C>>,
) -> Result<(), Memory>
    requires view { IsMethodView view.now }
    requires named { instance < length facts.now.instances }
    requires method { (key : AnInstance C) → IsInstance facts.now.instances instance key → key.method ≡ view.now.method }
    requires nodes { (f : AFact C) → HasFact facts.now f → HasItsNodes view.now.program.now f }
    ensures { OnOk result ((list : C → Items ℕ) (key : AnInstance C) (policy : ContextPolicy) → TellsApart list → IsInstance facts.now.instances instance key
        → Adds (Listed list following.old.items) (Listed list following.new.items) (ByCatch view.now.program.now policy (Known list facts.now) (HasHeightAt view.now.program.now view.now.method) (instance_seen list key))) }
{
    let _count = facts.instances();
    let key = facts.instance(instance);
    for n in 0..view.wide.len() {
        let kind = view.wide.node(n).kind;
        follow_kind(alloc, view, facts, instance, &key, kind, following)?;
    }
    Ok(())
}
