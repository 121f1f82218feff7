//! What places hold at an instruction.
ghost use Rattle.std.specs.Prelude.{◌≡◌, ◌⊎◌, ◌≤◌, ℕ, ◌<◌, length, Contains, OnOk};
ghost use Rattle.dep_nodes.specs.OnceLists.{IsOnceEach};
ghost use Rattle.dependence.specs.declared.flow.Place.TheVariants.{Stack};
ghost use Rattle.dependence.specs.declared.facts.InstKey.{InstKey as AnInstance};
ghost use Rattle.dependence.specs.MayBeNull;
ghost use Rattle.dependence.specs.WideGraph;
ghost use Rattle.jo_prog.specs.Operations;
ghost use Rattle.fact_sets.specs.FactLists.{IsInstance};
ghost use Rattle.fact_sets.specs.Seen.{Known, instance_seen};
ghost use Rattle.fact_rules.specs.Additions.{AddsSeen};
ghost use Rattle.fact_rules.specs.Places.{HandsTo, instance_of};

use crate::additions::add_objects;
use dep_nodes::NodeKind;
use dependence::facts::{Fact, InstKey};
use dependence::flow::Place;
use dependence::flows::Use;
use fact_sets::facts::Facts;
use fact_sets::numbered::Holder;
use jo_ids::{InstanceId, Memory};
use method_views::operands::named_by;
use method_views::views::MethodView;
use std::hash::Hash;

// ---- opcodes

pub(crate) fn within(low: u8, high: u8, op: u8) -> bool
    ensures { result ≡ Operations.within low high op }
{
    low <= op && op <= high
}

/// Whether it is a load, store or copy of a local or of the stack, or a cast.
pub(crate) fn is_move(op: u8) -> bool
    ensures { result ≡ MayBeNull.is_move op }
{
    op == 25
        || within(42, 45, op)
        || op == 58
        || within(75, 78, op)
        || within(89, 95, op)
        || op == 192
}

pub(crate) fn is_call(op: u8) -> bool
    ensures { result ≡ WideGraph.is_call op }
{
    within(182, 185, op)
}

// ---- heights

/// The lowest height of the stack among these places and that one.
pub(crate) fn lowest(places: &[Place], height: u16) -> u16
    ensures there { Contains places.now (Stack height) → Contains places.now (Stack result) }
    ensures least { (h : ℕ) → Contains places.now (Stack h) → result ≤ h }
    ensures bound { result ≤ height }
{
    let mut low = height;
    for place in places {
        low = lower(*place, low);
    }
    low
}

fn lower(place: Place, low: u16) -> u16
    ensures is { (result ≡ low) ⊎ (place ≡ Stack result) }
    ensures least { (h : ℕ) → place ≡ Stack h → result ≤ h }
    ensures bound { result ≤ low }
{
    match place {
        Place::Stack(h) => h.min(low),
        _ => low,
    }
}

// ---- uses

/// Adds that a node holds what the definition of a use does.
pub(crate) fn hand_to<C: Copy + Ord + Hash>(
    view: &MethodView<'_>,
    facts: &Facts<C>,
    instance: InstanceId,
    context: C,
    u: &Use,
    to: NodeKind,
    following: &mut Vec<Fact<C>>,
) -> Result<(), Memory>
    requires named { IsInstance facts.now.instances instance (instance_of view.now.method context) }
    requires from { u.now.from < length view.now.wide.now }
    ensures { OnOk result (AddsSeen following.old.items following.new.items (λ list. HandsTo view.now.wide.now (Known list facts.now) (instance_seen list (instance_of view.now.method context)) u.now to)) }
{
    names_once(facts);
    let key = InstKey {
        method: view.method,
        context,
    };
    let from = named_by(view.wide.node(u.from).kind, u.place);
    let held = facts.held(&Holder::Node(instance, from));
    add_objects(facts, held, &key, to, following)
}

/// Each instance has one number.
pub(crate) fn names_once<C: Copy + Ord + Hash>(facts: &Facts<C>)
    ensures { IsOnceEach facts.now.instances }
{
    let _count = facts.instances();
}

/// The context of the instance with that number.
pub(crate) fn context_of<C: Copy + Ord + Hash>(
    view: &MethodView<'_>,
    facts: &Facts<C>,
    instance: InstanceId,
) -> C
    requires named { instance < length facts.now.instances }
    requires method { (key : AnInstance C) → IsInstance facts.now.instances instance key → key.method ≡ view.now.method }
    ensures { IsInstance facts.now.instances instance (instance_of view.now.method result) }
{
    facts.instance(instance).context
}
