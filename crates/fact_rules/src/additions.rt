//! Lists of facts that follow.
ghost use Rattle.std.specs.Prelude.{◌≡◌, ◌<◌, ℕ, length, Contains, OnOk};
ghost use Rattle.fact_rules.specs.Adds.{Adds, From};
ghost use Rattle.fact_rules.specs.Additions.{SaysHeld, AddsSeen, OfObject};
ghost use Rattle.fact_sets.specs.Seen.{fact_seen, instance_seen};
ghost use Rattle.dependence.specs.declared.facts.Fact.TheVariants.{Holds};

use dep_nodes::NodeKind;
use dependence::facts::{Fact, InstKey};
use fact_sets::facts::Facts;
use jo_ids::{Memory, ObjectId};
use std::hash::Hash;

/// Adds a fact.
pub(crate) fn add<C: Copy + Ord + Hash>(
    following: &mut Vec<Fact<C>>,
    fact: Fact<C>,
) -> Result<(), Memory>
    ensures { OnOk result (Adds (Contains following.old.items) (Contains following.new.items) (λ f. f ≡ fact)) }
{
    following.push(fact)?;
    Ok(())
}

/// Adds that a node holds each of these objects.
pub(crate) fn add_held<C: Copy + Ord + Hash>(
    facts: &Facts<C>,
    objects: &[ObjectId],
    key: &InstKey<C>,
    kind: NodeKind,
    following: &mut Vec<Fact<C>>,
) -> Result<(), Memory>
    requires { (o : ℕ) → Contains objects.now o → o < length facts.now.objects }
    ensures { OnOk result (Adds (Contains following.old.items) (Contains following.new.items) (From objects.now (SaysHeld facts.now.objects key.now kind))) }
{
    for o in objects {
        add(following, Fact::Holds(*key, kind, facts.object(*o)))?;
    }
    Ok(())
}

// ---- over lists of sites

/// Adds a fact.
pub(crate) fn add_fact<C: Copy + Ord + Hash>(
    following: &mut Vec<Fact<C>>,
    fact: Fact<C>,
) -> Result<(), Memory>
    ensures { OnOk result (AddsSeen following.old.items following.new.items (λ list g. g ≡ fact_seen list fact)) }
{
    add(following, fact)
}

/// Adds that a node holds each of these objects.
pub(crate) fn add_objects<C: Copy + Ord + Hash>(
    facts: &Facts<C>,
    objects: &[ObjectId],
    key: &InstKey<C>,
    kind: NodeKind,
    following: &mut Vec<Fact<C>>,
) -> Result<(), Memory>
    requires { (o : ℕ) → Contains objects.now o → o < length facts.now.objects }
    ensures { OnOk result (AddsSeen following.old.items following.new.items (λ list. From objects.now (OfObject list facts.now.objects (λ o g. g ≡ Holds (instance_seen list key.now) kind o)))) }
{
    for o in objects {
        add_fact(following, Fact::Holds(*key, kind, facts.object(*o)))?;
    }
    Ok(())
}
