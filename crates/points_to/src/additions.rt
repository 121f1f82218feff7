//! Facts are taken in, up to the limits.
ghost use Rattle.std.specs.Prelude.{◌∷◌, [], IfErr, OnOk};
ghost use Rattle.points_to.specs.Additions.{IsFew, IsOver, Takes, TakesOnly};

use crate::faults::SolveFault;
use dependence::facts::Fact;
use fact_sets::facts::Facts;
use jo_ids::LimitKind;
use std::hash::Hash;

/// How many instances may have a number.
const MOST_INSTANCES: u32 = 20_000;

/// How many objects may have a number.
const MOST_OBJECTS: u32 = 8_192;

fn check_limits<C: Copy + Ord + Hash>(facts: &Facts<C>) -> Result<(), SolveFault>
    ensures ok { OnOk result (IsFew facts.now) }
    ensures full { IfErr result (IsOver facts.now) }
{
    if facts.instances() > MOST_INSTANCES {
        return Err(SolveFault::Limit(LimitKind::M3));
    }
    if facts.objects() > MOST_OBJECTS {
        return Err(SolveFault::Limit(LimitKind::M4));
    }
    Ok(())
}

/// Takes in a fact.
fn take<C: Copy + Ord + Hash>(facts: &mut Facts<C>, fact: &Fact<C>) -> Result<(), SolveFault>
    requires { IsFew facts.old }
    ensures only { TakesOnly facts.old facts.new (fact.now ∷ []) }
    ensures ok { OnOk result (Takes facts.old facts.new (fact.now ∷ [])) }
    ensures few { OnOk result (IsFew facts.new) }
    ensures full { IfErr result (IsOver facts.new) }
{
    match facts.add(fact) {
        Ok(_) => check_limits(facts),
        Err(_) => Err(SolveFault::Memory),
    }
}

/// Takes in facts, one after the other.
pub(crate) fn take_all<C: Copy + Ord + Hash>(
    facts: &mut Facts<C>,
    following: &[Fact<C>],
) -> Result<(), SolveFault>
    requires { IsFew facts.old }
    ensures only { TakesOnly facts.old facts.new following.now }
    ensures ok { OnOk result (Takes facts.old facts.new following.now) }
    ensures few { OnOk result (IsFew facts.new) }
    ensures full { IfErr result (IsOver facts.new) }
{
    for fact in following {
        take(facts, fact)?;
    }
    Ok(())
}
