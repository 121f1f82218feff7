//! What follows from facts that are kept, as lists.
ghost use Rattle.std.specs.Prelude.{IfOk};
ghost use Rattle.jo_prog.specs.Program.{HasNumbers};
ghost use Rattle.fact_sets.specs.Seen.{Known};
ghost use Rattle.fact_rules.specs.CallRules.{ByCall};
ghost use Rattle.fact_rules.specs.CycleRules.{ByRecursion};
ghost use Rattle.fact_rules.specs.FirstRules.{ByFirst};
ghost use Rattle.points_to.specs.Advances.{Lists};

use contexts::Contexts;
use dependence::facts::Fact;
use fact_rules::call_rules::follow_calls;
use fact_rules::cycle_rules::follow_cycles;
use fact_rules::first_rules::first_facts;
use fact_sets::facts::Facts;
use jo_ids::{Memory, MethodId};
use jo_prog::program::Program;
use std::alloc::Global;

/// With what a program begins.
pub fn from_program<X: Contexts>(
    alloc: Global,
    program: &Program,
    entry: MethodId,
    contexts: &X,
) -> Result<Vec<Fact<X::C>>, Memory>
    requires numbers { HasNumbers program.now }
    ensures { IfOk result (λ following. Lists X.list following.items (ByFirst program.now entry)) }
{
    let mut following = Vec::new(alloc);
    first_facts(alloc, program, entry, contexts, &mut following)?;
    Ok(following)
}

/// What follows from calls and their targets.
pub fn from_calls<X: Contexts>(
    alloc: Global,
    facts: &Facts<X::C>,
) -> Result<Vec<Fact<X::C>>, Memory>
    ensures { IfOk result (λ following. Lists X.list following.items (ByCall (Known X.list facts.now))) }
{
    let mut following = Vec::new(alloc);
    follow_calls(facts, &mut following)?;
    Ok(following)
}

/// What follows from cycles of calls.
pub fn from_cycles<X: Contexts>(
    alloc: Global,
    facts: &Facts<X::C>,
) -> Result<Vec<Fact<X::C>>, Memory>
    ensures { IfOk result (λ following. Lists X.list following.items (ByRecursion (Known X.list facts.now))) }
{
    let mut following = Vec::new(alloc);
    follow_cycles(alloc, facts, &mut following)?;
    Ok(following)
}
