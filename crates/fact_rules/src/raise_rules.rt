//! What follows from what the instructions of an instance may raise.
ghost use Rattle.std.specs.Prelude.{◌↔◌, ◌≡◌, ◌<◌, ◌^◌, ℕ, length, Contains, OnOk};
ghost use Rattle.jo_prog.specs.TypingPaths.{HasHeightAt};
ghost use Rattle.dependence.specs.declared.facts.InstKey.{InstKey as AnInstance};
ghost use Rattle.fact_sets.specs.FactLists.{IsInstance};
ghost use Rattle.fact_sets.specs.Seen.{Known, Listed, instance_seen};
ghost use Rattle.method_views.specs.declared.raised.Raised.{Raised as AnException};
ghost use Rattle.method_views.specs.InstanceRules.{ByRaise};
ghost use Rattle.method_views.specs.RaisedCauses.{IsRaised};
ghost use Rattle.method_views.specs.Views.{IsMethodView};
ghost use Rattle.fact_rules.specs.Adds.{Adds, From};
ghost use Rattle.fact_rules.specs.Places.{instance_of};
ghost use Rattle.fact_rules.specs.RaiseRules.{ThrowsRaised};

use crate::additions::add_fact;
use crate::places::context_of;
use contexts::Contexts;
use dep_nodes::NodeKind;
use dependence::facts::{Fact, InstKey};
use fact_sets::facts::Facts;
use jo_ids::{InstanceId, Memory, ObjKey};
use jo_prog::sites::class_raised;
use method_views::raised::Raised;
use method_views::views::MethodView;

/// Adds that the exception of a cause is thrown at a pc.
fn add_raised<X: Contexts>(
    contexts: &X,
    view: &MethodView<'_>,
    context: X::C,
    raised: &Raised,
    following: &mut Vec<Fact<X::C>>,
) -> Result<(), Memory>
    requires { length view.now.program.now.sites < 2 ^ 32 }
    ensures { OnOk result (Adds (Listed X.list following.old.items) (Listed X.list following.new.items)
        (ThrowsRaised view.now.program.now (X.policy contexts.now) (instance_seen X.list (instance_of view.now.method context)) raised.now)) }
{
    let class = class_raised(raised.cause);
    let Some(site) = view.program.site_of(view.method, raised.pc, Some(class)) else {
        return Ok(());
    };
    let key = InstKey {
        method: view.method,
        context,
    };
    let object = ObjKey {
        site,
        context: contexts.heap(context, site),
    };
    add_fact(
        following,
        Fact::Holds(key, NodeKind::Throw(raised.pc), object),
    )
}

fn add_each<X: Contexts>(
    contexts: &X,
    view: &MethodView<'_>,
    context: X::C,
    raised: &[Raised],
    following: &mut Vec<Fact<X::C>>,
) -> Result<(), Memory>
    requires { length view.now.program.now.sites < 2 ^ 32 }
    ensures { OnOk result (Adds (Listed X.list following.old.items) (Listed X.list following.new.items) (From raised.now
        (ThrowsRaised view.now.program.now (X.policy contexts.now) (instance_seen X.list (instance_of view.now.method context))))) }
{
    for r in raised {
        add_raised(contexts, view, context, r, following)?;
    }
    Ok(())
}

/// Adds that the exceptions which the instructions of an instance may raise are thrown, by the pcs and causes of all that it may
/// raise.
pub fn follow_raised<X: Contexts>(
    contexts: &X,
    view: &MethodView<'_>,
    facts: &Facts<X::C>,
    instance: InstanceId,
    raised: &[Raised],
    following: &mut Vec<Fact<X::C>>,
) -> Result<(), Memory>
    requires view { IsMethodView view.now }
    requires named { instance < length facts.now.instances }
    requires method { (key : AnInstance X.C) → IsInstance facts.now.instances instance key → key.method ≡ view.now.method }
    requires raised { (key : AnInstance X.C) → IsInstance facts.now.instances instance key → (r : AnException) → Contains raised.now r
        ↔ IsRaised view.now.program.now (Known X.list facts.now) (HasHeightAt view.now.program.now view.now.method) (instance_seen X.list key) r }
    ensures { OnOk result ((key : AnInstance X.C) → IsInstance facts.now.instances instance key → Adds (Listed X.list following.old.items) (Listed X.list following.new.items)
        (ByRaise view.now.program.now (X.policy contexts.now) (Known X.list facts.now) (HasHeightAt view.now.program.now view.now.method) (instance_seen X.list key))) }
{
    let context = context_of(view, facts, instance);
    add_each(contexts, view, context, raised, following)
}
