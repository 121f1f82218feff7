//! Facts by numbers as a list, with tables of what is held and what is called.
ghost use Rattle.std.specs.Prelude.{◌≡◌, ◌↔◌, ℕ, [], Contains, IfOk, OnErr, OnOk, IsTrue};
ghost use Rattle.dep_nodes.specs.OnceLists.{IsOnceEach};
ghost use Rattle.dep_nodes.specs.GrowingGraphs.{AppendsNew};
ghost use Rattle.dependence.specs.declared.facts.Target.{Target as ATarget};
ghost use Rattle.fact_sets.specs.declared.numbered.NumberedFact.TheVariants.{Holds as IsHeld, Calls as IsCalled};
ghost use Rattle.fact_sets.specs.Tables.{LackFact, AddFact};

use crate::groups::Groups;
use crate::numbered::{CallPlace, Holder, NumberedFact};
use dep_nodes::OnceList;
use dependence::facts::Target;
use jo_ids::{Memory, ObjectId};
use std::alloc::Global;
use std::marker::Model;

/// A list of facts, each once, in order of adding.
#[derive(Drop)]
pub struct FactTable {
    all: OnceList<NumberedFact>,
    held: Groups<Holder, ObjectId>,
    called: Groups<CallPlace, Target>,
}

impl Model for FactTable {
    ghost use Rattle.std.specs.Prelude.{List as Items};
    ghost use Rattle.fact_sets.specs.declared.numbered.NumberedFact.{NumberedFact};
    ghost use Rattle.fact_sets.specs.Tables.{AreTables};

    ghost Value = { Items NumberedFact };

    ghost view = { λ t. t.all };

    ghost invariant = { λ t. AreTables t.all t.held t.called };
}

impl FactTable {
    /// No facts. It takes no memory.
    pub(crate) fn new(alloc: Global) -> FactTable
        ensures { result ≡ [] }
    {
        FactTable {
            all: OnceList::new(alloc),
            held: Groups::new(alloc),
            called: Groups::new(alloc),
        }
    }

    pub(crate) fn has(&self, fact: &NumberedFact) -> bool
        ensures { IsTrue result ↔ Contains self.now fact.now }
    {
        self.all.has(fact)
    }

    /// The facts, in order of adding.
    pub(crate) fn as_slice(&self) -> &[NumberedFact]
        ensures facts { result.now ≡ self.now }
        ensures once { IsOnceEach result.now }
    {
        self.all.as_slice()
    }

    /// The objects that something holds.
    pub(crate) fn held(&self, holder: &Holder) -> &[ObjectId]
        ensures each { (o : ℕ) → Contains result.now o ↔ Contains self.now (IsHeld holder.now o) }
        ensures once { IsOnceEach result.now }
    {
        self.held.under(holder)
    }

    /// The targets of a call.
    pub(crate) fn called(&self, call: &CallPlace) -> &[Target]
        ensures each { (t : ATarget) → Contains result.now t ↔ Contains self.now (IsCalled call.now t.instance t.fork) }
        ensures once { IsOnceEach result.now }
    {
        self.called.under(call)
    }

    /// Adds the fact, unless it is there. Tells whether it was new.
    pub(crate) fn add(&mut self, fact: NumberedFact) -> Result<bool, Memory>
        ensures ok { OnOk result (AppendsNew self.old fact self.new) }
        ensures fresh { IfOk result (λ fresh. IsTrue fresh ↔ (Contains self.old fact → ⊥)) }
        ensures err { OnErr result (self.new ≡ self.old) }
    {
        if self.all.has(&fact) {
            return Ok(false);
        }
        self.all.push_new(fact)?;
        match note(&mut self.held, &mut self.called, &fact) {
            Ok(()) => Ok(true),
            Err(memory) => {
                self.all.drop_last();
                Err(memory)
            }
        }
    }
}

/// Notes a fact in the tables that don't have it.
fn note(
    held: &mut Groups<Holder, ObjectId>,
    called: &mut Groups<CallPlace, Target>,
    fact: &NumberedFact,
) -> Result<(), Memory>
    requires { LackFact held.old called.old fact.now }
    ensures ok { OnOk result (AddFact held.old called.old held.new called.new fact.now) }
    ensures err_held { OnErr result (held.new ≡ held.old) }
    ensures err_called { OnErr result (called.new ≡ called.old) }
{
    match fact {
        NumberedFact::Holds(holder, object) => held.add(*holder, *object),
        NumberedFact::Calls(call, instance, fork) => called.add(
            *call,
            Target {
                instance: *instance,
                fork: *fork,
            },
        ),
        _ => Ok(()),
    }
}
