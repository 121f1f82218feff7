//! Facts by hand: a method makes an object and calls another method on it.
use crate::facts::Facts;
use crate::numbered::{Holder, NumberedFact};
use contexts::{Contexts, Object2, UpToTwo};
use dep_nodes::NodeKind;
use dependence::facts::{Fact, FactCell, FactNode, InstKey};
use jo_ids::{FieldId, InstanceId, Memory, MethodId, ObjKey, ObjectId, SiteId};
use std::alloc::Global;
use std::test::Fail;

/// No facts in the contexts of a policy.
fn no_facts<X: Contexts>(alloc: Global, _contexts: &X) -> Facts<X::C> {
    Facts::new(alloc)
}

/// Adds a fact where there is room.
fn note(facts: &mut Facts<UpToTwo>, fact: &Fact<UpToTwo>) -> Result<bool, Memory> {
    if facts.instances() > 1000 {
        return Err(Memory);
    }
    if facts.objects() > 1000 {
        return Err(Memory);
    }
    facts.add(fact)
}

/// The object that is made at site 2.
fn made(contexts: &Object2) -> ObjKey<UpToTwo> {
    ObjKey {
        site: SiteId::of(2),
        context: contexts.heap(contexts.root(), SiteId::of(2)),
    }
}

fn caller(contexts: &Object2) -> InstKey<UpToTwo> {
    InstKey {
        method: MethodId::of(7),
        context: contexts.root(),
    }
}

fn target(contexts: &Object2) -> InstKey<UpToTwo> {
    InstKey {
        method: MethodId::of(8),
        context: contexts.enter(contexts.root(), SiteId::of(3), Some(made(contexts))),
    }
}

/// The caller runs and holds the object at pc 0; its call at pc 4 has the target, which stalls; the object's field holds itself.
fn worked(alloc: Global) -> Result<Facts<UpToTwo>, Memory> {
    let contexts = Object2;
    let mut facts = no_facts(alloc, &contexts);
    note(&mut facts, &Fact::Reached(caller(&contexts)))?;
    let held = Fact::Holds(caller(&contexts), NodeKind::Instr(0), made(&contexts));
    note(&mut facts, &held)?;
    note(
        &mut facts,
        &Fact::Target(caller(&contexts), 4, target(&contexts)),
    )?;
    note(
        &mut facts,
        &Fact::Fork(caller(&contexts), 9, target(&contexts)),
    )?;
    note(&mut facts, &Fact::Stalls(target(&contexts)))?;
    let cell = FactCell::Field(FieldId::of(5), made(&contexts));
    note(&mut facts, &Fact::CellHolds(cell, made(&contexts)))?;
    Ok(facts)
}

#[test]
fn each_fact_stands_once(rt: HostRuntime) -> Result<(), Fail> {
    let contexts = Object2;
    let mut facts = worked(rt.alloc())?;
    assert_eq!(rt; facts.len(), 6);
    assert!(rt; !note(&mut facts, &Fact::Stalls(target(&contexts)))?);
    assert!(rt;
        !note(
            &mut facts,
            &Fact::Target(caller(&contexts), 4, target(&contexts))
        )?
    );
    assert_eq!(rt; facts.len(), 6);
    assert!(rt; note(&mut facts, &Fact::Throws(target(&contexts)))?);
    assert_eq!(rt; facts.len(), 7);
    assert_eq!(rt; facts.instances(), 2);
    assert_eq!(rt; facts.objects(), 1);
    Ok(())
}

#[test]
fn facts_are_found_by_numbers(rt: HostRuntime) -> Result<(), Fail> {
    let facts = worked(rt.alloc())?;
    let from = InstanceId::of(0);
    let to = InstanceId::of(1);
    let object = ObjectId::of(0);
    assert!(rt; facts.reached(from));
    assert!(rt; !facts.reached(to));
    assert!(rt; facts.stalls(to));
    assert!(rt; !facts.throws(to));
    let node = FactNode {
        instance: from,
        kind: NodeKind::Instr(0),
    };
    assert!(rt; facts.holds(&node, object));
    let held = facts.held(&Holder::Node(from, NodeKind::Instr(0)));
    assert!(rt; held == [object].as_slice());
    assert!(rt; facts.held(&Holder::Node(to, NodeKind::Instr(0))).is_empty());
    Ok(())
}

#[test]
fn targets_tell_forks(rt: HostRuntime) -> Result<(), Fail> {
    let facts = worked(rt.alloc())?;
    let from = InstanceId::of(0);
    let called = facts.targets(from, 4);
    assert_eq!(rt; called.len(), 1);
    let forked = facts.targets(from, 9);
    assert_eq!(rt; forked.len(), 1);
    let mut kinds = [false, false];
    for target in called {
        kinds[0] = !target.fork && target.instance == InstanceId::of(1);
    }
    for target in forked {
        kinds[1] = target.fork && target.instance == InstanceId::of(1);
    }
    assert!(rt; kinds[0]);
    assert!(rt; kinds[1]);
    assert!(rt; facts.targets(from, 5).is_empty());
    Ok(())
}

#[test]
fn facts_are_listed_in_order(rt: HostRuntime) -> Result<(), Fail> {
    let contexts = Object2;
    let facts = worked(rt.alloc())?;
    let from = InstanceId::of(0);
    assert!(rt; facts.as_slice().first() == Some(&NumberedFact::Reached(from)));
    if facts.len() == 6 {
        assert!(rt; facts.fact(4) == Fact::Stalls(target(&contexts)));
        let cell = FactCell::Field(FieldId::of(5), made(&contexts));
        assert!(rt; facts.fact(5) == Fact::CellHolds(cell, made(&contexts)));
    }
    if facts.instances() == 2 {
        assert!(rt; facts.instance(InstanceId::of(1)) == target(&contexts));
    }
    assert!(rt; facts.number_of(&target(&contexts)) == Some(InstanceId::of(1)));
    Ok(())
}
