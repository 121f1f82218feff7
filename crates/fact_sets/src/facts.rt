//! The facts that are known of a program.
ghost use Rattle.std.specs.Prelude.{◌≡◌, ◌↔◌, ◌⊎◌, ℕ, ◌<◌, ◌^◌, ◌∷◌, [], List as Items, length, slice_get, Contains, Some, IfNone, IfOk, IfSome, IsTrue, OnErr, OnOk};
ghost use Rattle.std.specs.Bool.{Decides};
ghost use Rattle.jo_ids.specs.declared.ObjKey.{ObjKey as AnObject};
ghost use Rattle.dep_nodes.specs.OnceLists.{IsOnceEach};
ghost use Rattle.dep_nodes.specs.GrowingGraphs.{AppendsNew};
ghost use Rattle.dependence.specs.declared.facts.InstKey.{InstKey as AnInstance};
ghost use Rattle.dependence.specs.declared.facts.Fact.{Fact as AFact};
ghost use Rattle.dependence.specs.declared.facts.Fact.TheVariants.{Holds, CellHolds};
ghost use Rattle.dependence.specs.declared.facts.Target.{Target as ATarget};
ghost use Rattle.fact_sets.specs.declared.numbered.Holder.TheVariants.{Node};
ghost use Rattle.fact_sets.specs.declared.numbered.NumberedFact.TheVariants.{Reached as IsReached, Holds as IsHeld, Calls as IsCalled, Throws as MayThrow, Stalls as MayStall};
ghost use Rattle.fact_sets.specs.FactLists.{IsInstance, IsObject, IsCell, IsCallFact, Says, HasFact, IsFactAt, AreFacts, AddsFact, AppendsEach, FactWithin, CellWithin, Grows, lists_of, instances_in, objects_in, objects_at, with_last, pair_of, object_pair};

use crate::fact_table::FactTable;
use crate::numbered::{CallPlace, CellNumber, Holder, NumberedFact};
use crate::numbering::Numbering;
use dep_nodes::NodeKind;
use dependence::facts::{Fact, FactCell, FactNode, InstKey, Target};
use jo_ids::{InstanceId, Memory, MethodId, ObjKey, ObjectId, SiteId};
use std::alloc::Global;
use std::hash::Hash;
use std::marker::Model;

/// Facts, each once, in order of adding. Instances and objects have numbers, in the order in which facts name them first.
#[derive(Drop)]
pub struct Facts<C: Copy + Ord + Hash> {
    table: FactTable,
    instances: Numbering<C>,
    objects: Numbering<C>,
}

impl<C: Copy + Ord + Hash> Model for Facts<C> {
    ghost use Rattle.fact_sets.specs.FactLists.{FactLists, AreFacts};

    ghost Value = { FactLists C };

    ghost view = { λ f. record { facts = f.table; instances = f.instances; objects = f.objects } };

    ghost invariant = { λ f. AreFacts f.table f.instances f.objects };
}

impl<C: Copy + Ord + Hash> Facts<C> {
    /// No facts. It takes no memory.
    pub fn new(alloc: Global) -> Facts<C>
        requires { (a b : C) → Decides (C.eq a b) (a ≡ b) }
        ensures { result ≡ record { facts = []; instances = []; objects = [] } }
    {
        Facts {
            table: FactTable::new(alloc),
            instances: Numbering::new(alloc),
            objects: Numbering::new(alloc),
        }
    }

    /// How many instances have a number.
    pub fn instances(&self) -> u32
        ensures count { result ≡ length self.now.instances }
        ensures once { IsOnceEach self.now.instances }
    {
        self.instances.len() as u32
    }

    /// How many objects have a number.
    pub fn objects(&self) -> u32
        ensures count { result ≡ length self.now.objects }
        ensures once { IsOnceEach self.now.objects }
    {
        self.objects.len() as u32
    }

    /// The instance with that number.
    pub fn instance(&self, id: InstanceId) -> InstKey<C>
        requires { id < length self.now.instances }
        ensures { IsInstance self.now.instances id result }
    {
        instance_at(&self.instances, id)
    }

    /// The object with that number.
    pub fn object(&self, id: ObjectId) -> ObjKey<C>
        requires { id < length self.now.objects }
        ensures { IsObject self.now.objects id result }
    {
        object_at(&self.objects, id)
    }

    /// The number of an instance. `None` where no fact names it.
    pub fn number_of(&self, key: &InstKey<C>) -> Option<InstanceId>
        ensures found { IfSome result (λ id. IsInstance self.now.instances id key.now) }
        ensures absent { IfNone result ((id : ℕ) → IsInstance self.now.instances id key.now → ⊥) }
    {
        match self.instances.find(key.method.number(), key.context) {
            Some(place) => Some(InstanceId::of(place as u32)),
            None => None,
        }
    }

    /// Whether the instance runs.
    pub fn reached(&self, instance: InstanceId) -> bool
        ensures { IsTrue result ↔ Contains self.now.facts (IsReached instance) }
    {
        self.table.has(&NumberedFact::Reached(instance))
    }

    /// Whether the instance may end with an exception.
    pub fn throws(&self, instance: InstanceId) -> bool
        ensures { IsTrue result ↔ Contains self.now.facts (MayThrow instance) }
    {
        self.table.has(&NumberedFact::Throws(instance))
    }

    /// Whether the instance may never end.
    pub fn stalls(&self, instance: InstanceId) -> bool
        ensures { IsTrue result ↔ Contains self.now.facts (MayStall instance) }
    {
        self.table.has(&NumberedFact::Stalls(instance))
    }

    /// Whether the node may hold the object.
    pub fn holds(&self, node: &FactNode, object: ObjectId) -> bool
        ensures { IsTrue result ↔ Contains self.now.facts (IsHeld (Node node.now.instance node.now.kind) object) }
    {
        self.table
            .has(&NumberedFact::Holds(holder_of(node), object))
    }

    /// The objects that a node or a cell may hold, each once.
    pub fn held(&self, holder: &Holder) -> &[ObjectId]
        ensures each { (o : ℕ) → Contains result.now o ↔ Contains self.now.facts (IsHeld holder.now o) }
        ensures there { (o : ℕ) → Contains result.now o → o < length self.now.objects }
        ensures once { IsOnceEach result.now }
    {
        self.table.held(holder)
    }

    /// The targets of the call at a pc, each once.
    pub fn targets(&self, instance: InstanceId, pc: u32) -> &[Target]
        ensures each { (t : ATarget) → Contains result.now t ↔ Contains self.now.facts (IsCalled (record { instance = instance; pc = pc }) t.instance t.fork) }
        ensures there { (t : ATarget) → Contains result.now t → t.instance < length self.now.instances }
        ensures once { IsOnceEach result.now }
    {
        self.table.called(&CallPlace { instance, pc })
    }

    /// How many facts there are.
    pub fn len(&self) -> u64
        ensures { result ≡ length self.now.facts }
    {
        self.table.as_slice().len() as u64
    }

    /// The fact at a place, in order of adding.
    pub fn fact(&self, place: u64) -> Fact<C>
        requires { place < length self.now.facts }
        ensures { IsFactAt self.now place result }
    {
        fact_of(
            &self.instances,
            &self.objects,
            &self.table.as_slice()[place as usize],
        )
    }

    /// The facts by numbers, each once, in order of adding.
    pub fn as_slice(&self) -> &[NumberedFact]
        ensures facts { result.now ≡ self.now.facts }
        ensures once { IsOnceEach result.now }
    {
        self.table.as_slice()
    }

    /// Adds the fact, unless it is there. Tells whether it was new.
    pub fn add(&mut self, fact: &Fact<C>) -> Result<bool, Memory>
        requires instances { length self.old.instances < 2 ^ 31 }
        requires objects { length self.old.objects < 2 ^ 31 }
        ensures ok { OnOk result (AddsFact self.old self.new fact.now) }
        ensures fresh { IfOk result (λ fresh. IsTrue fresh ↔ (HasFact self.old fact.now → ⊥)) }
        ensures exact { OnOk result ((f : AFact C) → HasFact self.new f ↔ (HasFact self.old f ⊎ (f ≡ fact.now))) }
        ensures err { OnErr result (self.new ≡ self.old) }
    {
        let instances = self.instances.len();
        let objects = self.objects.len();
        match add_named(
            &mut self.table,
            &mut self.instances,
            &mut self.objects,
            fact,
        ) {
            Ok(fresh) => Ok(fresh),
            Err(memory) => {
                self.instances.cut(instances);
                self.objects.cut(objects);
                Err(memory)
            }
        }
    }
}

fn holder_of(node: &FactNode) -> Holder
    ensures { result ≡ Node node.now.instance node.now.kind }
{
    Holder::Node(node.instance, node.kind)
}

// ---- what numbers name

fn instance_at<C: Copy + Ord + Hash>(instances: &Numbering<C>, id: InstanceId) -> InstKey<C>
    requires { id < length instances.now }
    ensures { IsInstance instances.now id result }
{
    let (method, context) = instances.at(id.number() as usize);
    InstKey {
        method: MethodId::of(method),
        context,
    }
}

fn object_at<C: Copy + Ord + Hash>(objects: &Numbering<C>, id: ObjectId) -> ObjKey<C>
    requires { id < length objects.now }
    ensures { IsObject objects.now id result }
{
    let (site, context) = objects.at(id.number() as usize);
    ObjKey {
        site: SiteId::of(site),
        context,
    }
}

/// The fact that a numbered fact says.
fn fact_of<C: Copy + Ord + Hash>(
    instances: &Numbering<C>,
    objects: &Numbering<C>,
    numbered: &NumberedFact,
) -> Fact<C>
    requires { FactWithin (length instances.now) (length objects.now) numbered.now }
    ensures { Says instances.now objects.now numbered.now result }
{
    match numbered {
        NumberedFact::Reached(i) => Fact::Reached(instance_at(instances, *i)),
        NumberedFact::Holds(holder, o) => held_fact(instances, objects, holder, *o),
        NumberedFact::Calls(call, j, fork) => called_fact(instances, objects, call, *j, *fork),
        NumberedFact::Throws(i) => Fact::Throws(instance_at(instances, *i)),
        NumberedFact::Stalls(i) => Fact::Stalls(instance_at(instances, *i)),
    }
}

fn held_fact<C: Copy + Ord + Hash>(
    instances: &Numbering<C>,
    objects: &Numbering<C>,
    holder: &Holder,
    o: ObjectId,
) -> Fact<C>
    requires { FactWithin (length instances.now) (length objects.now) (IsHeld holder.now o) }
    ensures { Says instances.now objects.now (IsHeld holder.now o) result }
{
    match holder {
        Holder::Node(i, kind) => Fact::Holds(
            instance_at(instances, *i),
            *kind,
            object_at(objects, o),
        ),
        Holder::Cell(cell) => Fact::CellHolds(cell_at(objects, cell), object_at(objects, o)),
    }
}

fn cell_at<C: Copy + Ord + Hash>(objects: &Numbering<C>, cell: &CellNumber) -> FactCell<C>
    requires { CellWithin (length objects.now) cell.now }
    ensures { IsCell objects.now cell.now result }
{
    match cell {
        CellNumber::Field(field, o) => FactCell::Field(*field, object_at(objects, *o)),
        CellNumber::Elements(o) => FactCell::Elements(object_at(objects, *o)),
        CellNumber::Static(field) => FactCell::Static(*field),
    }
}

fn called_fact<C: Copy + Ord + Hash>(
    instances: &Numbering<C>,
    objects: &Numbering<C>,
    call: &CallPlace,
    j: InstanceId,
    fork: bool,
) -> Fact<C>
    requires { FactWithin (length instances.now) (length objects.now) (IsCalled call.now j fork) }
    ensures { Says instances.now objects.now (IsCalled call.now j fork) result }
{
    let from = instance_at(instances, call.instance);
    let to = instance_at(instances, j);
    if fork {
        Fact::Fork(from, call.pc, to)
    } else {
        Fact::Target(from, call.pc, to)
    }
}

// ---- naming

fn name_instance<C: Copy + Ord + Hash>(
    instances: &mut Numbering<C>,
    key: &InstKey<C>,
) -> Result<InstanceId, Memory>
    requires { length instances.old < 2 ^ 32 }
    ensures is { IfOk result (λ id. IsInstance instances.new id key.now) }
    ensures ok { OnOk result (AppendsNew instances.old (pair_of key.now) instances.new) }
    ensures grows { Grows instances.old instances.new }
{
    match instances.name(key.method.number(), key.context) {
        Ok(place) => Ok(InstanceId::of(place as u32)),
        Err(memory) => Err(memory),
    }
}

fn name_object<C: Copy + Ord + Hash>(
    objects: &mut Numbering<C>,
    key: &ObjKey<C>,
) -> Result<ObjectId, Memory>
    requires { length objects.old < 2 ^ 32 }
    ensures is { IfOk result (λ id. IsObject objects.new id key.now) }
    ensures ok { OnOk result (AppendsNew objects.old (object_pair key.now) objects.new) }
    ensures grows { Grows objects.old objects.new }
{
    match objects.name(key.site.number(), key.context) {
        Ok(place) => Ok(ObjectId::of(place as u32)),
        Err(memory) => Err(memory),
    }
}

fn name_cell<C: Copy + Ord + Hash>(
    objects: &mut Numbering<C>,
    cell: &FactCell<C>,
) -> Result<CellNumber, Memory>
    requires { length objects.old < 2 ^ 32 }
    ensures is { IfOk result (λ number. IsCell objects.new number cell.now) }
    ensures ok { OnOk result (AppendsEach objects.old (objects_at cell.now) objects.new) }
    ensures grows { Grows objects.old objects.new }
{
    match cell {
        FactCell::Field(field, key) => {
            let object = name_object(objects, key)?;
            Ok(CellNumber::Field(*field, object))
        }
        FactCell::Elements(key) => {
            let object = name_object(objects, key)?;
            Ok(CellNumber::Elements(object))
        }
        FactCell::Static(field) => Ok(CellNumber::Static(*field)),
    }
}

/// Numbers the fact that a node of an instance holds an object.
fn name_held<C: Copy + Ord + Hash>(
    instances: &mut Numbering<C>,
    objects: &mut Numbering<C>,
    key: &InstKey<C>,
    kind: NodeKind,
    object: &ObjKey<C>,
) -> Result<NumberedFact, Memory>
    requires few_instances { length instances.old < 2 ^ 31 }
    requires few_objects { length objects.old < 2 ^ 31 }
    ensures says { IfOk result (λ numbered. Says instances.new objects.new numbered (Holds key.now kind object.now)) }
    ensures instances { OnOk result (AppendsNew instances.old (pair_of key.now) instances.new) }
    ensures objects { OnOk result (AppendsNew objects.old (object_pair object.now) objects.new) }
    ensures grows { Grows instances.old instances.new }
    ensures grows_too { Grows objects.old objects.new }
{
    let instance = name_instance(instances, key)?;
    let held = name_object(objects, object)?;
    Ok(NumberedFact::Holds(Holder::Node(instance, kind), held))
}

/// Numbers the fact that a cell holds an object.
fn name_content<C: Copy + Ord + Hash>(
    objects: &mut Numbering<C>,
    cell: &FactCell<C>,
    object: &ObjKey<C>,
) -> Result<NumberedFact, Memory>
    requires few { length objects.old < 2 ^ 31 }
    ensures says { IfOk result (λ numbered. (instances : Items (ℕ × C)) → Says instances objects.new numbered (CellHolds cell.now object.now)) }
    ensures objects { OnOk result (AppendsEach objects.old (with_last (objects_at cell.now) object.now) objects.new) }
    ensures grows { Grows objects.old objects.new }
{
    let number = name_cell(objects, cell)?;
    let held = name_object(objects, object)?;
    Ok(NumberedFact::Holds(Holder::Cell(number), held))
}

/// Numbers a call and its target.
fn name_call<C: Copy + Ord + Hash>(
    instances: &mut Numbering<C>,
    key: &InstKey<C>,
    pc: u32,
    to: &InstKey<C>,
    fork: bool,
) -> Result<NumberedFact, Memory>
    requires few { length instances.old < 2 ^ 31 }
    ensures says { IfOk result (λ numbered. IsCallFact instances.new numbered key.now pc to.now fork) }
    ensures instances { OnOk result (AppendsEach instances.old (pair_of key.now ∷ pair_of to.now ∷ []) instances.new) }
    ensures grows { Grows instances.old instances.new }
{
    let instance = name_instance(instances, key)?;
    let target = name_instance(instances, to)?;
    Ok(NumberedFact::Calls(CallPlace { instance, pc }, target, fork))
}

/// Numbers a fact.
fn name_fact<C: Copy + Ord + Hash>(
    instances: &mut Numbering<C>,
    objects: &mut Numbering<C>,
    fact: &Fact<C>,
) -> Result<NumberedFact, Memory>
    requires few_instances { length instances.old < 2 ^ 31 }
    requires few_objects { length objects.old < 2 ^ 31 }
    ensures says { IfOk result (λ numbered. Says instances.new objects.new numbered fact.now) }
    ensures instances { OnOk result (AppendsEach instances.old (instances_in fact.now) instances.new) }
    ensures objects { OnOk result (AppendsEach objects.old (objects_in fact.now) objects.new) }
    ensures grows { Grows instances.old instances.new }
    ensures grows_too { Grows objects.old objects.new }
{
    match fact {
        Fact::Reached(key) => Ok(NumberedFact::Reached(name_instance(instances, key)?)),
        Fact::Holds(key, kind, object) => name_held(instances, objects, key, *kind, object),
        Fact::CellHolds(cell, object) => name_content(objects, cell, object),
        Fact::Target(key, pc, to) => name_call(instances, key, *pc, to, false),
        Fact::Fork(key, pc, to) => name_call(instances, key, *pc, to, true),
        Fact::Throws(key) => Ok(NumberedFact::Throws(name_instance(instances, key)?)),
        Fact::Stalls(key) => Ok(NumberedFact::Stalls(name_instance(instances, key)?)),
    }
}

/// Numbers a fact, and adds it unless it is there.
fn add_named<C: Copy + Ord + Hash>(
    table: &mut FactTable,
    instances: &mut Numbering<C>,
    objects: &mut Numbering<C>,
    fact: &Fact<C>,
) -> Result<bool, Memory>
    requires few_instances { length instances.old < 2 ^ 31 }
    requires few_objects { length objects.old < 2 ^ 31 }
    requires instances { IsOnceEach instances.old }
    requires objects { IsOnceEach objects.old }
    requires facts { AreFacts table.old instances.old objects.old }
    ensures ok { OnOk result (AddsFact (lists_of table.old instances.old objects.old) (lists_of table.new instances.new objects.new) fact.now) }
    ensures fresh { IfOk result (λ fresh. IsTrue fresh ↔ (HasFact (lists_of table.old instances.old objects.old) fact.now → ⊥)) }
    ensures kept { OnOk result (AreFacts table.new instances.new objects.new) }
    ensures err { OnErr result (table.new ≡ table.old) }
    ensures grows { Grows instances.old instances.new }
    ensures grows_too { Grows objects.old objects.new }
{
    let numbered = name_fact(instances, objects, fact)?;
    table.add(numbered)
}
