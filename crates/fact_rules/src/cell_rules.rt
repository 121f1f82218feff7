//! What follows from the loads and the stores of an instance.
ghost use Rattle.std.specs.Prelude.{◌≡◌, ℕ, ◌<◌, ◌≤◌, true, false, length, Some, Contains, IfOk, OnOk, List as Items};
ghost use Rattle.jo_prog.specs.Sites.{opcode_of as opcode_in};
ghost use Rattle.jo_prog.specs.TypingPaths.{HasHeightAt};
ghost use Rattle.contexts.specs.Policies.{ContextPolicy};
ghost use Rattle.dependence.specs.declared.facts.InstKey.{InstKey as AnInstance};
ghost use Rattle.dependence.specs.declared.facts.FactCell.TheVariants.{Static as OfStaticField};
ghost use Rattle.dependence.specs.declared.facts.Fact.TheVariants.{CellHolds};
ghost use Rattle.dependence.specs.FlowGraph.{base_depth as depth_of};
ghost use Rattle.dependence.specs.WideGraph.{is_call, resolved_field_at};
ghost use Rattle.dependence.specs.NodePlaces.{stack_use_of};
ghost use Rattle.dep_nodes.specs.OnceLists.{IsOnceEach};
ghost use Rattle.fact_sets.specs.FactLists.{IsInstance, IsCell};
ghost use Rattle.fact_sets.specs.Seen.{TellsApart, Known, Listed, instance_seen, cell_seen};
ghost use Rattle.method_views.specs.InstanceRules.{ByCell};
ghost use Rattle.method_views.specs.Views.{IsMethodView};
ghost use Rattle.fact_rules.specs.Adds.{Adds, From};
ghost use Rattle.fact_rules.specs.Additions.{AddsSeen, OfObject};
ghost use Rattle.fact_rules.specs.Places.{IsAtNode, instance_of};
ghost use Rattle.fact_rules.specs.CellSteps;
ghost use Rattle.fact_rules.specs.CellSteps.{UseHasNumber, HoldsBelow, AreSeen, number_on, cell_on, CellGives, BasesGive, AccessGives, CellsAt};

use crate::additions::{add_fact, add_objects};
use crate::places::{context_of, names_once, within};
use dep_nodes::NodeKind;
use dependence::facts::{Fact, FactCell, InstKey};
use dependence::flows::Use;
use fact_sets::facts::Facts;
use fact_sets::numbered::{CellNumber, Holder};
use jo_ids::{FieldId, InstanceId, Memory, ObjKey, ObjectId};
use jo_insn::Insn;
use jo_prog::sites::opcode_of;
use method_views::bases::{base_depth, is_below};
use method_views::operands::{named_by, standing};
use method_views::views::MethodView;
use std::alloc::Global;
use std::hash::Hash;

/// Which cell an instruction accesses, and whether it stores into it: that of a static field, of a field of an object, or of the
/// elements of an array.
#[derive(Clone, Copy, PartialEq, Eq)]
pub enum Access {
    OfStatic(bool),
    OfField(bool),
    OfElements(bool),
}

fn access_of(op: u8) -> Option<Access>
    ensures { result ≡ CellSteps.access_of op }
{
    if within(46, 53, op) {
        Some(Access::OfElements(false))
    } else if within(79, 86, op) {
        Some(Access::OfElements(true))
    } else if op == 178 {
        Some(Access::OfStatic(false))
    } else if op == 179 {
        Some(Access::OfStatic(true))
    } else if op == 180 {
        Some(Access::OfField(false))
    } else if op == 181 {
        Some(Access::OfField(true))
    } else {
        None
    }
}

// ---- objects at places

/// Adds the numbers of the objects that the definition of a use may be.
fn add_numbers<C: Copy + Ord + Hash>(
    view: &MethodView<'_>,
    facts: &Facts<C>,
    instance: InstanceId,
    pc: u32,
    depth: u16,
    u: &Use,
    objects: &mut Vec<ObjectId>,
) -> Result<(), Memory>
    requires from { u.now.from < length view.now.wide.now }
    requires within { (x : ℕ) → Contains objects.old.items x → x < length facts.now.objects }
    ensures added { OnOk result (Adds (Contains objects.old.items) (Contains objects.new.items) (UseHasNumber view.now.typed.now view.now.wide.now facts.now.facts instance pc depth u.now)) }
    ensures inside { OnOk result ((x : ℕ) → Contains objects.new.items x → x < length facts.now.objects) }
{
    if !is_below(view.typed, pc, depth, u.place) {
        return Ok(());
    }
    let from = named_by(view.wide.node(u.from).kind, u.place);
    objects.extend_from_slice(facts.held(&Holder::Node(instance, from)))?;
    Ok(())
}

/// The numbers of the objects that may stand so far below the top at a node, counted from 1.
fn numbers_below<C: Copy + Ord + Hash>(
    alloc: Global,
    view: &MethodView<'_>,
    facts: &Facts<C>,
    instance: InstanceId,
    context: C,
    n: u32,
    pc: u32,
    insn: Insn,
    depth: u16,
) -> Result<Vec<ObjectId>, Memory>
    requires view { IsMethodView view.now }
    requires named { IsInstance facts.now.instances instance (instance_of view.now.method context) }
    requires at { IsAtNode view.now.program.now view.now.method view.now.wide.now n pc insn }
    requires plain { is_call (opcode_in insn) ≡ false }
    requires first { 1 ≤ depth }
    requires last { depth ≤ (stack_use_of (opcode_in insn)).pops }
    ensures inside { IfOk result (λ objects. (x : ℕ) → Contains objects.items x → x < length facts.now.objects) }
    ensures each { IfOk result (λ objects. (list : C → Items ℕ) → TellsApart list → AreSeen list facts.now.objects objects.items
        (HoldsBelow view.now.program.now (Known list facts.now) (HasHeightAt view.now.program.now view.now.method) (instance_seen list (instance_of view.now.method context)) pc depth)) }
{
    names_once(facts);
    let mut objects = Vec::new(alloc);
    for u in view.uses.at(n) {
        add_numbers(view, facts, instance, pc, depth, u, &mut objects)?;
    }
    Ok(objects)
}

// ---- accesses

/// Adds that a cell holds each of these objects.
fn add_contents<C: Copy + Ord + Hash>(
    facts: &Facts<C>,
    objects: &[ObjectId],
    cell: &FactCell<C>,
    following: &mut Vec<Fact<C>>,
) -> Result<(), Memory>
    requires { (o : ℕ) → Contains objects.now o → o < length facts.now.objects }
    ensures { OnOk result (AddsSeen following.old.items following.new.items (λ list. From objects.now (OfObject list facts.now.objects (λ o g. g ≡ CellHolds (cell_seen list cell.now) o)))) }
{
    for o in objects {
        add_fact(following, Fact::CellHolds(*cell, facts.object(*o)))?;
    }
    Ok(())
}

fn number_on(field: &Option<FieldId>, object: ObjectId) -> CellNumber
    ensures { result ≡ number_on field.now object }
{
    match field {
        Some(f) => CellNumber::Field(*f, object),
        None => CellNumber::Elements(object),
    }
}

fn cell_on<C: Copy + Ord + Hash>(field: &Option<FieldId>, object: ObjKey<C>) -> FactCell<C>
    ensures { result ≡ cell_on field.now object }
{
    match field {
        Some(f) => FactCell::Field(*f, object),
        None => FactCell::Elements(object),
    }
}

/// Adds what comes of the access of a cell, where a store stores these objects.
fn access_cell<C: Copy + Ord + Hash>(
    view: &MethodView<'_>,
    facts: &Facts<C>,
    instance: InstanceId,
    context: C,
    pc: u32,
    store: bool,
    stored: &[ObjectId],
    number: CellNumber,
    cell: FactCell<C>,
    following: &mut Vec<Fact<C>>,
) -> Result<(), Memory>
    requires inside { (o : ℕ) → Contains stored.now o → o < length facts.now.objects }
    requires stored { store ≡ true → (list : C → Items ℕ) → TellsApart list → AreSeen list facts.now.objects stored.now
        (HoldsBelow view.now.program.now (Known list facts.now) (HasHeightAt view.now.program.now view.now.method) (instance_seen list (instance_of view.now.method context)) pc 1) }
    requires named { IsCell facts.now.objects number cell }
    ensures { OnOk result (AddsSeen following.old.items following.new.items (λ list. CellGives view.now.program.now (Known list facts.now) (HasHeightAt view.now.program.now view.now.method)
        (instance_seen list (instance_of view.now.method context)) pc store (cell_seen list cell))) }
{
    objects_once(facts);
    if store {
        return add_contents(facts, stored, &cell, following);
    }
    let key = InstKey {
        method: view.method,
        context,
    };
    let held = facts.held(&Holder::Cell(number));
    add_objects(facts, held, &key, NodeKind::Instr(pc), following)
}

/// Each object has one number.
fn objects_once<C: Copy + Ord + Hash>(facts: &Facts<C>)
    ensures { IsOnceEach facts.now.objects }
{
    let _count = facts.objects();
}

/// Adds what comes of the access of the cells of some objects.
fn access_objects<C: Copy + Ord + Hash>(
    view: &MethodView<'_>,
    facts: &Facts<C>,
    instance: InstanceId,
    context: C,
    pc: u32,
    store: bool,
    stored: &[ObjectId],
    field: &Option<FieldId>,
    bases: &[ObjectId],
    following: &mut Vec<Fact<C>>,
) -> Result<(), Memory>
    requires inside { (o : ℕ) → Contains stored.now o → o < length facts.now.objects }
    requires stored { store ≡ true → (list : C → Items ℕ) → TellsApart list → AreSeen list facts.now.objects stored.now
        (HoldsBelow view.now.program.now (Known list facts.now) (HasHeightAt view.now.program.now view.now.method) (instance_seen list (instance_of view.now.method context)) pc 1) }
    requires bases { (o : ℕ) → Contains bases.now o → o < length facts.now.objects }
    ensures { OnOk result (AddsSeen following.old.items following.new.items (λ list. From bases.now (OfObject list facts.now.objects (λ base. CellGives view.now.program.now (Known list facts.now)
        (HasHeightAt view.now.program.now view.now.method) (instance_seen list (instance_of view.now.method context)) pc store (cell_on field.now base))))) }
{
    for base in bases {
        let number = number_on(field, *base);
        let cell = cell_on(field, facts.object(*base));
        access_cell(
            view, facts, instance, context, pc, store, stored, number, cell, following,
        )?;
    }
    Ok(())
}

/// The objects that a store takes from the top of the stack; a load takes none.
fn stored_at<C: Copy + Ord + Hash>(
    alloc: Global,
    view: &MethodView<'_>,
    facts: &Facts<C>,
    instance: InstanceId,
    context: C,
    n: u32,
    pc: u32,
    insn: Insn,
    store: bool,
) -> Result<Vec<ObjectId>, Memory>
    requires view { IsMethodView view.now }
    requires named { IsInstance facts.now.instances instance (instance_of view.now.method context) }
    requires at { IsAtNode view.now.program.now view.now.method view.now.wide.now n pc insn }
    requires plain { is_call (opcode_in insn) ≡ false }
    requires last { store ≡ true → 1 ≤ (stack_use_of (opcode_in insn)).pops }
    ensures inside { IfOk result (λ objects. (x : ℕ) → Contains objects.items x → x < length facts.now.objects) }
    ensures each { IfOk result (λ objects. store ≡ true → (list : C → Items ℕ) → TellsApart list → AreSeen list facts.now.objects objects.items
        (HoldsBelow view.now.program.now (Known list facts.now) (HasHeightAt view.now.program.now view.now.method) (instance_seen list (instance_of view.now.method context)) pc 1)) }
{
    if !store {
        return Ok(Vec::new(alloc));
    }
    numbers_below(alloc, view, facts, instance, context, n, pc, insn, 1)
}

/// Adds what comes of an access of the cells of what stands at the base of an instruction.
fn access_base<C: Copy + Ord + Hash>(
    alloc: Global,
    view: &MethodView<'_>,
    facts: &Facts<C>,
    instance: InstanceId,
    context: C,
    n: u32,
    pc: u32,
    insn: Insn,
    store: bool,
    field: &Option<FieldId>,
    following: &mut Vec<Fact<C>>,
) -> Result<(), Memory>
    requires view { IsMethodView view.now }
    requires named { IsInstance facts.now.instances instance (instance_of view.now.method context) }
    requires at { IsAtNode view.now.program.now view.now.method view.now.wide.now n pc insn }
    requires plain { is_call (opcode_in insn) ≡ false }
    requires base { depth_of (opcode_in insn) ≤ (stack_use_of (opcode_in insn)).pops }
    ensures { OnOk result (AddsSeen following.old.items following.new.items (λ list. BasesGive view.now.program.now (Known list facts.now) (HasHeightAt view.now.program.now view.now.method)
        (instance_seen list (instance_of view.now.method context)) pc store field.now)) }
{
    let depth = base_depth(opcode_of(insn));
    let bases = numbers_below(alloc, view, facts, instance, context, n, pc, insn, depth)?;
    let stored = stored_at(alloc, view, facts, instance, context, n, pc, insn, store)?;
    access_objects(
        view,
        facts,
        instance,
        context,
        pc,
        store,
        stored.as_slice(),
        field,
        bases.as_slice(),
        following,
    )
}

/// Adds what comes of an access of a static field.
fn access_static<C: Copy + Ord + Hash>(
    alloc: Global,
    view: &MethodView<'_>,
    facts: &Facts<C>,
    instance: InstanceId,
    context: C,
    n: u32,
    pc: u32,
    insn: Insn,
    store: bool,
    field: FieldId,
    following: &mut Vec<Fact<C>>,
) -> Result<(), Memory>
    requires view { IsMethodView view.now }
    requires named { IsInstance facts.now.instances instance (instance_of view.now.method context) }
    requires at { IsAtNode view.now.program.now view.now.method view.now.wide.now n pc insn }
    requires plain { is_call (opcode_in insn) ≡ false }
    requires last { store ≡ true → 1 ≤ (stack_use_of (opcode_in insn)).pops }
    ensures { OnOk result (AddsSeen following.old.items following.new.items (λ list. CellGives view.now.program.now (Known list facts.now) (HasHeightAt view.now.program.now view.now.method)
        (instance_seen list (instance_of view.now.method context)) pc store (OfStaticField field))) }
{
    let stored = stored_at(alloc, view, facts, instance, context, n, pc, insn, store)?;
    access_cell(
        view,
        facts,
        instance,
        context,
        pc,
        store,
        stored.as_slice(),
        CellNumber::Static(field),
        FactCell::Static(field),
        following,
    )
}

/// Adds what comes of the access of an instruction.
fn add_access<C: Copy + Ord + Hash>(
    alloc: Global,
    view: &MethodView<'_>,
    facts: &Facts<C>,
    instance: InstanceId,
    context: C,
    n: u32,
    pc: u32,
    insn: Insn,
    access: &Access,
    following: &mut Vec<Fact<C>>,
) -> Result<(), Memory>
    requires view { IsMethodView view.now }
    requires named { IsInstance facts.now.instances instance (instance_of view.now.method context) }
    requires node { n < length view.now.wide.now }
    requires at { IsAtNode view.now.program.now view.now.method view.now.wide.now n pc insn }
    requires is { CellSteps.access_of (opcode_in insn) ≡ Some access.now }
    ensures { OnOk result (AddsSeen following.old.items following.new.items (λ list. AccessGives view.now.program.now (Known list facts.now) (HasHeightAt view.now.program.now view.now.method)
        (instance_seen list (instance_of view.now.method context)) pc (resolved_field_at view.now.program.now view.now.method pc) access.now)) }
{
    let field = &view.wide.node(n).field;
    match access {
        Access::OfElements(store) => access_base(
            alloc, view, facts, instance, context, n, pc, insn, *store, &None, following,
        ),
        Access::OfField(store) => {
            if field.is_none() {
                return Ok(());
            }
            access_base(
                alloc, view, facts, instance, context, n, pc, insn, *store, field, following,
            )
        }
        Access::OfStatic(store) => match field {
            Some(field) => access_static(
                alloc, view, facts, instance, context, n, pc, insn, *store, *field, following,
            ),
            None => Ok(()),
        },
    }
}

// ---- all nodes

/// Adds what a node gives.
fn add_cells<C: Copy + Ord + Hash>(
    alloc: Global,
    view: &MethodView<'_>,
    facts: &Facts<C>,
    instance: InstanceId,
    context: C,
    n: u32,
    following: &mut Vec<Fact<C>>,
) -> Result<(), Memory>
    requires view { IsMethodView view.now }
    requires named { IsInstance facts.now.instances instance (instance_of view.now.method context) }
    requires node { n < length view.now.wide.now }
    ensures { OnOk result (AddsSeen following.old.items following.new.items (λ list. CellsAt view.now.program.now (Known list facts.now) (HasHeightAt view.now.program.now view.now.method)
        (instance_seen list (instance_of view.now.method context)) view.now.wide.now n)) }
{
    let Some((pc, insn)) = standing(view.wide.node(n)) else {
        return Ok(());
    };
    let Some(access) = access_of(opcode_of(insn)) else {
        return Ok(());
    };
    add_access(
        alloc, view, facts, instance, context, n, pc, insn, &access, following,
    )
}

/// Adds what follows by one step from the loads and the stores of an instance.
pub fn follow_cells<C: Copy + Ord + Hash>(
    alloc: Global,
    view: &MethodView<'_>,
    facts: &Facts<C>,
    instance: InstanceId,
    following: &mut Vec<Fact<C>>,
) -> Result<(), Memory>
    requires view { IsMethodView view.now }
    requires named { instance < length facts.now.instances }
    requires method { (key : AnInstance C) → IsInstance facts.now.instances instance key → key.method ≡ view.now.method }
    ensures { OnOk result ((policy : ContextPolicy) (list : C → Items ℕ) (key : AnInstance C) → TellsApart list → IsInstance facts.now.instances instance key
        → Adds (Listed list following.old.items) (Listed list following.new.items)
        (ByCell view.now.program.now policy (Known list facts.now) (HasHeightAt view.now.program.now view.now.method) (instance_seen list key))) }
{
    let context = context_of(view, facts, instance);
    for n in 0..view.wide.len() {
        add_cells(alloc, view, facts, instance, context, n, following)?;
    }
    Ok(())
}
