//! What calls run.
ghost use Rattle.std.specs.Prelude.{◌≡◌, ◌↔◌, ℕ, Some, option_map, IfOk, List as Items};
ghost use Rattle.std.specs.Option.{option_copied};
ghost use Rattle.jo_ids.specs.declared.ObjKey.{ObjKey as AnObject};
ghost use Rattle.jo_prog.specs.Calls;
ghost use Rattle.jo_prog.specs.Program.{method_at as method_found};
ghost use Rattle.contexts.specs.Policies.{receiver_of};
ghost use Rattle.dependence.specs.FlowGraph.{type_of_object};
ghost use Rattle.fact_sets.specs.Seen.{instance_seen};
ghost use Rattle.method_views.specs.Views.{IsMethodView};
ghost use Rattle.fact_rules.specs.Callees;
ghost use Rattle.fact_rules.specs.Callees.{RunsFor, entered};
ghost use Rattle.fact_rules.specs.Places.{instance_of};
ghost use Rattle.fact_rules.specs.declared.callees.Callee.{Callee as ACallee};

use contexts::Contexts;
use dependence::facts::InstKey;
use jo_ids::{ClassId, Memory, MethodId, ObjKey, SiteId};
use jo_prog::calls::{Taken, taken_from};
use jo_prog::program::{MemberRef, TypeRef, method_at};
use jo_text::is_method_desc;
use method_views::operands::receiver_class;
use method_views::views::MethodView;
use object_types::types::{fits, type_of};
use std::alloc::Global;

/// A call as it stands: its pc, its opcode, the member that it names, and the method to which this resolves.
#[derive(Clone, Copy)]
pub struct Called<'a> {
    pub pc: u32,
    pub op: u8,
    pub member: &'a MemberRef,
    pub resolved: Option<MethodId>,
}

/// A method with code that a call runs, in the same thread or in a new one.
#[derive(Clone, Copy)]
pub struct Callee {
    pub method: MethodId,
    pub fork: bool,
}

// ---- by what is taken

/// The method with code that is taken.
fn code_so(fork: bool, taken: Taken) -> Option<Callee>
    ensures { result ≡ Callees.callee_so fork (Callees.code_in taken) }
{
    match taken {
        Taken::Code(method) => Some(Callee { method, fork }),
        Taken::Start | Taken::Join | Taken::Native(_) | Taken::Nothing => None,
    }
}

/// With what the thread of an object of a class begins.
fn run_of(view: &MethodView<'_>, class: ClassId) -> Taken
    requires view { IsMethodView view.now }
    ensures { result ≡ Calls.run_of view.now.program.now class }
{
    let found = view
        .hierarchy
        .search_from(view.program, class, b"run".as_slice(), b"()V".as_slice());
    taken_from(view.program, found)
}

/// What is run where this is taken for a receiver of that class.
fn callee_by(view: &MethodView<'_>, taken: Taken, receiver: ClassId) -> Option<Callee>
    requires view { IsMethodView view.now }
    ensures { result ≡ Callees.callee_by taken (Calls.run_of view.now.program.now receiver) }
{
    match taken {
        Taken::Code(method) => Some(Callee {
            method,
            fork: false,
        }),
        Taken::Start => code_so(true, run_of(view, receiver)),
        Taken::Join | Taken::Native(_) | Taken::Nothing => None,
    }
}

// ---- by what a call names

/// What a call with that opcode runs for a receiver of this type.
fn callee_for(
    view: &MethodView<'_>,
    op: u8,
    resolved: Option<MethodId>,
    own: &TypeRef,
) -> Option<Callee>
    requires view { IsMethodView view.now }
    ensures { result ≡ Callees.callee_in view.now.program.now op (method_found view.now.program.now view.now.method) resolved own.now }
{
    let current = method_at(view.program, view.method)?;
    let number = resolved?;
    let receiver = receiver_class(own);
    let taken = view
        .hierarchy
        .takes(view.program, op, current.class, number, receiver);
    callee_by(view, taken, receiver)
}

/// What a call with that opcode runs for an object of this type.
fn callee_on(
    view: &MethodView<'_>,
    op: u8,
    member: &MemberRef,
    resolved: Option<MethodId>,
    own: Option<&TypeRef>,
) -> Option<Callee>
    requires view { IsMethodView view.now }
    ensures { (o : AnObject (Items ℕ)) → type_of_object view.now.program.now o ≡ option_copied own.entry
        → ((c : ACallee) → (result ≡ Some c) ↔ RunsFor view.now.program.now view.now.method op member.now resolved o c) }
{
    if !fits(view.program, view.hierarchy, own, &member.owner) {
        return None;
    }
    match own {
        Some(own) => callee_for(view, op, resolved, own),
        None => None,
    }
}

/// What a call runs for an object that is made at a site.
pub(crate) fn callee_at(
    alloc: Global,
    view: &MethodView<'_>,
    call: &Called<'_>,
    site: SiteId,
) -> Result<Option<Callee>, Memory>
    requires view { IsMethodView view.now }
    ensures { IfOk result (λ callee. (o : AnObject (Items ℕ)) → o.site ≡ site
        → ((c : ACallee) → (callee ≡ Some c) ↔ RunsFor view.now.program.now view.now.method call.now.op call.now.member.now call.now.resolved o c)) }
{
    let own = type_of(alloc, view.program, site)?;
    let callee = callee_on(view, call.op, call.member, call.resolved, own.as_ref());
    Ok(callee)
}

/// What a call runs if it is an invokestatic.
pub(crate) fn static_callee(view: &MethodView<'_>, call: &Called<'_>) -> Option<Callee>
    ensures { result ≡ Callees.static_callee view.now.program.now call.now.op call.now.member.now.desc call.now.resolved }
{
    if call.op != 184 {
        return None;
    }
    if !is_method_desc(call.member.desc.as_slice()) {
        return None;
    }
    code_so(false, taken_from(view.program, call.resolved))
}

/// The instance of a method that the call at a pc enters.
pub(crate) fn entered_by<X: Contexts>(
    contexts: &X,
    view: &MethodView<'_>,
    context: X::C,
    pc: u32,
    method: MethodId,
    receiver: Option<ObjKey<X::C>>,
) -> Option<InstKey<X::C>>
    requires view { IsMethodView view.now }
    ensures { option_map (instance_seen X.list) result
        ≡ entered view.now.program.now (X.policy contexts.now) (instance_seen X.list (instance_of view.now.method context)) pc method (option_map (receiver_of X.list) receiver) }
{
    match view.program.site_of(view.method, pc, None) {
        Some(site) => Some(InstKey {
            method,
            context: contexts.enter(context, site, receiver),
        }),
        None => None,
    }
}
