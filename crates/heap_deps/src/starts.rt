//! Which calls start the threads of objects.
ghost use Rattle.std.specs.Prelude.{◌≡◌, ◌↔◌, ◌<◌, ◌^◌, ◌==◌, true, false, ℕ, length, Some, None, IfOk, IfSome, IfNone, IsTrue};
ghost use Rattle.std.specs.Option.{option_copied};
ghost use Rattle.jo_text.specs.Descriptors.{IsMethodDesc};
ghost use Rattle.jo_prog.specs.Calls;
ghost use Rattle.jo_prog.specs.Sites.{opcode_of as opcode_in};
ghost use Rattle.jo_prog.specs.declared.calls.Taken.TheVariants.{Start, Code};
ghost use Rattle.hierarchy.specs.Hierarchies.{IsHierarchyOf};
ghost use Rattle.dependence.specs.FlowGraph.{AnObject, type_of_object};
ghost use Rattle.dependence.specs.WideGraph;
ghost use Rattle.dependence.specs.FactRules.{SiteAt};
ghost use Rattle.heap_deps.specs.Accesses.{StartsThread, TypeStarts, IsStartCall};

use hierarchy::Hierarchy;
use jo_ids::{ClassId, Memory, MethodId, SiteId};
use jo_insn::Insn;
use jo_prog::calls::{Taken, taken_from};
use jo_prog::program::{MemberRef, Program, TypeRef, method_at};
use jo_prog::sites::opcode_of;
use jo_text::{DescFault, read_method_desc};
use method_views::operands::{member_named, receiver_class};
use object_types::types::type_of;
use std::alloc::Global;

// ---- what an object's class does

fn is_start(taken: Taken) -> bool
    ensures { IsTrue result ↔ (taken ≡ Start) }
{
    match taken {
        Taken::Start => true,
        _ => false,
    }
}

fn is_code(taken: Taken) -> bool
    ensures { IsTrue result ↔ ((run : ℕ) × (taken ≡ Code run)) }
{
    match taken {
        Taken::Code(_) => true,
        _ => false,
    }
}

/// With what the thread of an object of a class begins.
fn run_of(program: &Program, hierarchy: &Hierarchy, class: ClassId) -> Taken
    requires { IsHierarchyOf program.now hierarchy.now }
    ensures { result ≡ Calls.run_of program.now class }
{
    let found = hierarchy.search_from(program, class, b"run".as_slice(), b"()V".as_slice());
    taken_from(program, found)
}

fn has_run(program: &Program, hierarchy: &Hierarchy, own: &TypeRef) -> bool
    requires { IsHierarchyOf program.now hierarchy.now }
    ensures { IsTrue result ↔ ((run : ℕ) × (Calls.run_of program.now (Calls.receiver_class own.now) ≡ Code run)) }
{
    is_code(run_of(program, hierarchy, receiver_class(own)))
}

/// Whether a call with this opcode, which names a type and resolves to a method, starts the threads of objects of a type.
fn type_starts(
    program: &Program,
    hierarchy: &Hierarchy,
    method: MethodId,
    op: u8,
    named: &TypeRef,
    resolved: MethodId,
    own: &TypeRef,
) -> bool
    requires kept { IsHierarchyOf program.now hierarchy.now }
    requires short { length program.now.classes < 2 ^ 32 }
    ensures { IsTrue result ↔ TypeStarts program.now method op named.now resolved own.now }
{
    let Some(current) = method_at(program, method) else {
        return false;
    };
    if !hierarchy.type_fits(program, own, named) {
        return false;
    }
    if !has_run(program, hierarchy, own) {
        return false;
    }
    is_start(hierarchy.takes(program, op, current.class, resolved, receiver_class(own)))
}

fn some_type_starts(
    program: &Program,
    hierarchy: &Hierarchy,
    method: MethodId,
    op: u8,
    named: &TypeRef,
    resolved: MethodId,
    own: Option<&TypeRef>,
) -> bool
    requires kept { IsHierarchyOf program.now hierarchy.now }
    requires short { length program.now.classes < 2 ^ 32 }
    ensures { (o : AnObject) → type_of_object program.now o ≡ option_copied own.entry → (IsTrue result ↔ StartsThread program.now method op named.now resolved o) }
{
    match own {
        Some(own) => type_starts(program, hierarchy, method, op, named, resolved, own),
        None => false,
    }
}

/// Whether a call with this opcode, which names a type and resolves to a method, starts the threads of the objects of a site.
pub(crate) fn site_starts(
    alloc: Global,
    program: &Program,
    hierarchy: &Hierarchy,
    method: MethodId,
    op: u8,
    named: &TypeRef,
    resolved: MethodId,
    site: SiteId,
) -> Result<bool, Memory>
    requires kept { IsHierarchyOf program.now hierarchy.now }
    requires short { length program.now.classes < 2 ^ 32 }
    ensures { IfOk result (λ starts. (o : AnObject) → o.site ≡ site → (IsTrue starts ↔ StartsThread program.now method op named.now resolved o)) }
{
    let own = type_of(alloc, program, site)?;
    let starts = some_type_starts(
        program,
        hierarchy,
        method,
        op,
        named,
        resolved,
        own.as_ref(),
    );
    Ok(starts)
}

// ---- what a call names

fn calls_instance(op: u8) -> bool
    ensures { IsTrue result ↔ ((WideGraph.is_call op ≡ true) × ((op == 184) ≡ false)) }
{
    182 <= op && op <= 185 && op != 184
}

/// Whether the bytes are the descriptor of a method.
fn is_described(alloc: Global, bytes: &[u8]) -> Result<bool, Memory>
    ensures { IfOk result (λ is. IsTrue is ↔ IsMethodDesc bytes.now) }
{
    match read_method_desc(alloc, bytes) {
        Ok(_) => Ok(true),
        Err(DescFault::Bad) => Ok(false),
        Err(DescFault::Memory) => Err(Memory),
    }
}

fn has_site(program: &Program, method: MethodId, pc: u32) -> bool
    requires { length program.now.sites < 2 ^ 32 }
    ensures { IsTrue result ↔ ((site : ℕ) × SiteAt program.now method pc None site) }
{
    program.site_of(method, pc, None).is_some()
}

/// The member that the call of an instance method at a pc names, where it is a site with a descriptor.
pub(crate) fn start_call<'a>(
    alloc: Global,
    program: &'a Program,
    method: MethodId,
    pc: u32,
    insn: Insn,
) -> Result<Option<&'a MemberRef>, Memory>
    requires few { length program.now.sites < 2 ^ 32 }
    requires stands { (next : ℕ) × (WideGraph.insn_at program.now method pc ≡ Some (insn, next)) }
    ensures { IfOk result (λ found. IsStartCall program.now method pc (opcode_in insn) (option_copied found)) }
{
    if !calls_instance(opcode_of(insn)) {
        return Ok(None);
    }
    if !has_site(program, method, pc) {
        return Ok(None);
    }
    let Some(member) = member_named(program, method, insn) else {
        return Ok(None);
    };
    if is_described(alloc, member.desc.as_slice())? {
        Ok(Some(member))
    } else {
        Ok(None)
    }
}
