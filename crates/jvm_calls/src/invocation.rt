//! What comes of a call (JVM Specification SE 8, 6.5).
ghost use Rattle.std.specs.Prelude.{◌≡◌, ℕ, ◌<◌, ◌^◌, List, length, map, Some, option_map};
ghost use Rattle.jo_prog.specs.declared.program.TypeRef.{TypeRef as OfType};
ghost use Rattle.jo_prog.specs.Calls;
ghost use Rattle.jo_prog.specs.Labels.{label_of as label_with};
ghost use Rattle.jo_prog.specs.declared.labels.Labels.{Labels as OfLabels};
ghost use Rattle.jo_prog.specs.Values.{Value as OfValue, object};
ghost use Rattle.machine.specs.Invocation as machine;
ghost use Rattle.machine.specs.Invocation.{callee};
ghost use Rattle.hierarchy.specs.Hierarchies.{IsHierarchyOf};
ghost use Rattle.jvm_values.specs.Values.{value_of, info_seen};
ghost use Rattle.jvm_calls.specs.Operands;
ghost use Rattle.jvm_calls.specs.Invokes;
ghost use Rattle.jvm_calls.specs.Invokes.{invoked_of, info_in, marked_in, callee_of, starting, received};

use crate::shapes::{no_value, one_int, one_object, receiver_of};
use hierarchy::Hierarchy;
use jo_ids::{ClassId, Id, MethodId};
use jo_prog::calls::{Taken, taken_from};
use jo_prog::labels::{Label, Labels, label_of};
use jo_prog::program::{Program, TypeRef};
use jo_prog::sites::Cause;
use jvm_values::{Address, Heap, Value, is_of_type};

/// Opcodes of calls.
const INVOKESTATIC: u8 = 184;

const INVOKEINTERFACE: u8 = 185;

/// A call in a class: the opcode, the type that is named, and the method that it resolves to.
#[derive(Clone, Copy)]
pub struct Call<'c> {
    pub current: ClassId,
    pub op: u8,
    pub owner: &'c TypeRef,
    pub method: MethodId,
}

/// What comes of a call.
#[derive(Clone, Copy)]
pub enum Invoked {
    /// A method with code, with all values of the call.
    Enters(MethodId),
    /// The thread of an object begins in a method.
    Begins(Address, MethodId),
    /// Waits for the thread of an object.
    Joins(Address),
    /// The next int of a source.
    Asks(MethodId),
    /// An int at a sink.
    Shows(MethodId, i32),
    /// An int that a release lets out.
    Releases(MethodId, i32),
    Fails(Cause),
}

/// What a native method does, by its label.
fn natively(labels: &Labels, method: MethodId, values: &[Value]) -> Option<Invoked>
    ensures { option_map (invoked_of (map value_of values.now)) result ≡ machine.natively method (label_with labels.now method) (map value_of values.now) }
{
    match label_of(labels, method) {
        Some(Label::Source(_)) => asked(method, values),
        Some(Label::Sink(_)) => shown(method, one_int(values)),
        Some(Label::Release { .. }) => released(method, one_int(values)),
        None => None,
    }
}

fn asked(method: MethodId, values: &[Value]) -> Option<Invoked>
    ensures { (all : List (OfValue ℕ)) → option_map (invoked_of all) result ≡ Invokes.asked method (Operands.no_value (map value_of values.now)) }
{
    if no_value(values) {
        Some(Invoked::Asks(method))
    } else {
        None
    }
}

fn shown(method: MethodId, int: Option<i32>) -> Option<Invoked>
    ensures { (all : List (OfValue ℕ)) → option_map (invoked_of all) result ≡ Invokes.shown method int }
{
    match int {
        Some(z) => Some(Invoked::Shows(method, z)),
        None => None,
    }
}

fn released(method: MethodId, int: Option<i32>) -> Option<Invoked>
    ensures { (all : List (OfValue ℕ)) → option_map (invoked_of all) result ≡ Invokes.released method int }
{
    match int {
        Some(z) => Some(Invoked::Releases(method, z)),
        None => None,
    }
}

// ---- threads

/// With what the thread of an object of a class begins.
fn run_of(program: &Program, hierarchy: &Hierarchy, class: ClassId) -> Taken
    requires { IsHierarchyOf program.now hierarchy.now }
    ensures { result ≡ Calls.run_of program.now class }
{
    let found = hierarchy.search_from(program, class, b"run".as_slice(), b"()V".as_slice());
    taken_from(program, found)
}

fn begun(address: Address, was_started: bool, run: Taken) -> Option<Invoked>
    ensures { (all : List (OfValue ℕ)) → option_map (invoked_of all) result ≡ machine.begun address was_started run }
{
    if was_started {
        return Some(Invoked::Fails(Cause::SecondStart));
    }
    match run {
        Taken::Code(method) => Some(Invoked::Begins(address, method)),
        Taken::Start | Taken::Join | Taken::Native(_) | Taken::Nothing => None,
    }
}

fn starts(
    program: &Program,
    hierarchy: &Hierarchy,
    heap: &Heap,
    object: Option<Address>,
) -> Option<Invoked>
    requires { IsHierarchyOf program.now hierarchy.now }
    ensures { (all : List (OfValue ℕ)) (labels : OfLabels) (current op method : ℕ) (owner : OfType) → option_map (invoked_of all) result ≡ starting (callee program.now labels current op owner method) (info_in heap.now) (marked_in heap.now) object }
{
    match object {
        Some(address) => begun(
            address,
            heap.was_started(address),
            run_of(program, hierarchy, heap.class(address)),
        ),
        None => None,
    }
}

fn joins(object: Option<Address>) -> Option<Invoked>
    ensures { (all : List (OfValue ℕ)) → option_map (invoked_of all) result ≡ Invokes.joining object }
{
    match object {
        Some(address) => Some(Invoked::Joins(address)),
        None => None,
    }
}

// ---- calls

fn by_taken(
    program: &Program,
    hierarchy: &Hierarchy,
    labels: &Labels,
    heap: &Heap,
    taken: Taken,
    values: &[Value],
) -> Option<Invoked>
    requires { IsHierarchyOf program.now hierarchy.now }
    ensures { (current op method : ℕ) (owner : OfType) → option_map (invoked_of (map value_of values.now)) result ≡ machine.by_taken (callee program.now labels.now current op owner method) (info_in heap.now) (marked_in heap.now) taken (map value_of values.now) }
{
    match taken {
        Taken::Code(method) => Some(Invoked::Enters(method)),
        Taken::Start => starts(program, hierarchy, heap, one_object(values)),
        Taken::Join => joins(one_object(values)),
        Taken::Native(method) => natively(labels, method, values),
        Taken::Nothing => None,
    }
}

/// Whether the object at an address implements what the call names; each does but for invokeinterface.
fn implements(
    program: &Program,
    hierarchy: &Hierarchy,
    heap: &Heap,
    call: &Call<'_>,
    address: Address,
) -> bool
    requires kept { IsHierarchyOf program.now hierarchy.now }
    requires short { length program.now.classes < 2 ^ 32 }
    ensures { (labels : OfLabels) → result ≡ (callee_of program.now labels call.now).implements (info_in heap.now address) }
{
    if call.op == INVOKEINTERFACE {
        is_of_type(program, hierarchy, heap, call.owner, address)
    } else {
        true
    }
}

fn taken_by(program: &Program, hierarchy: &Hierarchy, call: &Call<'_>, receiver: ClassId) -> Taken
    requires { IsHierarchyOf program.now hierarchy.now }
    ensures { result ≡ Calls.takes program.now call.now.op call.now.current call.now.method receiver }
{
    hierarchy.takes(program, call.op, call.current, call.method, receiver)
}

/// With an object as the receiver.
fn on_object(
    program: &Program,
    hierarchy: &Hierarchy,
    labels: &Labels,
    heap: &Heap,
    call: &Call<'_>,
    values: &[Value],
    address: Address,
) -> Option<Invoked>
    requires kept { IsHierarchyOf program.now hierarchy.now }
    requires short { length program.now.classes < 2 ^ 32 }
    ensures { option_map (invoked_of (map value_of values.now)) result ≡ received (callee_of program.now labels.now call.now) (info_in heap.now) (marked_in heap.now) (map value_of values.now) (Some (Some address)) }
{
    if !implements(program, hierarchy, heap, call, address) {
        return Some(Invoked::Fails(Cause::MissingInterface));
    }
    let taken = taken_by(program, hierarchy, call, heap.class(address));
    by_taken(program, hierarchy, labels, heap, taken, values)
}

/// With a receiver, or null.
fn by_receiver(
    program: &Program,
    hierarchy: &Hierarchy,
    labels: &Labels,
    heap: &Heap,
    call: &Call<'_>,
    values: &[Value],
    receiver: Option<Option<Address>>,
) -> Option<Invoked>
    requires kept { IsHierarchyOf program.now hierarchy.now }
    requires short { length program.now.classes < 2 ^ 32 }
    ensures { option_map (invoked_of (map value_of values.now)) result ≡ received (callee_of program.now labels.now call.now) (info_in heap.now) (marked_in heap.now) (map value_of values.now) receiver }
{
    match receiver {
        None => None,
        Some(None) => Some(Invoked::Fails(Cause::NullBase)),
        Some(Some(address)) => on_object(program, hierarchy, labels, heap, call, values, address),
    }
}

/// What a call does with its values in order. `None` where they aren't those that it needs.
pub fn invoke(
    program: &Program,
    hierarchy: &Hierarchy,
    labels: &Labels,
    heap: &Heap,
    call: &Call<'_>,
    values: &[Value],
) -> Option<Invoked>
    requires kept { IsHierarchyOf program.now hierarchy.now }
    requires short { length program.now.classes < 2 ^ 32 }
    ensures { option_map (invoked_of (map value_of values.now)) result ≡ machine.invoked (callee_of program.now labels.now call.now) (info_in heap.now) (marked_in heap.now) (map value_of values.now) }
{
    if call.op == INVOKESTATIC {
        let taken = taken_by(program, hierarchy, call, Id::of(0));
        by_taken(program, hierarchy, labels, heap, taken, values)
    } else {
        let receiver = receiver_of(values);
        by_receiver(program, hierarchy, labels, heap, call, values, receiver)
    }
}
