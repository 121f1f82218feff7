//! The state in which a run begins.
ghost use Rattle.std.specs.Prelude.{◌≡◌, ◌++◌, ◌∷◌, [], map, replicate, None, option_map, IfOk, OnOk};
ghost use Rattle.std.specs.Option.{option_to_list};
ghost use Rattle.jo_text.specs.declared.descriptors.Base.TheVariants.{Class as OfName};
ghost use Rattle.jo_prog.specs.PreludeClasses.{string_name};
ghost use Rattle.jo_prog.specs.Machine as machine;
ghost use Rattle.jo_prog.specs.Constants;
ghost use Rattle.jo_prog.specs.Program.{code_at as code_with};
ghost use Rattle.jvm_values.specs.Values.{value_of};
ghost use Rattle.jvm_frames.specs.Frames.{frame_of, thread_of};
ghost use Rattle.resolved_insns.specs.Strings.{AreStringsOf};
ghost use Rattle.jvm_step.specs.States.{state_of, threads_of};

use crate::states::State;
use jo_ids::{Memory, MethodId};
use jo_prog::labels::Labels;
use jo_prog::program::{Field, Operand, Program};
use jo_prog::runner::takes_arguments;
use jo_text::{Base, FieldDesc, Name};
use jvm_frames::{Frame, Thread};
use jvm_values::{Address, Heap, InfoView, Length, Value, default_value};
use resolved_insns::Strings;
use std::alloc::{AllocError, Global};

fn reference_to(address: Option<Address>) -> Value
    ensures { value_of result ≡ Constants.reference_to address }
{
    match address {
        Some(address) => Value::Ref(address),
        None => Value::Null,
    }
}

/// What a field has before the first step.
fn first_value(program: &Program, strings: &Strings, field: &Field) -> Value
    requires { AreStringsOf program.now strings.now }
    ensures { value_of result ≡ Constants.first_value program.now field.now }
{
    match &field.constant {
        Some(Operand::Int(value)) => Value::Int(*value),
        Some(Operand::Text(text)) => reference_to(strings.address(program, text.as_slice())),
        _ => default_value(field.desc.as_slice()),
    }
}

fn first_statics(alloc: Global, program: &Program, strings: &Strings) -> Result<Vec<Value>, Memory>
    requires { AreStringsOf program.now strings.now }
    ensures { IfOk result (λ statics. map value_of statics.items ≡ machine.first_statics program.now) }
{
    let mut statics = Vec::new(alloc);
    for field in program.fields.as_slice() {
        statics.push(first_value(program, strings, field))?;
    }
    Ok(statics)
}

/// The type of a string.
fn string_desc(alloc: Global) -> Result<FieldDesc, Memory>
    ensures { IfOk result (λ desc. desc ≡ (record { dims = 0; base = OfName string_name })) }
{
    let mut name = Name::new(alloc);
    name.append(b"java/lang/String".as_slice())?;
    Ok(FieldDesc {
        dims: 0,
        base: Base::Class(name),
    })
}

/// Adds the array of an entry that takes one, which has no element.
fn add_arguments(alloc: Global, program: &Program, heap: &mut Heap) -> Result<(), Memory>
    ensures { OnOk result (heap.new ≡ heap.old ++ machine.no_arguments ∷ []) }
{
    let desc = string_desc(alloc)?;
    let Some(none) = Length::of(0) else {
        return Err(AllocError);
    };
    heap.create(alloc, program, &InfoView::Array(&desc, none))?;
    Ok(())
}

fn first_heap(
    alloc: Global,
    program: &Program,
    labels: &Labels,
    strings: &Strings,
) -> Result<Heap, Memory>
    requires { AreStringsOf program.now strings.now }
    ensures { IfOk result (λ heap. heap ≡ machine.first_heap program.now labels.now) }
{
    let mut heap = Heap::of_strings(alloc, strings.count(program))?;
    if !takes_arguments(program, labels.entry) {
        return Ok(heap);
    }
    add_arguments(alloc, program, &mut heap)?;
    Ok(heap)
}

/// The frame of the entry, or none where it has no code.
fn first_frame(
    alloc: Global,
    program: &Program,
    strings: &Strings,
    entry: MethodId,
) -> Result<Option<Frame>, Memory>
    requires { AreStringsOf program.now strings.now }
    ensures { IfOk result (λ frame. option_to_list (option_map frame_of frame) ≡ machine.first_frame program.now entry (code_with program.now entry)) }
{
    if takes_arguments(program, entry) {
        let frame = Frame::begin(alloc, program, entry, &[Value::Ref(strings.count(program))])?;
        Ok(frame)
    } else {
        let frame = Frame::begin(alloc, program, entry, &[])?;
        Ok(frame)
    }
}

fn first_thread(alloc: Global, frame: Option<Frame>) -> Result<Thread, Memory>
    ensures { IfOk result (λ thread. thread_of thread ≡ record { frames = option_to_list (option_map frame_of frame); pending = None; object = None }) }
{
    match frame {
        Some(frame) => {
            let thread = Thread::begin(alloc, frame, None)?;
            Ok(thread)
        }
        None => Ok(Thread {
            frames: Vec::new(alloc),
            pending: None,
            object: None,
        }),
    }
}

fn first_threads(
    alloc: Global,
    program: &Program,
    strings: &Strings,
    entry: MethodId,
) -> Result<Vec<Thread>, Memory>
    requires { AreStringsOf program.now strings.now }
    ensures { IfOk result (λ threads. threads_of threads.items ≡ (record { frames = machine.first_frame program.now entry (code_with program.now entry); pending = None; object = None }) ∷ []) }
{
    let frame = first_frame(alloc, program, strings, entry)?;
    let thread = first_thread(alloc, frame)?;
    let mut threads = Vec::new(alloc);
    threads.push(thread)?;
    Ok(threads)
}

fn no_cursors(alloc: Global, count: usize) -> Result<Vec<u64>, Memory>
    ensures { IfOk result (λ cursors. cursors.items ≡ replicate count 0) }
{
    vec![in alloc; 0; count]
}

impl State {
    /// The state in which a run begins.
    pub fn start(
        alloc: Global,
        program: &Program,
        labels: &Labels,
        strings: &Strings,
    ) -> Result<State, Memory>
        requires { AreStringsOf program.now strings.now }
        ensures { IfOk result (λ state. state_of state ≡ machine.start program.now labels.now) }
    {
        let heap = first_heap(alloc, program, labels, strings)?;
        let statics = first_statics(alloc, program, strings)?;
        let cursors = no_cursors(alloc, program.methods.as_slice().len())?;
        let threads = first_threads(alloc, program, strings, labels.entry)?;
        Ok(State {
            heap,
            statics,
            cursors,
            threads,
        })
    }
}
