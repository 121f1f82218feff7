//! Tests that code is plain, and that it is typed (JVM Specification SE 8, 4.10; its form by paths is this project's own).
ghost use Rattle.std.specs.Prelude.{◌≡◌, ◌↔◌, ◌+◌, ◌<◌, ◌≤◌, ◌^◌, slice_get, if◌then◌else◌, length, Some, None, IfSome, IfOk, IsTrue};
ghost use Rattle.jo_prog.specs.declared.program.Code.{Code};
ghost use Rattle.jo_prog.specs.Program.{code_at};
ghost use Rattle.jo_prog.specs.Typing.{shape_at_start, call_effect, call_effect_of, exchange, shape_after, IsTyped, IsTypedCode, loaded, stored};
ghost use Rattle.jo_prog.specs.PlainCode.{calls_labelled, goes_on, IsPlainFrom};
ghost use Rattle.jo_prog.specs.IntShapes.{shape_of};

use crate::labels::{Label, Labels, label_of};
use crate::operations::Operation;
use crate::program::{Code, Program, callee_of, code_at, method_at, operation_in};
use jo_ids::{Memory, MethodId};
use std::alloc::Global;

// ---- plain code

fn calls_labelled(labels: &Labels, callee: Option<MethodId>) -> bool
    ensures { result ≡ calls_labelled labels.now callee }
{
    let Some(method) = callee else {
        return false;
    };
    match label_of(labels, method) {
        Some(Label::Source(_) | Label::Sink(_)) => true,
        Some(Label::Release { .. }) | None => false,
    }
}

/// Whether the operation is one of plain code, and not its last.
fn goes_on(labels: &Labels, callee: Option<MethodId>, operation: Operation) -> bool
    ensures { result ≡ goes_on labels.now callee operation }
{
    match operation {
        Operation::Constant(_)
        | Operation::Load(_)
        | Operation::Store(_)
        | Operation::Add
        | Operation::Subtract => true,
        Operation::InvokeStatic(_) => calls_labelled(labels, callee),
        Operation::Return | Operation::Other => false,
    }
}

fn is_plain_code(program: &Program, labels: &Labels, code: &Code) -> bool
    requires { code_at program.now labels.now.entry ≡ Some code.now }
    ensures { IsTrue result ↔ IsPlainFrom program.now labels.now labels.now.entry code.now 0 }
{
    let mut pc = 0;
    while let Some((operation, next)) = operation_in(code, pc) {
        if let Operation::Return = operation {
            return next == code.bytes.as_slice().len();
        }
        if !goes_on(
            labels,
            callee_of(program, labels.entry, operation),
            operation,
        ) {
            return false;
        }
        pc = next;
    }
    false
}

/// Whether the entry's code is plain: in one straight line to its last instruction, which returns.
pub fn is_plain(program: &Program, labels: &Labels) -> bool
    ensures { IsTrue result ↔ ((code : Code) × (code_at program.now labels.now.entry ≡ Some code)
        × IsPlainFrom program.now labels.now labels.now.entry code 0) }
{
    match code_at(program, labels.entry) {
        Some(code) => is_plain_code(program, labels, code),
        None => false,
    }
}

// ---- typed code

/// What a path makes of the locals and of the stack, where no place holds anything but an int: which locals are set, and
/// how many ints are on the stack.
#[derive(Drop)]
struct IntShape {
    is_set: Vec<bool>,
    height: u32,
}

/// How many ints a call pops and pushes, by the descriptor.
fn call_effect(desc: &[u8]) -> Option<(u32, u32)>
    ensures value { result ≡ call_effect desc.now }
    ensures small { IfSome result (λ effect. effect.1 ≤ 1) }
{
    if desc == b"()V".as_slice() {
        Some((0, 0))
    } else if desc == b"()I".as_slice() {
        Some((0, 1))
    } else if desc == b"(I)V".as_slice() {
        Some((1, 0))
    } else if desc == b"(I)I".as_slice() {
        Some((1, 1))
    } else {
        None
    }
}

fn call_effect_of(program: &Program, callee: Option<MethodId>) -> Option<(u32, u32)>
    ensures value { result ≡ call_effect_of program.now callee }
    ensures small { IfSome result (λ effect. effect.1 ≤ 1) }
{
    call_effect(method_at(program, callee?)?.desc.as_slice())
}

impl IntShape {
    fn at_start(alloc: Global, code: &Code) -> Result<IntShape, Memory>
        ensures shape { IfOk result (λ s. shape_of s ≡ shape_at_start code.now) }
        ensures low { IfOk result (λ s. s.height ≡ 0) }
    {
        Ok(IntShape {
            is_set: vec![in alloc; false; usize::from(code.max_locals)]?,
            height: 0,
        })
    }

    /// Pops and pushes so many ints, where so many are there.
    fn exchange(&mut self, pops: u32, pushes: u32) -> bool
        requires { self.old.height + pushes < 2 ^ 32 }
        ensures shape { exchange pops pushes (shape_of self.old) ≡ (if result then Some (shape_of self.new) else None) }
    {
        if self.height < pops {
            return false;
        }
        self.height = self.height - pops + pushes;
        true
    }

    /// Pushes the int of a local, where the local holds one.
    fn load(&mut self, local: u16) -> bool
        requires { self.old.height + 1 < 2 ^ 32 }
        ensures { loaded (slice_get (shape_of self.old).locals local) (shape_of self.old) ≡ (if result then Some (shape_of self.new) else None) }
    {
        if self.is_set.get(usize::from(local)) != Some(&true) {
            return false;
        }
        self.height += 1;
        true
    }

    /// Pops an int into a local, where both are there.
    fn store(&mut self, local: u16) -> bool
        ensures { stored local (shape_of self.old) (shape_of self.old).stack ≡ (if result then Some (shape_of self.new) else None) }
    {
        let local = usize::from(local);
        if self.height == 0 || local >= self.is_set.len() {
            return false;
        }
        self.is_set[local] = true;
        self.height -= 1;
        true
    }

    /// Makes the shape the one after an operation, where its operands are there and of the right kinds.
    fn apply(&mut self, program: &Program, callee: Option<MethodId>, operation: Operation) -> bool
        requires { self.old.height < 2 ^ 31 }
        ensures { shape_after program.now callee operation (shape_of self.old) ≡ (if result then Some (shape_of self.new) else None) }
    {
        match operation {
            Operation::Constant(_) => self.exchange(0, 1),
            Operation::Load(local) => self.load(local),
            Operation::Store(local) => self.store(local),
            Operation::Add | Operation::Subtract => self.exchange(2, 1),
            Operation::InvokeStatic(_) => match call_effect_of(program, callee) {
                Some((pops, pushes)) => self.exchange(pops, pushes),
                None => false,
            },
            Operation::Return => true,
            Operation::Other => false,
        }
    }
}

fn is_typed_code(
    alloc: Global,
    program: &Program,
    method: MethodId,
    code: &Code,
) -> Result<bool, Memory>
    requires { code_at program.now method ≡ Some code.now }
    ensures { IfOk result (λ yes. IsTrue yes ↔ IsTypedCode program.now method code.now) }
{
    let size = code.bytes.as_slice().len();
    let max_stack = u32::from(code.max_stack);
    let mut shape = IntShape::at_start(alloc, code)?;
    let mut pc = 0;
    while let Some((operation, next)) = operation_in(code, pc) {
        if !shape.apply(program, callee_of(program, method, operation), operation) {
            return Ok(false);
        }
        if let Operation::Return = operation {
            return Ok(true);
        }
        if next >= size || shape.height > max_stack {
            return Ok(false);
        }
        pc = next;
    }
    Ok(false)
}

/// Whether the entry has code that is typed.
pub fn is_typed(alloc: Global, program: &Program, labels: &Labels) -> Result<bool, Memory>
    ensures { IfOk result (λ yes. IsTrue yes ↔ IsTyped program.now labels.now.entry) }
{
    match code_at(program, labels.entry) {
        Some(code) => is_typed_code(alloc, program, labels.entry, code),
        None => Ok(false),
    }
}
