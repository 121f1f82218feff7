//! What a method is to a call that takes it.
ghost use Rattle.std.specs.Prelude.{◌≡◌, codes, ◌&&◌, ◌==◌};
ghost use Rattle.std.specs.Str.{bytes_eq};
ghost use Rattle.jo_prog.specs.Calls;

use crate::program::{Method, Program, class_at, method_at};
use jo_ids::{ClassId, MethodId};
use jo_insn::{ACC_NATIVE, has_flag};

/// What a call takes.
#[derive(Clone, Copy, PartialEq, Eq)]
pub enum Taken {
    /// A method with code.
    Code(MethodId),
    /// `Thread.start`.
    Start,
    /// `Thread.join`.
    Join,
    Native(MethodId),
    /// No method, or an abstract one.
    Nothing,
}

/// A method that only its class may call (4.6).
const ACC_PRIVATE: u16 = 0x0002;

/// The number of java/lang/Thread.
const THREAD: u32 = 3;

/// Whether the method is that of java/lang/Thread with this name and the descriptor `()V`.
fn is_machine_method(name: &[u8], method: &Method) -> bool
    ensures { result ≡ Calls.is_machine_method name.now method.now }
{
    method.class.number() == THREAD
        && method.name.as_slice() == name
        && method.desc.as_slice() == b"()V".as_slice()
}

/// What the method with that number is to a call that takes it.
pub fn taken_as(number: MethodId, method: &Method) -> Taken
    ensures { result ≡ Calls.taken_as number method.now }
{
    if method.code.is_some() {
        return Taken::Code(number);
    }
    if is_machine_method(b"start".as_slice(), method) {
        return Taken::Start;
    }
    if is_machine_method(b"join".as_slice(), method) {
        return Taken::Join;
    }
    if has_flag(ACC_NATIVE, method.flags) {
        Taken::Native(number)
    } else {
        Taken::Nothing
    }
}

/// What the method with that number is to a call that takes it; nothing where there is none.
pub fn taken_from(program: &Program, number: Option<MethodId>) -> Taken
    ensures { result ≡ Calls.taken_from program.now number }
{
    let Some(number) = number else {
        return Taken::Nothing;
    };
    match method_at(program, number) {
        Some(method) => taken_as(number, method),
        None => Taken::Nothing,
    }
}

/// Whether an invokespecial in that class takes the method as it was resolved: `<init>`, a private method or one of the class.
pub fn is_taken_as_resolved(current: ClassId, method: &Method) -> bool
    ensures { result ≡ Calls.is_taken_as_resolved current method.now }
{
    method.name.as_slice() == b"<init>".as_slice()
        || has_flag(ACC_PRIVATE, method.flags)
        || method.class == current
}

/// The superclass of the class with that number, if it has one.
pub fn superclass_at(program: &Program, class: ClassId) -> Option<ClassId>
    ensures { result ≡ Calls.superclass_at program.now class }
{
    class_at(program, class)?.superclass
}
