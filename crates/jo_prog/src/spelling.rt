//! How texts spell methods.
ghost use Rattle.std.specs.Prelude.{◌≡◌, ◌++◌, Some, OnOk};
ghost use Rattle.jo_text.specs.Escapes.{escaped};
ghost use Rattle.jo_prog.specs.Program.{class_at as class_with};
ghost use Rattle.jo_prog.specs.Spelling.{class_name, spelled_in, spelled_method};

use crate::program::{Method, Program, class_at, method_at};
use jo_ids::{ClassId, Memory, MethodId};
use jo_text::push_escaped;

fn push_class(out: &mut Vec<u8>, program: &Program, class: ClassId) -> Result<(), Memory>
    ensures { OnOk result (out.new.items ≡ out.old.items ++ escaped (class_name (class_with program.now class))) }
{
    match class_at(program, class) {
        Some(class) => push_escaped(out, class.name.as_slice()),
        None => Ok(()),
    }
}

/// Adds a method's spelling: its class, a full stop, its name, its descriptor. A refusal may leave a part of it.
pub fn push_spelled(out: &mut Vec<u8>, program: &Program, method: &Method) -> Result<(), Memory>
    ensures { OnOk result (out.new.items ≡ out.old.items ++ spelled_in program.now (Some method.now)) }
{
    push_class(out, program, method.class)?;
    out.push(b'.')?;
    push_escaped(out, method.name.as_slice())?;
    push_escaped(out, method.desc.as_slice())
}

/// Adds the spelling of the method with that number, nothing where no method has it. A refusal may leave a part of it.
pub fn push_method(out: &mut Vec<u8>, program: &Program, method: MethodId) -> Result<(), Memory>
    ensures { OnOk result (out.new.items ≡ out.old.items ++ spelled_method program.now method) }
{
    match method_at(program, method) {
        Some(method) => push_spelled(out, program, method),
        None => Ok(()),
    }
}
