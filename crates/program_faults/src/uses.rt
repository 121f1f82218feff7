//! What the instructions of a class name by indices of its constant pool.
ghost use Rattle.std.specs.Prelude.{◌≡◌, ◌++◌, ◌<◌, ◌^◌, length, IfOk, OnOk};
ghost use Rattle.std.specs.List.{flat_map};
ghost use Rattle.std.specs.Option.{option_copied};
ghost use Rattle.jo_prog.specs.Sites.{insns_in};
ghost use Rattle.program_faults.specs.UsedOperands.{used_by, used_at, used_in, methods_of as own_methods, uses_of as used_by_class, operand_in as operand_of_class};

use jo_ids::{ClassId, List, Memory, MethodId};
use jo_insn::{Insn, decode};
use jo_prog::lists::add;
use jo_prog::program::{Code, Operand, Program, class_at, code_at};
use std::alloc::Global;

/// How many bytes code has at most.
const LONGEST_CODE: usize = 65_535;

/// An opcode, and the pool index that stands behind it.
#[derive(Clone, Copy)]
pub struct Use {
    pub op: u8,
    pub index: u16,
}

fn add_use(uses: &mut List<Use>, insn: Insn) -> Result<(), Memory>
    ensures { OnOk result (uses.new ≡ uses.old ++ used_by insn) }
{
    match insn {
        Insn::Pooled { op, index } => add(uses, Use { op, index }),
        _ => Ok(()),
    }
}

/// Adds what instructions name, up to the first place where none stands: the end, in the code of a class file.
fn add_insns(uses: &mut List<Use>, bytes: &[u8]) -> Result<(), Memory>
    requires { length bytes.now < 2 ^ 16 }
    ensures { OnOk result (uses.new ≡ uses.old ++ flat_map used_at (insns_in bytes.now)) }
{
    let mut pc = 0;
    while let Ok((insn, next)) = decode(bytes, pc) {
        add_use(uses, insn)?;
        pc = next;
    }
    Ok(())
}

fn add_code(uses: &mut List<Use>, code: Option<&Code>) -> Result<(), Memory>
    ensures { OnOk result (uses.new ≡ uses.old ++ used_in (option_copied code.entry)) }
{
    let Some(code) = code else {
        return Ok(());
    };
    let bytes = code.bytes.as_slice();
    if bytes.len() > LONGEST_CODE {
        return Ok(());
    }
    add_insns(uses, bytes)
}

/// The methods of a class itself.
pub(crate) fn methods_of(program: &Program, class: ClassId) -> &[MethodId]
    ensures { result.now ≡ own_methods program.now class }
{
    match class_at(program, class) {
        Some(class) => class.methods.as_slice(),
        None => &[],
    }
}

/// What the instructions of a class name, in their order.
pub(crate) fn uses_of(alloc: Global, program: &Program, class: ClassId) -> Result<List<Use>, Memory>
    ensures { IfOk result (λ uses. uses ≡ used_by_class program.now class) }
{
    let mut uses = List::new(alloc);
    for method in methods_of(program, class) {
        add_code(&mut uses, code_at(program, *method))?;
    }
    Ok(uses)
}

/// The operand with that index in the pool of a class.
pub(crate) fn operand_in(program: &Program, class: ClassId, index: u16) -> Option<&Operand>
    ensures { option_copied result ≡ operand_of_class program.now class index }
{
    class_at(program, class)?
        .operands
        .as_slice()
        .get(index as usize)
}
