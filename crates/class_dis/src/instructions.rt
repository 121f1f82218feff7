//! The instructions of some code, one behind another.
ghost use Rattle.std.specs.Prelude.{◌≡◌, ◌<◌, ◌^◌, length, IfOk};
ghost use Rattle.class_dis.specs.Insns.{insns_of};

use jo_ids::{List, Memory};
use jo_insn::{Placed, decode};
use std::alloc::Global;

/// The instructions from the first on, up to the first place where none stands: the end, in the code of a class file.
pub fn instructions(alloc: Global, code: &[u8]) -> Result<List<Placed>, Memory>
    requires { length code.now < 2 ^ 16 }
    ensures { IfOk result (λ insns. insns ≡ insns_of code.now) }
{
    let mut insns = List::new(alloc);
    let mut pc = 0;
    while let Ok((insn, next)) = decode(code, pc) {
        match insns.push(Placed { pc, insn, next }) {
            Ok(()) => pc = next,
            Err((_, memory)) => return Err(memory),
        }
    }
    Ok(insns)
}
