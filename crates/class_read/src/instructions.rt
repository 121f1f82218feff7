//! Reads the instructions of code (JVM Specification SE 8, 4.9.1).
ghost use Rattle.std.specs.Prelude.{◌≡◌, ◌+◌, ◌^◌, ◌<◌, ◌≤◌, length};
ghost use Rattle.jo_insn.specs.Instructions.{decoded};
ghost use Rattle.class_pool.specs.Code;
ghost use Rattle.class_pool.specs.Outcomes.{Gives};
ghost use Rattle.class_read.specs.Codes.{located};

use crate::operands::insn_fault;
use class_pool::items::fault_at;
use class_pool::{ClassCode, Cut, KnownPool, Stop};
use jo_ids::List;
use jo_insn::{InsnFault, Placed, decode};
use std::alloc::Global;

fn code_for(fault: InsnFault) -> ClassCode
    ensures { result ≡ Code.code_for fault }
{
    match fault {
        InsnFault::Cut | InsnFault::Malformed => ClassCode::CodeBounds,
        InsnFault::Unknown(_) => ClassCode::BadOpcode,
        InsnFault::Outside(op) => ClassCode::Unsupported(Cut::Opcode(op)),
    }
}

/// The instruction at a pc of code that stands at `place` of the file.
fn placed_at(place: u32, pool: &KnownPool, code: &[u8], pc: u32) -> Result<Placed, Stop>
    requires within { pc < length code.now }
    requires room { place + length code.now < 2 ^ 32 }
    requires few { length code.now < 2 ^ 16 }
    ensures { Gives (λ x. x) result (located place (Code.placed_at pool.now pc (decoded code.now pc))) }
{
    match decode(code, pc) {
        Ok((insn, next)) => match insn_fault(pool, &insn) {
            None => Ok(Placed { pc, insn, next }),
            Some(fault) => Err(fault_at(fault, place + pc)),
        },
        Err(fault) => Err(fault_at(code_for(fault), place + pc)),
    }
}

/// The instructions of code that stands at `place` of the file.
pub fn instructions(
    alloc: Global,
    place: u32,
    pool: &KnownPool,
    code: &[u8],
) -> Result<List<Placed>, Stop>
    requires room { place + length code.now < 2 ^ 32 }
    requires few { length code.now < 2 ^ 16 }
    ensures { Gives (λ x. x) result (located place (Code.insns_of pool.now code.now)) }
{
    let mut insns = List::new(alloc);
    let mut pc = 0;
    while (pc as usize) < code.len() {
        let placed = placed_at(place, pool, code, pc)?;
        insns.push(placed)?;
        pc = placed.next;
    }
    Ok(insns)
}
