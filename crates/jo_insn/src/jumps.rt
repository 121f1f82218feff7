//! Instructions in their places in some code, and where they jump (JVM Specification SE 8, 4.9.1 and 6.5).
ghost use Rattle.std.specs.Prelude.{◌≡◌, ◌++◌, ◌≤◌, pos, ◌+ℤ◌, [], ◌∷◌, length, map, IfOk, OnOk};
ghost use Rattle.byteorder.specs.Endian.{big_number, twos_complement};
ghost use Rattle.jo_insn.specs.Jumps;
ghost use Rattle.jo_insn.specs.Jumps.{IsPlacedIn, AreOffsets, offsets_of};

use crate::decoder::behind;
use crate::instructions::{Insn, Memory};
use byteorder::{BigEndian, ByteOrder};
use std::alloc::Global;

/// An instruction with its pc and the next one.
#[derive(Clone, Copy)]
pub struct Placed {
    pub pc: u32,
    pub insn: Insn,
    pub next: u32,
}

fn add_target(targets: &mut Vec<i64>, pc: u32, by: i32) -> Result<(), Memory>
    ensures { OnOk result (targets.new.items ≡ targets.old.items ++ (pos pc +ℤ by) ∷ []) }
{
    targets.push(i64::from(pc) + i64::from(by))?;
    Ok(())
}

/// Adds where the offset that begins the table leads from this pc.
fn add_offset(targets: &mut Vec<i64>, pc: u32, table: &[u8]) -> Result<(), Memory>
    requires { 4 ≤ length table.now }
    ensures { OnOk result (targets.new.items ≡ targets.old.items ++ (pos pc +ℤ twos_complement 4 (big_number 4 table.now)) ∷ []) }
{
    add_target(targets, pc, BigEndian::read_i32(table))
}

/// Adds where so many offsets, each four bytes and every `step` bytes, lead from this pc.
fn add_offsets(
    targets: &mut Vec<i64>,
    pc: u32,
    count: u64,
    step: usize,
    table: &[u8],
) -> Result<(), Memory>
    requires { AreOffsets count step table.now }
    ensures { OnOk result (targets.new.items ≡ targets.old.items ++ map (λ by. pos pc +ℤ by) (offsets_of count step table.now)) }
{
    let mut table = table;
    for _ in 0..count {
        add_offset(targets, pc, table)?;
        table = behind(table, step);
    }
    Ok(())
}

/// The pcs to which an instruction of this code may jump, maybe past either end of the code. Of a switch the default comes
/// first.
pub fn targets_of(alloc: Global, code: &[u8], placed: &Placed) -> Result<Vec<i64>, Memory>
    requires { IsPlacedIn code.now placed.now }
    ensures { IfOk result (λ targets. targets.items ≡ Jumps.targets_of code.now placed.now.pc placed.now.insn) }
{
    let pc = placed.pc;
    let mut targets = Vec::new(alloc);
    match placed.insn {
        Insn::Jump { by, .. } => add_target(&mut targets, pc, by)?,
        Insn::TableSwitch {
            other,
            low,
            high,
            at,
        } => {
            add_target(&mut targets, pc, other)?;
            let count = u64::from(high.abs_diff(low)) + 1;
            add_offsets(&mut targets, pc, count, 4, behind(code, at as usize))?;
        }
        Insn::LookupSwitch { other, pairs, at } => {
            add_target(&mut targets, pc, other)?;
            let table = behind(code, at as usize + 4);
            add_offsets(&mut targets, pc, u64::from(pairs), 8, table)?;
        }
        _ => {}
    }
    Ok(targets)
}

#[cfg(test)]
mod tests {
    use super::*;
    use crate::decode;
    use std::test::Fail;

    /// A tableswitch of 0 to 1 at 1, padded to 4, a goto at 24 and a lookupswitch of the key 5 at 27, padded to 28.
    #[rattlefmt::skip]
    const CODE: [u8; 44] = [
        0x03, 0xaa, 0, 0,
        0, 0, 0, 23, 0, 0, 0, 0, 0, 0, 0, 1, 0, 0, 0, 26, 0xff, 0xff, 0xff, 0xff,
        0xa7, 0xff, 0xe8,
        0xab, 0xff, 0xff, 0xff, 0xe5, 0, 0, 0, 1, 0, 0, 0, 5, 0, 0, 0, 16,
    ];

    fn targets_at(alloc: Global, pc: u32) -> Result<Vec<i64>, Fail> {
        match decode(&CODE, pc) {
            Ok((insn, next)) => Ok(targets_of(alloc, &CODE, &Placed { pc, insn, next })?),
            Err(_) => Err(Fail::from("an instruction")),
        }
    }

    #[test]
    fn targets_are_found(rt: HostRuntime) -> Result<(), Fail> {
        let alloc = rt.alloc();
        assert_eq!(rt; targets_at(alloc, 0)?.as_slice(), [].as_slice());
        assert_eq!(rt; targets_at(alloc, 1)?.as_slice(), [24, 27, 0].as_slice());
        assert_eq!(rt; targets_at(alloc, 24)?.as_slice(), [0].as_slice());
        assert_eq!(rt; targets_at(alloc, 27)?.as_slice(), [0, 43].as_slice());
        Ok(())
    }
}
