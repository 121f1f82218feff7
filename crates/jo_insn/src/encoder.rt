//! Writes instructions.
ghost use Rattle.std.specs.Prelude.{◌≡◌, ◌≤◌, ◌++◌, ◌∷◌, [], length, replicate, OnOk, OnErr};
ghost use Rattle.std.specs.List.{flat_map};
ghost use Rattle.jo_insn.specs.Opcodes;
ghost use Rattle.jo_insn.specs.Instructions.{IsInsn, FitsLocal, FitsStep, CanPush, CanName, CanJump, spelled, spelled_with, padding_at, s4};

use crate::instructions::{Insn, Memory};
use crate::opcodes::{Operands, operands_of};
use byteorder::{BigEndian, ByteOrder};

const IINC: u8 = 132;

const TABLE_SWITCH: u8 = 170;

const LOOKUP_SWITCH: u8 = 171;

const NEW_ARRAY: u8 = 188;

const WIDE: u8 = 196;

/// Adds the bytes of an instruction that stands at this pc. `table` has what stands behind its operands: the offsets or
/// the pairs of a switch, the two bytes behind the index of an invokeinterface, else nothing. A refusal leaves the code
/// as it was.
pub fn encode(insn: &Insn, table: &[u8], pc: u32, code: &mut Vec<u8>) -> Result<(), Memory>
    requires { IsInsn pc insn.now table.now }
    ensures ok { OnOk result (code.new.items ≡ code.old.items ++ spelled pc insn.now table.now) }
    ensures err { OnErr result (code.new.items ≡ code.old.items) }
{
    match *insn {
        Insn::Plain(op) => code.extend_from_slice(&[op]),
        Insn::Local { op, index, wide } => add_local(op, index, wide, code),
        Insn::Iinc { index, by, wide } => add_iinc(index, by, wide, code),
        Insn::Push { op, value } => add_push(op, value, code),
        Insn::Pooled { op, index } => add_pooled(op, index, table, code),
        Insn::Array(kind) => code.extend_from_slice(&[NEW_ARRAY, kind]),
        Insn::Jump { op, by } => add_jump(op, by, code),
        Insn::TableSwitch {
            other,
            low,
            high,
            ..
        } => add_switch(TABLE_SWITCH, &[other, low, high], table, pc, code),
        Insn::LookupSwitch { other, pairs, .. } => {
            add_switch(LOOKUP_SWITCH, &[other, pairs as i32], table, pc, code)
        }
    }
}

fn add_local(op: u8, index: u16, wide: bool, code: &mut Vec<u8>) -> Result<(), Memory>
    requires { FitsLocal wide index }
    ensures ok { OnOk result (code.new.items ≡ code.old.items ++ spelled_with [] (Insn.Local op index wide) []) }
    ensures err { OnErr result (code.new.items ≡ code.old.items) }
{
    if wide {
        let [high, low] = index.to_be_bytes();
        code.extend_from_slice(&[WIDE, op, high, low])
    } else {
        code.extend_from_slice(&[op, index as u8])
    }
}

fn add_iinc(index: u16, by: i16, wide: bool, code: &mut Vec<u8>) -> Result<(), Memory>
    requires index { FitsLocal wide index }
    requires step { FitsStep wide by }
    ensures ok { OnOk result (code.new.items ≡ code.old.items ++ spelled_with [] (Insn.Iinc index by wide) []) }
    ensures err { OnErr result (code.new.items ≡ code.old.items) }
{
    if wide {
        let [high, low] = index.to_be_bytes();
        let [by_high, by_low] = by.to_be_bytes();
        code.extend_from_slice(&[WIDE, IINC, high, low, by_high, by_low])
    } else {
        code.extend_from_slice(&[IINC, index as u8, (by as i8).cast_unsigned()])
    }
}

fn add_push(op: u8, value: i32, code: &mut Vec<u8>) -> Result<(), Memory>
    requires { CanPush (Opcodes.operands_of op) value }
    ensures ok { OnOk result (code.new.items ≡ code.old.items ++ spelled_with [] (Insn.Push op value) []) }
    ensures err { OnErr result (code.new.items ≡ code.old.items) }
{
    if let Some(Operands::SignedByte) = operands_of(op) {
        code.extend_from_slice(&[op, (value as i8).cast_unsigned()])
    } else {
        let [high, low] = (value as i16).to_be_bytes();
        code.extend_from_slice(&[op, high, low])
    }
}

fn add_pooled(op: u8, index: u16, table: &[u8], code: &mut Vec<u8>) -> Result<(), Memory>
    requires { CanName (Opcodes.operands_of op) index table.now }
    ensures ok { OnOk result (code.new.items ≡ code.old.items ++ spelled_with [] (Insn.Pooled op index) table.now) }
    ensures err { OnErr result (code.new.items ≡ code.old.items) }
{
    if let Some(Operands::PoolByte) = operands_of(op) {
        code.extend_from_slice(&[op, index as u8])
    } else {
        let [high, low] = index.to_be_bytes();
        add_both(&[op, high, low], table, code)
    }
}

fn add_jump(op: u8, by: i32, code: &mut Vec<u8>) -> Result<(), Memory>
    requires { CanJump (Opcodes.operands_of op) by }
    ensures ok { OnOk result (code.new.items ≡ code.old.items ++ spelled_with [] (Insn.Jump op by) []) }
    ensures err { OnErr result (code.new.items ≡ code.old.items) }
{
    if let Some(Operands::OffsetInt) = operands_of(op) {
        let [b0, b1, b2, b3] = by.to_be_bytes();
        code.extend_from_slice(&[op, b0, b1, b2, b3])
    } else {
        let [high, low] = (by as i16).to_be_bytes();
        code.extend_from_slice(&[op, high, low])
    }
}

/// Adds a switch: its opcode, zeros up to a multiple of four, its numbers and its table.
fn add_switch(
    op: u8,
    numbers: &[i32],
    table: &[u8],
    pc: u32,
    code: &mut Vec<u8>,
) -> Result<(), Memory>
    requires { length numbers.now ≤ 3 }
    ensures ok { OnOk result (code.new.items ≡ code.old.items ++ ((op ∷ replicate (padding_at pc) 0) ++ flat_map s4 numbers.now ++ table.now)) }
    ensures err { OnErr result (code.new.items ≡ code.old.items) }
{
    // The bytes stand in `head` as in the code: the numbers begin at a multiple of four.
    let start = (pc % 4) as usize;
    let end = 4 + 4 * numbers.len();
    let mut head = [0; 16];
    head[start] = op;
    BigEndian::write_i32_into(numbers, &mut head[4..end]);
    add_both(&head[start..end], table, code)
}

/// Adds both parts, or neither.
fn add_both(head: &[u8], table: &[u8], code: &mut Vec<u8>) -> Result<(), Memory>
    ensures ok { OnOk result (code.new.items ≡ code.old.items ++ (head.now ++ table.now)) }
    ensures err { OnErr result (code.new.items ≡ code.old.items) }
{
    code.reserve(head.len() + table.len())?;
    code.extend_from_slice(head)?;
    code.extend_from_slice(table)
}

#[cfg(test)]
mod tests {
    use super::*;
    use std::test::Fail;

    /// Whether these are the bytes of an instruction.
    fn is_coded(
        rt: &impl AllocGlobal,
        pc: u32,
        insn: Insn,
        table: &[u8],
        bytes: &[u8],
    ) -> Result<bool, Fail>
        requires { IsInsn pc insn table.now }
    {
        let mut code = Vec::new(rt.alloc());
        encode(&insn, table, pc, &mut code)?;
        Ok(code.as_slice() == bytes)
    }

    #[test]
    #[tactic(auto, unfolding(crate::specs::Opcodes::opcodes, crate::specs::Opcodes::row_of))]
    fn locals_are_narrow_or_wide(rt: HostRuntime) -> Result<(), Fail> {
        let iload_4 = Insn::Local {
            op: 0x15,
            index: 4,
            wide: false,
        };
        assert!(rt; is_coded(&rt, 0, iload_4, &[], &[0x15, 0x04])?);
        let aload_300 = Insn::Local {
            op: 0x19,
            index: 300,
            wide: true,
        };
        assert!(rt; is_coded(&rt, 0, aload_300, &[], &[0xc4, 0x19, 0x01, 0x2c])?);
        let less = Insn::Iinc {
            index: 1,
            by: -1,
            wide: false,
        };
        assert!(rt; is_coded(&rt, 0, less, &[], &[0x84, 0x01, 0xff])?);
        let more = Insn::Iinc {
            index: 256,
            by: 1000,
            wide: true,
        };
        assert!(rt; is_coded(&rt, 0, more, &[], &[0xc4, 0x84, 0x01, 0x00, 0x03, 0xe8])?);
        Ok(())
    }

    #[test]
    #[tactic(auto, unfolding(crate::specs::Opcodes::opcodes, crate::specs::Opcodes::row_of))]
    fn operands_have_their_bytes(rt: HostRuntime) -> Result<(), Fail> {
        assert!(rt; is_coded(&rt, 0, Insn::Plain(0x60), &[], &[0x60])?);
        let bipush = Insn::Push {
            op: 0x10,
            value: -128,
        };
        assert!(rt; is_coded(&rt, 0, bipush, &[], &[0x10, 0x80])?);
        let sipush = Insn::Push {
            op: 0x11,
            value: -2,
        };
        assert!(rt; is_coded(&rt, 0, sipush, &[], &[0x11, 0xff, 0xfe])?);
        let ldc = Insn::Pooled { op: 0x12, index: 5 };
        assert!(rt; is_coded(&rt, 0, ldc, &[], &[0x12, 0x05])?);
        let invokestatic = Insn::Pooled {
            op: 0xb8,
            index: 258,
        };
        assert!(rt; is_coded(&rt, 0, invokestatic, &[], &[0xb8, 0x01, 0x02])?);
        let invokeinterface = Insn::Pooled { op: 0xb9, index: 7 };
        assert!(rt; is_coded(&rt, 0, invokeinterface, &[2, 0], &[0xb9, 0, 7, 2, 0])?);
        assert!(rt; is_coded(&rt, 0, Insn::Array(10), &[], &[0xbc, 0x0a])?);
        let goto = Insn::Jump { op: 0xa7, by: -3 };
        assert!(rt; is_coded(&rt, 0, goto, &[], &[0xa7, 0xff, 0xfd])?);
        let goto_w = Insn::Jump {
            op: 0xc8,
            by: 70000,
        };
        assert!(rt; is_coded(&rt, 0, goto_w, &[], &[0xc8, 0x00, 0x01, 0x11, 0x70])?);
        Ok(())
    }

    #[test]
    fn switches_are_padded_by_their_pc(rt: HostRuntime) -> Result<(), Fail> {
        let offsets = [0, 0, 0, 0x14, 0, 0, 0, 0x18];
        let table = Insn::TableSwitch {
            other: 16,
            low: 1,
            high: 2,
            at: 16,
        };
        let at_0 = [
            0xaa, 0, 0, 0, 0, 0, 0, 0x10, 0, 0, 0, 1, 0, 0, 0, 2, 0, 0, 0, 0x14, 0, 0, 0, 0x18,
        ];
        assert!(rt; is_coded(&rt, 0, table, &offsets, &at_0)?);
        let at_3 = [
            0xaa, 0, 0, 0, 0x10, 0, 0, 0, 1, 0, 0, 0, 2, 0, 0, 0, 0x14, 0, 0, 0, 0x18,
        ];
        assert!(rt; is_coded(&rt, 3, table, &offsets, &at_3)?);
        let pairs = [0, 0, 0, 5, 0, 0, 0, 0x20];
        let lookup = Insn::LookupSwitch {
            other: -16,
            pairs: 1,
            at: 12,
        };
        let at_1 = [
            0xab, 0, 0, 0xff, 0xff, 0xff, 0xf0, 0, 0, 0, 1, 0, 0, 0, 5, 0, 0, 0, 0x20,
        ];
        assert!(rt; is_coded(&rt, 1, lookup, &pairs, &at_1)?);
        let at_2 = [
            0xab, 0, 0xff, 0xff, 0xff, 0xf0, 0, 0, 0, 1, 0, 0, 0, 5, 0, 0, 0, 0x20,
        ];
        assert!(rt; is_coded(&rt, 2, lookup, &pairs, &at_2)?);
        Ok(())
    }
}
