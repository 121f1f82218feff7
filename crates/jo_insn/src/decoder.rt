//! Reads instructions from code.
ghost use Rattle.std.specs.Prelude.{◌≡◌, ◌≤◌, ◌+◌, ◌*◌, ◌<◌, ◌^◌, ℕ, length, drop};
ghost use Rattle.jo_insn.specs.Instructions;
ghost use Rattle.jo_insn.specs.Instructions.{decoded, number_in, signed_in, rises, keys_of};
ghost use Rattle.jo_insn.specs.Keys.{key_at};

use crate::instructions::{Insn, InsnFault};
use crate::opcodes::{Operands, operands_of};
use byteorder::{BigEndian, ByteOrder};

/// The greatest opcode that an instruction has (jsr_w).
const LAST_OPCODE: u8 = 201;

/// The bytes behind the first `count`: none where there are no more.
pub fn behind(bytes: &[u8], count: usize) -> &[u8]
    ensures { result.now ≡ drop count bytes.now }
{
    if count < bytes.len() {
        &bytes[count..]
    } else {
        &[]
    }
}

fn byte(bytes: &[u8]) -> Result<u8, InsnFault>
    ensures { result ≡ number_in 1 bytes.now }
{
    if bytes.is_empty() {
        return Err(InsnFault::Cut);
    }
    Ok(bytes[0])
}

fn short(bytes: &[u8]) -> Result<u16, InsnFault>
    ensures { result ≡ number_in 2 bytes.now }
{
    if bytes.len() < 2 {
        return Err(InsnFault::Cut);
    }
    Ok(BigEndian::read_u16(bytes))
}

fn int(bytes: &[u8]) -> Result<u32, InsnFault>
    ensures { result ≡ number_in 4 bytes.now }
{
    if bytes.len() < 4 {
        return Err(InsnFault::Cut);
    }
    Ok(BigEndian::read_u32(bytes))
}

fn signed_byte(bytes: &[u8]) -> Result<i8, InsnFault>
    ensures { result ≡ signed_in 1 bytes.now }
{
    Ok(byte(bytes)?.cast_signed())
}

fn signed_short(bytes: &[u8]) -> Result<i16, InsnFault>
    ensures { result ≡ signed_in 2 bytes.now }
{
    Ok(short(bytes)?.cast_signed())
}

fn signed_int(bytes: &[u8]) -> Result<i32, InsnFault>
    ensures { result ≡ signed_in 4 bytes.now }
{
    Ok(int(bytes)?.cast_signed())
}

/// How many bytes of padding a switch at this pc has.
fn padding_at(pc: u32) -> u32
    ensures { result ≡ Instructions.padding_at pc }
{
    3 - pc % 4
}

/// What stands behind the padding of a switch.
fn behind_padding(rest: &[u8], pc: u32) -> &[u8]
    ensures { result.now ≡ drop (Instructions.padding_at pc) rest.now }
{
    behind(rest, padding_at(pc) as usize)
}

/// A tableswitch from its default on.
fn table_switch(rest: &[u8], pc: u32) -> Result<(Insn, u32), InsnFault>
    requires { pc + length rest.now < 2 ^ 31 }
    ensures { result ≡ Instructions.table_switch pc rest.now }
{
    let other = signed_int(rest)?;
    let low = signed_int(behind(rest, 4))?;
    let high = signed_int(behind(rest, 8))?;
    if high < low {
        return Err(InsnFault::Malformed);
    }
    let size = 4 * (u64::from(high.abs_diff(low)) + 1);
    if (behind(rest, 12).len() as u64) < size {
        return Err(InsnFault::Cut);
    }
    let at = pc + 1 + padding_at(pc) + 12;
    let insn = Insn::TableSwitch {
        other,
        low,
        high,
        at,
    };
    Ok((insn, at + size as u32))
}

/// The key of a pair of a lookupswitch.
fn key_at(table: &[u8], pair: usize) -> i32
    requires { 8 * pair + 8 ≤ length table.now }
    ensures { result ≡ key_at pair table.now }
{
    BigEndian::read_i32(&table[8 * pair..])
}

/// Whether each key of so many pairs is less than the next.
#[tactic(auto, using(crate::proofs::DecoderLemmas::keys))]
fn keys_rise(table: &[u8], pairs: usize) -> bool
    requires { 8 * pairs ≤ length table.now }
    ensures { result ≡ rises (keys_of pairs table.now) }
{
    for pair in 1..pairs {
        if key_at(table, pair - 1) >= key_at(table, pair) {
            return false;
        }
    }
    true
}

/// A lookupswitch from its default on.
fn lookup_switch(rest: &[u8], pc: u32) -> Result<(Insn, u32), InsnFault>
    requires { pc + length rest.now < 2 ^ 31 }
    ensures { result ≡ Instructions.lookup_switch pc rest.now }
{
    let other = signed_int(rest)?;
    let pairs = int(behind(rest, 4))?;
    if pairs >= 1 << 31 {
        return Err(InsnFault::Malformed);
    }
    let table = behind(rest, 8);
    let size = 8 * u64::from(pairs);
    if (table.len() as u64) < size {
        return Err(InsnFault::Cut);
    }
    if !keys_rise(table, pairs as usize) {
        return Err(InsnFault::Malformed);
    }
    let at = pc + 1 + padding_at(pc) + 8;
    let insn = Insn::LookupSwitch { other, pairs, at };
    Ok((insn, at + size as u32))
}

/// An array of this kind. The profile has none of float, double or long.
fn array_of(op: u8, kind: u8, pc: u32) -> Result<(Insn, u32), InsnFault>
    requires { pc < 2 ^ 31 }
    ensures { result ≡ Instructions.array_of pc op kind }
{
    match kind {
        4 | 5 | 8..=10 => Ok((Insn::Array(kind), pc + 2)),
        6 | 7 | 11 => Err(InsnFault::Outside(op)),
        _ => Err(InsnFault::Malformed),
    }
}

/// An instruction whose operands are widened, from its opcode on.
fn behind_wide(prefix: u8, bytes: &[u8], pc: u32) -> Result<(Insn, u32), InsnFault>
    requires { pc + length bytes.now < 2 ^ 31 }
    ensures { result ≡ Instructions.behind_wide pc prefix bytes.now }
{
    let [op, rest @ ..] = bytes else {
        return Err(InsnFault::Cut);
    };
    let op = *op;
    let wide = true;
    match operands_of(op) {
        Some(Operands::LocalByte) => {
            let index = short(rest)?;
            Ok((Insn::Local { op, index, wide }, pc + 4))
        }
        Some(Operands::LocalAndStep) => {
            let index = short(rest)?;
            let by = signed_short(behind(rest, 2))?;
            Ok((Insn::Iinc { index, by, wide }, pc + 6))
        }
        _ => Err(InsnFault::Outside(prefix)),
    }
}

fn local(op: u8, rest: &[u8], pc: u32) -> Result<(Insn, u32), InsnFault>
    requires { pc < 2 ^ 31 }
    ensures { result ≡ Instructions.with_operands pc op rest.now (Some Operands.LocalByte) }
{
    let index = u16::from(byte(rest)?);
    let wide = false;
    Ok((Insn::Local { op, index, wide }, pc + 2))
}

fn local_and_step(rest: &[u8], pc: u32) -> Result<(Insn, u32), InsnFault>
    requires { pc < 2 ^ 31 }
    ensures { (op : ℕ) → result ≡ Instructions.with_operands pc op rest.now (Some Operands.LocalAndStep) }
{
    let index = u16::from(byte(rest)?);
    let by = i16::from(signed_byte(behind(rest, 1))?);
    let wide = false;
    Ok((Insn::Iinc { index, by, wide }, pc + 3))
}

/// An instruction from the byte behind its opcode on.
fn with_operands(op: u8, operands: Operands, rest: &[u8], pc: u32) -> Result<(Insn, u32), InsnFault>
    requires { pc + length rest.now < 2 ^ 31 }
    ensures { result ≡ Instructions.with_operands pc op rest.now (Some operands) }
{
    match operands {
        Operands::NoOperand => Ok((Insn::Plain(op), pc + 1)),
        Operands::SignedByte => {
            let value = i32::from(signed_byte(rest)?);
            Ok((Insn::Push { op, value }, pc + 2))
        }
        Operands::SignedShort => {
            let value = i32::from(signed_short(rest)?);
            Ok((Insn::Push { op, value }, pc + 3))
        }
        Operands::LocalByte => local(op, rest, pc),
        Operands::LocalAndStep => local_and_step(rest, pc),
        Operands::WidePrefix => behind_wide(op, rest, pc),
        Operands::PoolByte => {
            let index = u16::from(byte(rest)?);
            Ok((Insn::Pooled { op, index }, pc + 2))
        }
        Operands::PoolShort => {
            let index = short(rest)?;
            Ok((Insn::Pooled { op, index }, pc + 3))
        }
        Operands::PoolShortAndTwo => {
            let index = short(rest)?;
            short(behind(rest, 2))?;
            Ok((Insn::Pooled { op, index }, pc + 5))
        }
        Operands::ArrayKind => array_of(op, byte(rest)?, pc),
        Operands::OffsetShort => {
            let by = i32::from(signed_short(rest)?);
            Ok((Insn::Jump { op, by }, pc + 3))
        }
        Operands::OffsetInt => {
            let by = signed_int(rest)?;
            Ok((Insn::Jump { op, by }, pc + 5))
        }
        Operands::OffsetTable => table_switch(behind_padding(rest, pc), pc),
        Operands::KeyTable => lookup_switch(behind_padding(rest, pc), pc),
    }
}

/// The instruction at a pc, and the pc behind it. The padding of a switch and the two bytes behind the index of an
/// invokeinterface may hold anything.
#[tactic(auto, unfolding(crate::specs::Instructions::decoded))]
pub fn decode(code: &[u8], pc: u32) -> Result<(Insn, u32), InsnFault>
    requires { length code.now < 2 ^ 31 }
    ensures { result ≡ decoded code.now pc }
{
    let [op, rest @ ..] = behind(code, pc as usize) else {
        return Err(InsnFault::Cut);
    };
    match operands_of(*op) {
        Some(operands) => with_operands(*op, operands, rest, pc),
        None if *op <= LAST_OPCODE => Err(InsnFault::Outside(*op)),
        None => Err(InsnFault::Unknown(*op)),
    }
}

#[cfg(test)]
mod tests;
