//! The lines of instructions.
ghost use Rattle.std.specs.Prelude.{◌≡◌, ◌++◌, ◌∷◌, [], ◌+◌, ◌*◌, ◌≤◌, length, map, codes, OnOk};
ghost use Rattle.std.specs.Fmt.{decimal, signed_decimal};
ghost use Rattle.byteorder.specs.Endian.{big_number, twos_complement};
ghost use Rattle.class_pool.specs.Pool.{entry_at as entry_with};
ghost use Rattle.jo_insn.specs.Jumps.{IsPlacedIn};
ghost use Rattle.class_dis.specs.Words.{joined, spaced, line, label, entry_word};
ghost use Rattle.class_dis.specs.Listing.{op_word, widened, kind_word, pair_words, lookup_words, insn_words};

use crate::words::{push_entry, push_label, push_number, push_signed};
use byteorder::{BigEndian, ByteOrder};
use class_pool::PoolEntry;
use jo_insn::{Insn, Placed, behind, name_of, name_of_kind, targets_of};
use jo_text::Memory;
use std::alloc::Global;

fn push_op(out: &mut Vec<u8>, op: u8) -> Result<(), Memory>
    ensures { OnOk result (out.new.items ≡ out.old.items ++ op_word op) }
{
    match name_of(op) {
        Some(name) => out.extend_from_slice(name.as_bytes()),
        None => Ok(()),
    }
}

fn push_kind(out: &mut Vec<u8>, kind: u8) -> Result<(), Memory>
    ensures { OnOk result (out.new.items ≡ out.old.items ++ kind_word kind) }
{
    match name_of_kind(kind) {
        Some(name) => out.extend_from_slice(name.as_bytes()),
        None => Ok(()),
    }
}

/// The opcode of an instruction that may be widened, and its local.
fn push_local(
    alloc: Global,
    out: &mut Vec<u8>,
    op: u8,
    index: u16,
    wide: bool,
) -> Result<(), Memory>
    ensures { OnOk result (out.new.items ≡ out.old.items ++ joined (widened wide (op_word op ∷ decimal index ∷ []))) }
{
    let prefix: &[u8] = if wide { b"wide " } else { b"" };
    out.extend_from_slice(prefix)?;
    push_op(out, op)?;
    out.push(b' ')?;
    push_number(alloc, out, u32::from(index))
}

fn push_step(
    alloc: Global,
    out: &mut Vec<u8>,
    index: u16,
    by: i16,
    wide: bool,
) -> Result<(), Memory>
    ensures { OnOk result (out.new.items ≡ out.old.items ++ joined (widened wide (codes "iinc" ∷ decimal index ∷ signed_decimal by ∷ []))) }
{
    let word: &[u8] = if wide { b"wide iinc " } else { b"iinc " };
    out.extend_from_slice(word)?;
    push_number(alloc, out, u32::from(index))?;
    out.push(b' ')?;
    push_signed(alloc, out, i64::from(by))
}

fn push_push(alloc: Global, out: &mut Vec<u8>, op: u8, value: i32) -> Result<(), Memory>
    ensures { OnOk result (out.new.items ≡ out.old.items ++ joined (op_word op ∷ signed_decimal value ∷ [])) }
{
    push_op(out, op)?;
    out.push(b' ')?;
    push_signed(alloc, out, i64::from(value))
}

fn push_pooled(
    alloc: Global,
    out: &mut Vec<u8>,
    pool: &[PoolEntry],
    op: u8,
    index: u16,
) -> Result<(), Memory>
    ensures { OnOk result (out.new.items ≡ out.old.items ++ joined (op_word op ∷ entry_word pool.now (entry_with pool.now index) ∷ [])) }
{
    push_op(out, op)?;
    out.push(b' ')?;
    push_entry(alloc, out, pool, index)
}

/// A space, and the label of a pc.
fn push_target(alloc: Global, out: &mut Vec<u8>, pc: i64) -> Result<(), Memory>
    ensures { OnOk result (out.new.items ≡ out.old.items ++ 32 ∷ label pc) }
{
    out.push(b' ')?;
    push_label(alloc, out, pc)
}

/// The labels of these pcs.
fn push_targets(alloc: Global, out: &mut Vec<u8>, targets: &[i64]) -> Result<(), Memory>
    ensures { OnOk result (out.new.items ≡ out.old.items ++ spaced (map label targets.now)) }
{
    for target in targets {
        push_target(alloc, out, *target)?;
    }
    Ok(())
}

/// The opcode of a jump, and the labels of its targets.
fn push_jump(alloc: Global, out: &mut Vec<u8>, op: u8, targets: &[i64]) -> Result<(), Memory>
    ensures { OnOk result (out.new.items ≡ out.old.items ++ joined (op_word op ∷ map label targets.now)) }
{
    push_op(out, op)?;
    push_targets(alloc, out, targets)
}

/// A space, and the key that begins the table.
fn push_key(alloc: Global, out: &mut Vec<u8>, table: &[u8]) -> Result<(), Memory>
    requires { 4 ≤ length table.now }
    ensures { OnOk result (out.new.items ≡ out.old.items ++ 32 ∷ signed_decimal (twos_complement 4 (big_number 4 table.now))) }
{
    out.push(b' ')?;
    push_signed(alloc, out, i64::from(BigEndian::read_i32(table)))
}

/// The key that begins the table, and the label of its target.
fn push_pair(alloc: Global, out: &mut Vec<u8>, table: &[u8], target: i64) -> Result<(), Memory>
    requires { 4 ≤ length table.now }
    ensures { OnOk result (out.new.items ≡ out.old.items ++ spaced (signed_decimal (twos_complement 4 (big_number 4 table.now)) ∷ label target ∷ [])) }
{
    push_key(alloc, out, table)?;
    push_target(alloc, out, target)
}

/// The keys of a table of pairs, each with the label of its target.
fn push_pairs(alloc: Global, out: &mut Vec<u8>, table: &[u8], targets: &[i64]) -> Result<(), Memory>
    requires { 8 * length targets.now ≤ length table.now }
    ensures { OnOk result (out.new.items ≡ out.old.items ++ spaced (pair_words table.now targets.now)) }
{
    let mut table = table;
    for target in targets {
        push_pair(alloc, out, table, *target)?;
        table = behind(table, 8);
    }
    Ok(())
}

/// The words of a tableswitch.
fn push_table(alloc: Global, out: &mut Vec<u8>, low: i32, targets: &[i64]) -> Result<(), Memory>
    ensures { OnOk result (out.new.items ≡ out.old.items ++ joined (codes "tableswitch" ∷ signed_decimal low ∷ map label targets.now)) }
{
    out.extend_from_slice(b"tableswitch ")?;
    push_signed(alloc, out, i64::from(low))?;
    push_targets(alloc, out, targets)
}

/// The words of a lookupswitch: the default's label, and the pairs of the table.
fn push_lookup(
    alloc: Global,
    out: &mut Vec<u8>,
    table: &[u8],
    targets: &[i64],
) -> Result<(), Memory>
    requires { 8 * length targets.now ≤ length table.now + 8 }
    ensures { OnOk result (out.new.items ≡ out.old.items ++ joined (codes "lookupswitch" ∷ lookup_words table.now targets.now)) }
{
    out.extend_from_slice(b"lookupswitch")?;
    match targets {
        [default, targets @ ..] => {
            push_target(alloc, out, *default)?;
            push_pairs(alloc, out, table, targets)
        }
        [] => Ok(()),
    }
}

/// The words of an instruction of this code.
fn push_words(
    alloc: Global,
    out: &mut Vec<u8>,
    pool: &[PoolEntry],
    code: &[u8],
    placed: &Placed,
) -> Result<(), Memory>
    requires { IsPlacedIn code.now placed.now }
    ensures { OnOk result (out.new.items ≡ out.old.items ++ joined (insn_words pool.now code.now placed.now.pc placed.now.insn)) }
{
    let targets = targets_of(alloc, code, placed)?;
    let targets = targets.as_slice();
    match placed.insn {
        Insn::Plain(op) => push_op(out, op),
        Insn::Local { op, index, wide } => push_local(alloc, out, op, index, wide),
        Insn::Iinc { index, by, wide } => push_step(alloc, out, index, by, wide),
        Insn::Push { op, value } => push_push(alloc, out, op, value),
        Insn::Pooled { op, index } => push_pooled(alloc, out, pool, op, index),
        Insn::Array(kind) => {
            out.extend_from_slice(b"newarray ")?;
            push_kind(out, kind)
        }
        Insn::Jump { op, .. } => push_jump(alloc, out, op, targets),
        Insn::TableSwitch { low, .. } => push_table(alloc, out, low, targets),
        Insn::LookupSwitch { at, .. } => {
            push_lookup(alloc, out, behind(code, at as usize), targets)
        }
    }
}

/// The line of an instruction of this code.
pub fn push_insn(
    alloc: Global,
    out: &mut Vec<u8>,
    pool: &[PoolEntry],
    code: &[u8],
    placed: &Placed,
) -> Result<(), Memory>
    requires { IsPlacedIn code.now placed.now }
    ensures { OnOk result (out.new.items ≡ out.old.items ++ line (insn_words pool.now code.now placed.now.pc placed.now.insn)) }
{
    push_words(alloc, out, pool, code, placed)?;
    out.push(b'\n')?;
    Ok(())
}
