//! The code that is kept of a method: its instructions as they are spelled with zero padding.
ghost use Rattle.std.specs.Prelude.{◌≡◌, ◌-◌, ◌++◌, ◌≤◌, length, take, drop, IfOk, OnOk};
ghost use Rattle.std.specs.List.{AllByRecursion};
ghost use Rattle.jo_insn.specs.Instructions.{spelled};
ghost use Rattle.jo_insn.specs.Jumps.{IsPlacedIn};
ghost use Rattle.class_pool.specs.Pool.{entry_at as entry_with};
ghost use Rattle.class_pool.specs.Code;
ghost use Rattle.class_read.specs.Kept.{words_of};

use class_pool::{KnownPool, PoolEntry, entry_at};
use jo_insn::{Insn, Placed, encode};
use jo_text::Name;
use std::alloc::{AllocError, Global};

const INVOKE_INTERFACE: u8 = 185;

/// The count behind the index of an invokeinterface.
fn words_of(pool: &KnownPool, index: u16) -> u8
    ensures { result ≡ words_of pool.now (entry_with pool.now index) }
{
    match entry_at(pool.entries(), index) {
        Some(PoolEntry::InterfaceMethodRef(_, member)) => {
            pool.desc_facts_at(*member).argument_words
        }
        _ => 0,
    }
}

/// The bytes of a switch from the place of its offsets or pairs on.
fn table_of(code: &[u8], at: u32, next: u32) -> &[u8]
    requires forward { at ≤ next }
    requires within { next ≤ length code.now }
    ensures { result.now ≡ take (next - at) (drop at code.now) }
{
    &code[at as usize..next as usize]
}

/// Adds the bytes of an instruction of this code.
fn add_placed(
    pool: &KnownPool,
    code: &[u8],
    placed: &Placed,
    kept: &mut Vec<u8>,
) -> Result<(), AllocError>
    requires { IsPlacedIn code.now placed.now }
    ensures { OnOk result (kept.new.items ≡ kept.old.items ++ spelled placed.now.pc placed.now.insn (Code.canonical_table pool.now code.now placed.now)) }
{
    let pc = placed.pc;
    match placed.insn {
        Insn::Pooled { op, index } => {
            if op == INVOKE_INTERFACE {
                encode(&placed.insn, &[words_of(pool, index), 0], pc, kept)
            } else {
                encode(&placed.insn, &[], pc, kept)
            }
        }
        Insn::TableSwitch { at, .. } => {
            encode(&placed.insn, table_of(code, at, placed.next), pc, kept)
        }
        Insn::LookupSwitch { at, .. } => {
            encode(&placed.insn, table_of(code, at, placed.next), pc, kept)
        }
        _ => encode(&placed.insn, &[], pc, kept),
    }
}

/// The code with zero padding and with canonical counts.
pub fn kept_code(
    alloc: Global,
    pool: &KnownPool,
    code: &[u8],
    insns: &[Placed],
) -> Result<Name, AllocError>
    requires { AllByRecursion (IsPlacedIn code.now) insns.now }
    ensures { IfOk result (λ kept. kept ≡ Code.canonical_code pool.now code.now insns.now) }
{
    let mut kept = Vec::with_capacity(alloc, code.len())?;
    for placed in insns {
        add_placed(pool, code, placed, &mut kept)?;
    }
    Ok(Name::from(kept))
}
