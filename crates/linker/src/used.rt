//! The pool entries that the instructions of a class name.
ghost use Rattle.std.specs.Prelude.{◌≡◌, Some, ℕ, ◌+◌, ◌<◌, ◌≤◌, ◌^◌, length, IfOk, OnOk};
ghost use Rattle.std.specs.List.{list_any};
ghost use Rattle.jo_ids.specs.Rows.{has_number};
ghost use Rattle.linker.specs.Linking.{index_in, is_index, names_entry, is_used_by, is_used_in, is_used};
ghost use Rattle.linker.specs.UsedEntries.{AddsThose};

use class_pool::{ClassFile, CodeInfo, MethodInfo};
use jo_ids::{BitRow, Memory};
use jo_insn::{Insn, Placed};
use jo_prog::sites::instructions;
use std::alloc::{AllocError, Global};

/// How many bytes code has at most.
const LONGEST_CODE: usize = 65_535;

fn index_in(insn: Insn) -> Option<u16>
    ensures { result ≡ index_in insn }
{
    match insn {
        Insn::Pooled { index, .. } => Some(index),
        _ => None,
    }
}

/// Adds the entry with that index. One past the end of the pool is left out.
fn add_index(used: &mut BitRow, index: Option<u16>)
    ensures { AddsThose used.old used.new (λ k. is_index k index) }
{
    let Some(index) = index else {
        return;
    };
    let index = u32::from(index);
    if index < used.len() {
        let _new = used.set(index);
    }
}

fn add_insns(used: &mut BitRow, insns: &[Placed])
    ensures { AddsThose used.old used.new (λ k. list_any (names_entry k) insns.now) }
{
    for placed in insns {
        add_index(used, index_in(placed.insn));
    }
}

fn add_code(alloc: Global, used: &mut BitRow, code: &CodeInfo) -> Result<(), Memory>
    ensures { OnOk result (AddsThose used.old used.new (λ k. is_used_by k (Some code.now))) }
{
    let bytes = code.bytes.as_slice();
    if bytes.len() > LONGEST_CODE {
        return Ok(());
    }
    let insns = instructions(alloc, bytes)?;
    add_insns(used, insns.as_slice());
    Ok(())
}

fn add_method(alloc: Global, used: &mut BitRow, method: &MethodInfo) -> Result<(), Memory>
    ensures { OnOk result (AddsThose used.old used.new (λ k. is_used_in k method.now)) }
{
    match &method.code {
        Some(code) => add_code(alloc, used, code),
        None => Ok(()),
    }
}

fn add_methods(alloc: Global, used: &mut BitRow, methods: &[MethodInfo]) -> Result<(), Memory>
    ensures { OnOk result (AddsThose used.old used.new (λ k. list_any (is_used_in k) methods.now)) }
{
    for method in methods {
        add_method(alloc, used, method)?;
    }
    Ok(())
}

/// The pool indices that the instructions of a class name.
pub(crate) fn used_entries(alloc: Global, file: &ClassFile) -> Result<BitRow, Memory>
    ensures length { IfOk result (λ used. length used ≡ length file.now.pool + 1) }
    ensures short { IfOk result (λ used. length used < 2 ^ 32) }
    ensures used { IfOk result (λ used. (k : ℕ) → k ≤ length file.now.pool → has_number used k ≡ is_used file.now k) }
{
    let count = file.pool.as_slice().len();
    if count >= u32::MAX as usize {
        return Err(AllocError);
    }
    let mut used = BitRow::with_len(alloc, count as u32 + 1)?;
    add_methods(alloc, &mut used, file.methods.as_slice())?;
    Ok(used)
}
