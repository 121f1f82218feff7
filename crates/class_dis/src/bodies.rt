//! The lines of a method's code.
ghost use Rattle.std.specs.Prelude.{◌≡◌, ◌++◌, ◌<◌, ◌^◌, pos, length, OnOk};
ghost use Rattle.std.specs.List.{AllByRecursion, flat_map};
ghost use Rattle.jo_insn.specs.Jumps.{IsPlacedIn};
ghost use Rattle.jo_insn.specs.Marks.{is_marked};
ghost use Rattle.class_dis.specs.Listing.{label_line, insn_lines, catch_word, catch_line, body_lines};

use crate::instructions::instructions;
use crate::labels::labels;
use crate::operands::push_insn;
use crate::words::{push_class, push_label};
use class_pool::{CodeInfo, PoolEntry, RowInfo, class_name_at};
use jo_insn::{PcMarks, Placed};
use jo_text::Memory;
use std::alloc::Global;

/// The line of a label, where the pc is marked.
fn push_label_line(
    alloc: Global,
    out: &mut Vec<u8>,
    marks: &PcMarks,
    pc: usize,
) -> Result<(), Memory>
    requires { pc < 2 ^ 32 }
    ensures { OnOk result (out.new.items ≡ out.old.items ++ label_line (is_marked marks.now (pos pc)) pc) }
{
    if !marks.is_marked(pc as i64) {
        return Ok(());
    }
    push_label(alloc, out, pc as i64)?;
    out.extend_from_slice(b":\n")
}

fn push_placed(
    alloc: Global,
    out: &mut Vec<u8>,
    pool: &[PoolEntry],
    code: &[u8],
    marks: &PcMarks,
    placed: &Placed,
) -> Result<(), Memory>
    requires { IsPlacedIn code.now placed.now }
    ensures { OnOk result (out.new.items ≡ out.old.items ++ insn_lines pool.now code.now (λ pc. is_marked marks.now (pos pc)) placed.now) }
{
    push_label_line(alloc, out, marks, placed.pc as usize)?;
    push_insn(alloc, out, pool, code, placed)
}

/// The instructions, each behind its label where its pc is marked.
fn push_insns(
    alloc: Global,
    out: &mut Vec<u8>,
    pool: &[PoolEntry],
    code: &[u8],
    marks: &PcMarks,
    insns: &[Placed],
) -> Result<(), Memory>
    requires { AllByRecursion (IsPlacedIn code.now) insns.now }
    ensures { OnOk result (out.new.items ≡ out.old.items ++ flat_map (insn_lines pool.now code.now (λ pc. is_marked marks.now (pos pc))) insns.now) }
{
    for placed in insns {
        push_placed(alloc, out, pool, code, marks, placed)?;
    }
    Ok(())
}

/// What a row catches: `any` for all, so a class of this name is spelled otherwise.
fn push_catch(out: &mut Vec<u8>, pool: &[PoolEntry], catch_type: u16) -> Result<(), Memory>
    ensures { OnOk result (out.new.items ≡ out.old.items ++ catch_word pool.now catch_type) }
{
    if catch_type == 0 {
        return out.extend_from_slice(b"any");
    }
    if class_name_at(pool, catch_type) == Some(b"any".as_slice()) {
        return out.extend_from_slice(b"Lany;");
    }
    push_class(out, pool, catch_type)
}

fn push_row(
    alloc: Global,
    out: &mut Vec<u8>,
    pool: &[PoolEntry],
    row: &RowInfo,
) -> Result<(), Memory>
    ensures { OnOk result (out.new.items ≡ out.old.items ++ catch_line pool.now row.now) }
{
    out.extend_from_slice(b"catch ")?;
    push_label(alloc, out, i64::from(row.start))?;
    out.push(b' ')?;
    push_label(alloc, out, i64::from(row.end))?;
    out.push(b' ')?;
    push_label(alloc, out, i64::from(row.handler))?;
    out.push(b' ')?;
    push_catch(out, pool, row.catch_type)?;
    out.push(b'\n')?;
    Ok(())
}

fn push_rows(
    alloc: Global,
    out: &mut Vec<u8>,
    pool: &[PoolEntry],
    rows: &[RowInfo],
) -> Result<(), Memory>
    ensures { OnOk result (out.new.items ≡ out.old.items ++ flat_map (catch_line pool.now) rows.now) }
{
    for row in rows {
        push_row(alloc, out, pool, row)?;
    }
    Ok(())
}

/// The lines of a method's code, its `end` among them.
pub fn push_body(
    alloc: Global,
    out: &mut Vec<u8>,
    pool: &[PoolEntry],
    code: &CodeInfo,
) -> Result<(), Memory>
    requires { length code.now.bytes < 2 ^ 16 }
    ensures { OnOk result (out.new.items ≡ out.old.items ++ body_lines pool.now code.now) }
{
    let bytes = code.bytes.as_slice();
    let insns = instructions(alloc, bytes)?;
    let marks = labels(alloc, code, insns.as_slice())?;
    push_insns(alloc, out, pool, bytes, &marks, insns.as_slice())?;
    push_label_line(alloc, out, &marks, bytes.len())?;
    push_rows(alloc, out, pool, code.rows.as_slice())?;
    out.extend_from_slice(b"end\n")
}
