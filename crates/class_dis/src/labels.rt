//! Which pcs of some code have a label.
ghost use Rattle.std.specs.Prelude.{◌≡◌, ◌<◌, ◌^◌, length, OnOk, IfOk};
ghost use Rattle.std.specs.List.{AllByRecursion, flat_map};
ghost use Rattle.jo_insn.specs.Jumps.{IsPlacedIn};
ghost use Rattle.jo_insn.specs.Marks.{marked};
ghost use Rattle.class_dis.specs.Insns.{insns_of};
ghost use Rattle.class_dis.specs.Labels.{targets_in, bounds_of, AreLabels};

use class_pool::{CodeInfo, RowInfo};
use jo_ids::Memory;
use jo_insn::{PcMarks, Placed, targets_of};
use std::alloc::Global;

fn mark_all(marks: &mut PcMarks, pcs: &[i64])
    ensures { marks.new ≡ marked marks.old pcs.now }
{
    for pc in pcs {
        marks.mark(*pc);
    }
}

fn mark_jumps(
    alloc: Global,
    marks: &mut PcMarks,
    code: &[u8],
    insns: &[Placed],
) -> Result<(), Memory>
    requires { AllByRecursion (IsPlacedIn code.now) insns.now }
    ensures { OnOk result (marks.new ≡ marked marks.old (flat_map (targets_in code.now) insns.now)) }
{
    for placed in insns {
        let targets = targets_of(alloc, code, placed)?;
        mark_all(marks, targets.as_slice());
    }
    Ok(())
}

fn mark_rows(marks: &mut PcMarks, rows: &[RowInfo])
    ensures { marks.new ≡ marked marks.old (flat_map bounds_of rows.now) }
{
    for row in rows {
        marks.mark(i64::from(row.start));
        marks.mark(i64::from(row.end));
        marks.mark(i64::from(row.handler));
    }
}

/// A mark for each pc of the code, and one for its end: whether it has a label.
pub fn labels(alloc: Global, code: &CodeInfo, insns: &[Placed]) -> Result<PcMarks, Memory>
    requires short { length code.now.bytes < 2 ^ 16 }
    requires insns { insns.now ≡ insns_of code.now.bytes }
    ensures { IfOk result (λ marks. AreLabels code.now marks) }
{
    let bytes = code.bytes.as_slice();
    let mut marks = PcMarks::none(alloc, bytes.len() + 1)?;
    mark_jumps(alloc, &mut marks, bytes, insns)?;
    mark_rows(&mut marks, code.rows.as_slice());
    Ok(marks)
}
