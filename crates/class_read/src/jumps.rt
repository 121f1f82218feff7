//! Checks the jumps of code and the rows of its exception table (JVM Specification SE 8, 4.7.3 and 4.9.1).
ghost use Rattle.std.specs.Prelude.{◌≡◌, ◌+◌, ◌*◌, ◌^◌, ◌<◌, length, IfOk};
ghost use Rattle.std.specs.List.{AllByRecursion, list_all};
ghost use Rattle.jo_insn.specs.Jumps.{IsPlacedIn, targets_of as places_of};
ghost use Rattle.jo_insn.specs.Marks.{is_marked, starts_of};
ghost use Rattle.class_pool.specs.Code;
ghost use Rattle.class_pool.specs.Outcomes.{Gives};
ghost use Rattle.class_read.specs.Starts.{jumps_pass, rows_pass, fits_by, row_by, rows_by};

use crate::parts::dims_at;
use class_pool::items::fault_at;
use class_pool::{ClassCode, KnownPool, RowInfo, Stop};
use jo_insn::{PcMarks, Placed, targets_of};
use std::alloc::{AllocError, Global};

/// Whether all of these pcs are marked.
fn are_marked(starts: &PcMarks, pcs: &[i64]) -> bool
    ensures { result ≡ list_all (is_marked starts.now) pcs.now }
{
    for pc in pcs {
        if !starts.is_marked(*pc) {
            return false;
        }
    }
    true
}

/// Whether an instruction of this code jumps to starts alone.
fn jumps_well(
    alloc: Global,
    starts: &PcMarks,
    code: &[u8],
    placed: &Placed,
) -> Result<bool, AllocError>
    requires { IsPlacedIn code.now placed.now }
    ensures { IfOk result (λ well. well ≡ list_all (is_marked starts.now) (places_of code.now placed.now.pc placed.now.insn)) }
{
    let targets = targets_of(alloc, code, placed)?;
    Ok(are_marked(starts, targets.as_slice()))
}

/// Checks the jumps of all instructions of code that stands at `place` of the file.
pub fn check_jumps(
    alloc: Global,
    place: u32,
    starts: &PcMarks,
    code: &[u8],
    insns: &[Placed],
) -> Result<(), Stop>
    requires placed { AllByRecursion (IsPlacedIn code.now) insns.now }
    requires marks { starts.now ≡ starts_of (length code.now) insns.now }
    requires room { place + length code.now < 2 ^ 32 }
    ensures { Gives (λ _. tt) result (jumps_pass place (Code.first_bad_jump code.now insns.now insns.now)) }
{
    for placed in insns {
        let well = jumps_well(alloc, starts, code, placed)?;
        if !well {
            return Err(fault_at(ClassCode::CodeBounds, place + placed.pc));
        }
    }
    Ok(())
}

/// Whether the bounds of a row lie in code of this size, where instructions start.
fn fits_code(starts: &PcMarks, size: usize, row: &RowInfo) -> bool
    ensures { result ≡ fits_by (is_marked starts.now) size row.now }
{
    row.start < row.end
        && starts.is_marked(i64::from(row.start))
        && starts.is_marked(i64::from(row.handler))
        && (usize::from(row.end) == size || starts.is_marked(i64::from(row.end)))
}

fn row_fault(pool: &KnownPool, starts: &PcMarks, size: usize, row: &RowInfo) -> Option<ClassCode>
    ensures { result ≡ row_by (is_marked starts.now) pool.now size row.now }
{
    if !fits_code(starts, size, row) {
        return Some(ClassCode::CodeBounds);
    }
    if row.catch_type == 0 || dims_at(pool, row.catch_type).is_some() {
        None
    } else {
        Some(ClassCode::PoolIndex)
    }
}

/// Checks the rows of code of this size, which stand at `place` of the file.
pub fn check_rows(
    place: u32,
    pool: &KnownPool,
    starts: &PcMarks,
    size: usize,
    rows: &[RowInfo],
) -> Result<(), Stop>
    requires { place + 8 * length rows.now < 2 ^ 32 }
    ensures { Gives (λ _. tt) result (rows_pass place (rows_by (is_marked starts.now) pool.now size 0 rows.now)) }
{
    for (k, row) in rows.iter().enumerate() {
        if let Some(fault) = row_fault(pool, starts, size, row) {
            return Err(fault_at(fault, place + 8 * k as u32));
        }
    }
    Ok(())
}
