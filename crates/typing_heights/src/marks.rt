//! Heights that are given to pcs.
ghost use Rattle.std.specs.Prelude.{◌≡◌, ◌<◌, true, Some, length, slice_set, OnOk};
ghost use Rattle.typing_heights.specs.Marks.{is_unknown, marked, all_marked, handler_marked, handlers_marked};

use crate::spots::covers;
use jo_ids::Memory;
use jo_prog::program::Row;

fn is_unknown(heights: &[Option<u16>], pc: u32) -> bool
    ensures value { result ≡ is_unknown heights.now pc }
    ensures inside { result ≡ true → pc < length heights.now }
{
    match heights.get(pc as usize) {
        Some(None) => true,
        Some(Some(_)) => false,
        None => false,
    }
}

fn put(heights: &mut [Option<u16>], pc: u32, height: u16)
    requires { pc < length heights.old }
    ensures { heights.new ≡ slice_set heights.old pc (Some height) }
{
    heights[pc as usize] = Some(height);
}

/// Gives the pc this height, and adds it to what is found, where it has none.
#[tactic(auto, using(crate::proofs::MarkSteps::marked_is, crate::proofs::MarkSteps::stays_marked))]
fn mark(
    heights: &mut [Option<u16>],
    found: &mut Vec<u32>,
    to: u32,
    height: u16,
) -> Result<(), Memory>
    ensures { OnOk result (record { heights = heights.new; found = found.new.items } ≡ marked to height (record { heights = heights.old; found = found.old.items })) }
{
    if !is_unknown(heights, to) {
        return Ok(());
    }
    found.push(to)?;
    put(heights, to, height);
    Ok(())
}

/// The same for each of these pcs.
pub(crate) fn mark_all(
    heights: &mut [Option<u16>],
    found: &mut Vec<u32>,
    targets: &[u32],
    height: u16,
) -> Result<(), Memory>
    ensures { OnOk result (record { heights = heights.new; found = found.new.items } ≡ all_marked height targets.now (record { heights = heights.old; found = found.old.items })) }
{
    for to in targets {
        mark(heights, found, *to, height)?;
    }
    Ok(())
}

fn mark_handler(
    heights: &mut [Option<u16>],
    found: &mut Vec<u32>,
    pc: u32,
    row: &Row,
) -> Result<(), Memory>
    ensures { OnOk result (record { heights = heights.new; found = found.new.items } ≡ handler_marked pc row.now (record { heights = heights.old; found = found.old.items })) }
{
    if covers(pc, row) {
        mark(heights, found, u32::from(row.handler), 1)?;
    }
    Ok(())
}

/// The same for the handlers of the rows over a pc, whose height is 1.
pub(crate) fn mark_handlers(
    heights: &mut [Option<u16>],
    found: &mut Vec<u32>,
    pc: u32,
    rows: &[Row],
) -> Result<(), Memory>
    ensures { OnOk result (record { heights = heights.new; found = found.new.items } ≡ handlers_marked pc rows.now (record { heights = heights.old; found = found.old.items })) }
{
    for row in rows {
        mark_handler(heights, found, pc, row)?;
    }
    Ok(())
}
