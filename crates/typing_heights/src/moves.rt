//! Where the code goes on from the pcs that have a height.
ghost use Rattle.std.specs.Prelude.{◌≡◌, ◌↔◌, Contains, length, slice_get, IfOk, OnOk};
ghost use Rattle.std.specs.Option.{option_copied};
ghost use Rattle.typing_heights.specs.declared.moves.Move.{Move};
ghost use Rattle.typing_heights.specs.Adds.{Adds, From, FromBelow};
ghost use Rattle.typing_heights.specs.Moves.{LeavesFrom, LeavesAt, IsMove, HandlerMove, plain_move};
ghost use Rattle.typing_heights.specs.Searches.{height_at};
ghost use Rattle.typing_heights.specs.Subjects.{program_of, typable_of, IsSubject};

use crate::search::known_height;
use crate::spots::{covers, goes_on, spot_at};
use crate::subjects::Subject;
use jo_ids::Memory;
use jo_prog::program::Row;
use std::alloc::{AllocError, Global};

/// A step of the code, and the height behind it.
#[derive(Clone, Copy)]
pub struct Move {
    pub from: u32,
    /// The place in the table of the row that is taken. `None` where no exception is.
    pub row: Option<usize>,
    pub to: u32,
    pub height: u16,
}

fn add_plain(moves: &mut Vec<Move>, from: u32, height: u16, targets: &[u32]) -> Result<(), Memory>
    ensures { OnOk result (Adds (Contains moves.old.items) (Contains moves.new.items) (From targets.now (λ to m. m ≡ plain_move from height to))) }
{
    for to in targets {
        moves.push(Move {
            from,
            row: None,
            to: *to,
            height,
        })?;
    }
    Ok(())
}

fn row_at(rows: &[Row], place: usize) -> Option<&Row>
    ensures { option_copied result ≡ slice_get rows.now place }
{
    rows.get(place)
}

fn add_handler(moves: &mut Vec<Move>, from: u32, rows: &[Row], place: usize) -> Result<(), Memory>
    ensures { OnOk result (Adds (Contains moves.old.items) (Contains moves.new.items) (HandlerMove rows.now from place)) }
{
    let Some(row) = row_at(rows, place) else {
        return Ok(());
    };
    if !covers(from, row) {
        return Ok(());
    }
    moves.push(Move {
        from,
        row: Some(place),
        to: u32::from(row.handler),
        height: 1,
    })?;
    Ok(())
}

fn add_handlers(moves: &mut Vec<Move>, from: u32, rows: &[Row]) -> Result<(), Memory>
    ensures { OnOk result (Adds (Contains moves.old.items) (Contains moves.new.items) (FromBelow (length rows.now) (HandlerMove rows.now from))) }
{
    for place in 0..rows.len() {
        add_handler(moves, from, rows, place)?;
    }
    Ok(())
}

/// The steps from a pc at this height.
fn leave(
    alloc: Global,
    subject: &Subject<'_>,
    moves: &mut Vec<Move>,
    pc: u32,
    height: u16,
) -> Result<(), Memory>
    requires { IsSubject subject.now }
    ensures { OnOk result (Adds (Contains moves.old.items) (Contains moves.new.items) (LeavesFrom (program_of subject.now) (typable_of subject.now) pc height)) }
{
    let spot = spot_at(alloc, subject, pc)?;
    let Some(onward) = goes_on(subject, spot, pc, height) else {
        return Ok(());
    };
    add_plain(moves, pc, onward.height, onward.plain.as_slice())?;
    add_handlers(moves, pc, subject.code.rows.as_slice())?;
    Ok(())
}

/// The steps from a pc, where it has a height.
pub fn leave_at(
    alloc: Global,
    subject: &Subject<'_>,
    heights: &[Option<u16>],
    moves: &mut Vec<Move>,
    pc: u32,
) -> Result<(), Memory>
    requires { IsSubject subject.now }
    ensures { OnOk result (Adds (Contains moves.old.items) (Contains moves.new.items) (LeavesAt (program_of subject.now) (typable_of subject.now) pc (height_at heights.now pc))) }
{
    match known_height(heights, pc) {
        Some(height) => {
            leave(alloc, subject, moves, pc, height)?;
            Ok(())
        }
        None => Ok(()),
    }
}

/// The steps from all pcs that have a height.
pub fn moves_of(
    alloc: Global,
    subject: &Subject<'_>,
    heights: &[Option<u16>],
) -> Result<Vec<Move>, Memory>
    requires { IsSubject subject.now }
    ensures { IfOk result (λ moves. (m : Move) → Contains moves.items m ↔ IsMove (program_of subject.now) (typable_of subject.now) heights.now m) }
{
    let mut moves = Vec::new(alloc);
    for place in 0..heights.len() {
        let Ok(pc) = u32::try_from(place) else {
            return Err(AllocError);
        };
        leave_at(alloc, subject, heights, &mut moves, pc)?;
    }
    Ok(moves)
}
