//! What stands at a pc of the method, and where the code goes on from there.
ghost use Rattle.std.specs.Prelude.{◌≡◌, ◌<◌, ◌^◌, ◌+◌, false, ◌||◌, ◌&&◌, ◌==◌, nat_lt, Some, length, IfOk};
ghost use Rattle.jo_prog.specs.InsnTyping;
ghost use Rattle.jo_prog.specs.TypingPaths;
ghost use Rattle.typing_heights.specs.Sizes;
ghost use Rattle.typing_heights.specs.Spots.{AreInside, IsInside, IsSpot, IsOnward, IsPlain, handlers_outside, grows_over};
ghost use Rattle.typing_heights.specs.Subjects.{program_of, typable_of, IsSubject};

use crate::sizes::{Size, insn_size, of_stack, within};
use crate::subjects::Subject;
use jo_ids::{List, Memory};
use jo_insn::{Insn, Placed, decode, targets_of};
use jo_prog::lists::add;
use jo_prog::program::{Code, Row};
use std::alloc::Global;

/// How many bytes code has at most.
const LONGEST_CODE: usize = 65_535;

/// What stands at a pc.
#[derive(Drop)]
pub(crate) struct Spot {
    pub(crate) size: Size,
    /// Where the code may go on without an exception. `None` where that is outside of the code, and where no instruction stands.
    pub(crate) plain: Option<List<u32>>,
}

/// Where the code goes on without an exception, and with which height.
#[derive(Drop)]
pub(crate) struct Onward {
    pub(crate) plain: List<u32>,
    pub(crate) height: u16,
}

pub fn insn_at(code: &Code, pc: u32) -> Option<Placed>
    ensures { result ≡ InsnTyping.insn_at code.now pc }
{
    let bytes = code.bytes.as_slice();
    if bytes.len() > LONGEST_CODE {
        return None;
    }
    match decode(bytes, pc) {
        Ok((insn, next)) => Some(Placed { pc, insn, next }),
        Err(_) => None,
    }
}

fn falls_through(insn: Insn) -> bool
    ensures { result ≡ InsnTyping.falls_through insn }
{
    match insn {
        Insn::Plain(op) => !(op == 172 || within(176, 177, op) || op == 191),
        Insn::Jump { op, .. } => !(op == 167 || op == 200),
        Insn::TableSwitch { .. } => false,
        Insn::LookupSwitch { .. } => false,
        _ => true,
    }
}

fn successors(alloc: Global, code: &Code, placed: &Placed) -> Result<Vec<i64>, Memory>
    requires { InsnTyping.insn_at code.now placed.now.pc ≡ Some placed.now }
    ensures { IfOk result (λ targets. targets.items ≡ InsnTyping.successors code.now placed.now) }
{
    let mut targets = targets_of(alloc, code.bytes.as_slice(), placed)?;
    if falls_through(placed.insn) {
        targets.push(i64::from(placed.next))?;
    }
    Ok(targets)
}

fn pc_inside(code: &Code, target: i64) -> Option<u32>
    requires { length code.now.bytes < 2 ^ 16 }
    ensures { IsInside code.now target result }
{
    match usize::try_from(target) {
        Ok(pc) => {
            if pc < code.bytes.as_slice().len() {
                Some(pc as u32)
            } else {
                None
            }
        }
        Err(_) => None,
    }
}

fn all_inside(alloc: Global, code: &Code, targets: &[i64]) -> Result<Option<List<u32>>, Memory>
    requires { length code.now.bytes < 2 ^ 16 }
    ensures { IfOk result (λ pcs. AreInside code.now targets.now pcs) }
{
    let mut pcs = List::new(alloc);
    for target in targets {
        match pc_inside(code, *target) {
            Some(pc) => add(&mut pcs, pc)?,
            None => return Ok(None),
        }
    }
    Ok(Some(pcs))
}

/// What stands at that pc.
pub(crate) fn spot_at(alloc: Global, subject: &Subject<'_>, pc: u32) -> Result<Spot, Memory>
    requires { IsSubject subject.now }
    ensures { IfOk result (λ spot. IsSpot (program_of subject.now) (typable_of subject.now) pc spot) }
{
    let Some(placed) = insn_at(subject.code, pc) else {
        return Ok(Spot {
            size: of_stack(0, 0),
            plain: None,
        });
    };
    let size = insn_size(alloc, subject, placed.insn)?;
    let targets = successors(alloc, subject.code, &placed)?;
    let plain = all_inside(alloc, subject.code, targets.as_slice())?;
    Ok(Spot { size, plain })
}

/// Whether the row covers the pc.
pub fn covers(pc: u32, row: &Row) -> bool
    ensures { result ≡ InsnTyping.covers pc row.now }
{
    u32::from(row.start) <= pc && pc < u32::from(row.end)
}

/// Whether a row covers the pc.
pub(crate) fn is_covered(code: &Code, pc: u32) -> bool
    ensures { result ≡ TypingPaths.is_covered code.now pc }
{
    code.rows.as_slice().iter().any(|row| covers(pc, row))
}

fn handler_outside(code: &Code, pc: u32, row: &Row) -> bool
    ensures { result ≡ TypingPaths.handler_outside code.now pc row.now }
{
    covers(pc, row) && !(usize::from(row.handler) < code.bytes.as_slice().len())
}

/// Whether a handler over the pc isn't in the code.
pub(crate) fn handlers_outside(code: &Code, pc: u32) -> bool
    ensures { result ≡ handlers_outside code.now pc }
{
    code.rows
        .as_slice()
        .iter()
        .any(|row| handler_outside(code, pc, row))
}

/// The height behind an instruction.
fn grown(size: &Size, height: u16) -> usize
    ensures { result ≡ Sizes.grown size.now height }
{
    usize::from(size.pushes) + usize::from(height).saturating_sub(size.pops)
}

/// Whether the instruction pops more than is there.
pub(crate) fn lacks(size: &Size, height: u16) -> bool
    ensures { result ≡ nat_lt height size.now.pops }
{
    usize::from(height) < size.pops
}

/// Whether the stack is then over its bound, a handler's included where a row covers the pc.
pub(crate) fn rises_over(code: &Code, size: &Size, covered: bool, height: u16) -> bool
    ensures value { result ≡ (nat_lt code.now.max_stack (Sizes.grown size.now height) || (covered && code.now.max_stack == 0)) }
    ensures fits { result ≡ false → Sizes.grown size.now height < 2 ^ 16 }
{
    let max_stack = code.max_stack;
    let over = usize::from(max_stack) < grown(size, height);
    over || (covered && max_stack == 0)
}

fn grows_over(code: &Code, size: &Size, pc: u32, height: u16) -> bool
    ensures value { result ≡ grows_over code.now size.now pc height }
    ensures fits { result ≡ false → Sizes.grown size.now height < 2 ^ 16 }
{
    rises_over(code, size, is_covered(code, pc), height)
}

fn fitted(size: &Size, height: u16) -> u16
    requires { Sizes.grown size.now height < 2 ^ 16 }
    ensures { result ≡ Sizes.grown size.now height }
{
    grown(size, height) as u16
}

/// Where the code goes on from that pc. `None` where it ends there.
pub(crate) fn goes_on(subject: &Subject<'_>, spot: Spot, pc: u32, height: u16) -> Option<Onward>
    requires { IsSpot (program_of subject.now) (typable_of subject.now) pc spot }
    ensures { IsOnward (program_of subject.now) (typable_of subject.now) pc height result }
{
    let Spot { size, plain } = spot;
    let Some(plain) = plain else {
        return None;
    };
    if lacks(&size, height) {
        return None;
    }
    if grows_over(subject.code, &size, pc, height) {
        return None;
    }
    if handlers_outside(subject.code, pc) {
        return None;
    }
    let height = fitted(&size, height);
    Some(Onward { plain, height })
}
