//! The height at each pc that a typing path reaches: a search breadth first, in the order of paths.
ghost use Rattle.std.specs.Prelude.{◌≡◌, ◌+◌, ◌<◌, ◌≤◌, ◌++◌, None, length, replicate, slice_index, IfOk, OnOk};
ghost use Rattle.typing_heights.specs.Marks.{unknown};
ghost use Rattle.typing_heights.specs.Spreads.{IsSpread};
ghost use Rattle.typing_heights.specs.Searches.{height_at, VisitsOrRests, Advances, AreHeights};
ghost use Rattle.typing_heights.specs.Subjects.{program_of, typable_of, IsSubject};

use crate::marks::{mark_all, mark_handlers};
use crate::spots::{Onward, goes_on, spot_at};
use crate::subjects::Subject;
use jo_ids::Memory;
use std::alloc::Global;

/// Gives the pcs behind this one their heights where they have none, and finds these in order.
fn spread(
    alloc: Global,
    subject: &Subject<'_>,
    pc: u32,
    onward: &Onward,
    heights: &mut [Option<u16>],
) -> Result<Vec<u32>, Memory>
    ensures { IfOk result (λ found. IsSpread subject.now.code.now pc onward.now heights.old heights.new found.items) }
{
    let mut found = Vec::new(alloc);
    mark_all(heights, &mut found, onward.plain.as_slice(), onward.height)?;
    mark_handlers(heights, &mut found, pc, subject.code.rows.as_slice())?;
    found.sort()?;
    found.dedup();
    Ok(found)
}

/// The same, at the height that the pc has.
fn visit(
    alloc: Global,
    subject: &Subject<'_>,
    pc: u32,
    height: u16,
    heights: &mut [Option<u16>],
) -> Result<Vec<u32>, Memory>
    requires subject { IsSubject subject.now }
    requires room { length subject.now.code.now.bytes < length heights.old }
    ensures visits { IfOk result (λ found. VisitsOrRests (program_of subject.now) (typable_of subject.now) pc height heights.old heights.new found.items) }
    ensures counted { IfOk result (λ found. length found.items + unknown heights.new ≤ unknown heights.old) }
{
    let spot = spot_at(alloc, subject, pc)?;
    match goes_on(subject, spot, pc, height) {
        Some(onward) => spread(alloc, subject, pc, &onward, heights),
        None => Ok(Vec::new(alloc)),
    }
}

pub fn known_height(heights: &[Option<u16>], pc: u32) -> Option<u16>
    ensures { result ≡ height_at heights.now pc }
{
    heights.get(pc as usize).copied().flatten()
}

/// The same, where the pc has a height.
fn advance(
    alloc: Global,
    subject: &Subject<'_>,
    pc: u32,
    heights: &mut [Option<u16>],
) -> Result<Vec<u32>, Memory>
    requires subject { IsSubject subject.now }
    requires room { length subject.now.code.now.bytes < length heights.old }
    ensures advances { IfOk result (λ found. Advances (program_of subject.now) (typable_of subject.now) pc heights.old heights.new found.items) }
    ensures counted { IfOk result (λ found. length found.items + unknown heights.new ≤ unknown heights.old) }
{
    match known_height(heights, pc) {
        Some(height) => visit(alloc, subject, pc, height, heights),
        None => Ok(Vec::new(alloc)),
    }
}

fn add_all(queue: &mut Vec<u32>, found: &[u32]) -> Result<(), Memory>
    ensures { OnOk result (queue.new.items ≡ queue.old.items ++ found.now) }
{
    for pc in found {
        queue.push(*pc)?;
    }
    Ok(())
}

fn no_heights(alloc: Global, size: usize) -> Result<Vec<Option<u16>>, Memory>
    ensures { IfOk result (λ heights. heights.items ≡ replicate size None) }
{
    let mut heights = Vec::new(alloc);
    for _ in 0..size {
        heights.push(None)?;
    }
    Ok(heights)
}

fn item_at(queue: &[u32], place: usize) -> u32
    requires { place < length queue.now }
    ensures { result ≡ slice_index queue.now place }
{
    queue[place]
}

/// The height at each pc that a typing path reaches, that of the first path that does.
pub fn find_heights(alloc: Global, subject: &Subject<'_>) -> Result<Vec<Option<u16>>, Memory>
    requires { IsSubject subject.now }
    ensures { IfOk result (λ heights. AreHeights (program_of subject.now) (typable_of subject.now) heights.items) }
{
    let mut heights = no_heights(alloc, subject.code.bytes.as_slice().len() + 1)?;
    heights[0] = Some(0);
    let mut queue = Vec::new(alloc);
    queue.push(0)?;
    let mut done = 0;
    while done < queue.len() {
        let pc = item_at(queue.as_slice(), done);
        let found = advance(alloc, subject, pc, heights.as_mut_slice())?;
        add_all(&mut queue, found.as_slice())?;
        done += 1;
    }
    Ok(heights)
}
