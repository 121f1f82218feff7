//! What at a pc decides which faults a path that arrives there meets, by its height alone: read once for each pc.
ghost use Rattle.std.specs.Prelude.{◌≡◌, ◌||◌, None, IfOk, slice_index_or};
ghost use Rattle.jo_prog.specs.TypingPaths;
ghost use Rattle.typing_heights.specs.FirstFaults.{is_outside};
ghost use Rattle.typing_heights.specs.Gauges.{IsGauge, IsGaugeIf, AreGauges};
ghost use Rattle.typing_heights.specs.Spots.{IsSpot};
ghost use Rattle.typing_heights.specs.Subjects.{program_of, typable_of, IsSubject};

use crate::search::known_height;
use crate::sizes::Size;
use crate::spots::{Spot, handlers_outside, is_covered, spot_at};
use crate::subjects::Subject;
use jo_ids::Memory;
use jo_prog::program::Code;
use std::alloc::{AllocError, Global};

/// What decides at a pc.
#[derive(Clone, Copy)]
pub(crate) struct Gauge {
    pub(crate) size: Size,
    /// Whether a row covers the pc.
    pub(crate) covered: bool,
    pub(crate) falls_off: bool,
    pub(crate) out_of_range: bool,
}

fn is_outside(code: &Code, local: Option<u16>) -> bool
    ensures { result ≡ is_outside code.now.max_locals local }
{
    match local {
        Some(local) => code.max_locals <= local,
        None => false,
    }
}

/// Whether the method has no local that the instruction reads or writes.
fn out_of_range(subject: &Subject<'_>, spot: &Spot, pc: u32) -> bool
    requires { IsSpot (program_of subject.now) (typable_of subject.now) pc spot.now }
    ensures { result ≡ TypingPaths.out_of_range (program_of subject.now) (typable_of subject.now) pc }
{
    let reads = is_outside(subject.code, spot.size.reads);
    let writes = is_outside(subject.code, spot.size.writes);
    reads || writes
}

fn falls_off(subject: &Subject<'_>, spot: &Spot, pc: u32) -> bool
    requires { IsSpot (program_of subject.now) (typable_of subject.now) pc spot.now }
    ensures { result ≡ TypingPaths.falls_off subject.now.code.now pc }
{
    let outside = handlers_outside(subject.code, pc);
    match &spot.plain {
        Some(_) => outside,
        None => true,
    }
}

/// What decides at that pc.
fn gauge_at(alloc: Global, subject: &Subject<'_>, pc: u32) -> Result<Gauge, Memory>
    requires { IsSubject subject.now }
    ensures { IfOk result (λ gauge. IsGauge (program_of subject.now) (typable_of subject.now) pc gauge) }
{
    let spot = spot_at(alloc, subject, pc)?;
    let covered = is_covered(subject.code, pc);
    let falls_off = falls_off(subject, &spot, pc);
    let out_of_range = out_of_range(subject, &spot, pc);
    Ok(Gauge {
        size: spot.size,
        covered,
        falls_off,
        out_of_range,
    })
}

/// The same for a pc that has a height.
fn gauge_if(
    alloc: Global,
    subject: &Subject<'_>,
    heights: &[Option<u16>],
    pc: u32,
) -> Result<Option<Gauge>, Memory>
    requires { IsSubject subject.now }
    ensures { IfOk result (λ gauge. IsGaugeIf (program_of subject.now) (typable_of subject.now) pc gauge) }
{
    let Some(_) = known_height(heights, pc) else {
        return Ok(None);
    };
    let gauge = gauge_at(alloc, subject, pc)?;
    Ok(Some(gauge))
}

/// The same for each pc.
pub(crate) fn gauges_of(
    alloc: Global,
    subject: &Subject<'_>,
    heights: &[Option<u16>],
) -> Result<Vec<Option<Gauge>>, Memory>
    requires { IsSubject subject.now }
    ensures { IfOk result (λ gauges. AreGauges (program_of subject.now) (typable_of subject.now) gauges.items) }
{
    let mut gauges = Vec::new(alloc);
    for place in 0..heights.len() {
        let Ok(pc) = u32::try_from(place) else {
            return Err(AllocError);
        };
        let gauge = gauge_if(alloc, subject, heights, pc)?;
        gauges.push(gauge)?;
    }
    Ok(gauges)
}

fn known_gauge(gauges: &[Option<Gauge>], pc: u32) -> Option<Gauge>
    ensures { result ≡ slice_index_or gauges.now pc None }
{
    gauges.get(pc as usize).copied().flatten()
}

/// What decides at that pc, read anew where it has no height.
pub(crate) fn gauge_for(
    alloc: Global,
    subject: &Subject<'_>,
    gauges: &[Option<Gauge>],
    pc: u32,
) -> Result<Gauge, Memory>
    requires subject { IsSubject subject.now }
    requires gauges { AreGauges (program_of subject.now) (typable_of subject.now) gauges.now }
    ensures { IfOk result (λ gauge. IsGauge (program_of subject.now) (typable_of subject.now) pc gauge) }
{
    match known_gauge(gauges, pc) {
        Some(gauge) => Ok(gauge),
        None => {
            let gauge = gauge_at(alloc, subject, pc)?;
            Ok(gauge)
        }
    }
}
