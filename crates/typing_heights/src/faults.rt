//! The faults that the heights of paths tell, and the first of a list of faults.
ghost use Rattle.std.specs.Prelude.{◌≡◌, ◌<◌, ◌≤◌, ◌||◌, ◌&&◌, ◌==◌, nat_lt, nat_le, true, false, not, None, Some, Contains, IfOk, OnOk, IsTrue, ◌↔◌};
ghost use Rattle.jo_prog.specs.declared.typed.TypeFault.{TypeFault};
ghost use Rattle.jo_prog.specs.TypingPaths;
ghost use Rattle.typing_heights.specs.Adds.{Adds, From};
ghost use Rattle.typing_heights.specs.Moves.{other_height, height_fault, Tells, FaultAt, IsHeightFault, FaultBehind, IsMove};
ghost use Rattle.typing_heights.specs.FirstFaults.{key_of, IsFirstOf, IsSooner};
ghost use Rattle.typing_heights.specs.Searches.{height_at};
ghost use Rattle.typing_heights.specs.Gauges.{IsGauge, AreGauges};
ghost use Rattle.typing_heights.specs.declared.moves.Move.{Move};
ghost use Rattle.typing_heights.specs.Subjects.{program_of, typable_of, IsSubject};

use crate::gauges::{Gauge, gauge_for, gauges_of};
use crate::moves::Move;
use crate::search::known_height;
use crate::spots::{lacks, rises_over};
use crate::subjects::Subject;
use jo_ids::Memory;
use jo_prog::typed::{TypeCode, TypeFault};
use std::alloc::Global;

pub fn differs(heights: &[Option<u16>], pc: u32, height: u16) -> bool
    ensures { result ≡ other_height (height_at heights.now pc) height }
{
    match known_height(heights, pc) {
        Some(first) => first != height,
        None => true,
    }
}

fn lacks_at(subject: &Subject<'_>, gauge: &Gauge, pc: u32, height: u16) -> bool
    requires { IsGauge (program_of subject.now) (typable_of subject.now) pc gauge.now }
    ensures { result ≡ TypingPaths.underflows (program_of subject.now) (typable_of subject.now) pc height }
{
    lacks(&gauge.size, height)
}

fn rises_over_at(subject: &Subject<'_>, gauge: &Gauge, pc: u32, height: u16) -> bool
    requires { IsGauge (program_of subject.now) (typable_of subject.now) pc gauge.now }
    ensures { result ≡ TypingPaths.overflows (program_of subject.now) (typable_of subject.now) pc height }
{
    rises_over(subject.code, &gauge.size, gauge.covered, height)
}

/// The first fault that heights alone tell, of a path that arrives at the pc with this height.
fn fault_at(
    subject: &Subject<'_>,
    heights: &[Option<u16>],
    gauge: &Gauge,
    pc: u32,
    height: u16,
) -> Option<TypeCode>
    requires { IsGauge (program_of subject.now) (typable_of subject.now) pc gauge.now }
    ensures { result ≡ height_fault (program_of subject.now) (typable_of subject.now) heights.now pc height }
{
    if lacks_at(subject, gauge, pc, height) {
        Some(TypeCode::Underflow)
    } else if rises_over_at(subject, gauge, pc, height) {
        Some(TypeCode::Overflow)
    } else if differs(heights, pc, height) {
        Some(TypeCode::HeightDiffers)
    } else if gauge.falls_off {
        Some(TypeCode::FallsOff)
    } else if gauge.out_of_range {
        Some(TypeCode::LocalRange)
    } else {
        None
    }
}

fn add_fault(found: &mut Vec<TypeFault>, pc: u32, code: Option<TypeCode>) -> Result<(), Memory>
    ensures { OnOk result (Adds (Contains found.old.items) (Contains found.new.items) (Tells pc code)) }
{
    match code {
        Some(code) => {
            found.push(TypeFault { code, pc })?;
            Ok(())
        }
        None => Ok(()),
    }
}

fn arrive(
    alloc: Global,
    subject: &Subject<'_>,
    heights: &[Option<u16>],
    gauges: &[Option<Gauge>],
    found: &mut Vec<TypeFault>,
    pc: u32,
    height: u16,
) -> Result<(), Memory>
    requires subject { IsSubject subject.now }
    requires gauges { AreGauges (program_of subject.now) (typable_of subject.now) gauges.now }
    ensures { OnOk result (Adds (Contains found.old.items) (Contains found.new.items) (FaultAt (program_of subject.now) (typable_of subject.now) heights.now pc height)) }
{
    let gauge = gauge_for(alloc, subject, gauges, pc)?;
    let code = fault_at(subject, heights, &gauge, pc, height);
    add_fault(found, pc, code)?;
    Ok(())
}

/// The faults that the heights of typing paths tell, the first at each arrival.
pub fn height_faults(
    alloc: Global,
    subject: &Subject<'_>,
    heights: &[Option<u16>],
    moves: &[Move],
) -> Result<Vec<TypeFault>, Memory>
    requires subject { IsSubject subject.now }
    requires moves { (m : Move) → Contains moves.now m ↔ IsMove (program_of subject.now) (typable_of subject.now) heights.now m }
    ensures { IfOk result (λ found. (f : TypeFault) → Contains found.items f ↔ IsHeightFault (program_of subject.now) (typable_of subject.now) heights.now f) }
{
    let gauges = gauges_of(alloc, subject, heights)?;
    let gauges = gauges.as_slice();
    let mut found = Vec::new(alloc);
    arrive(alloc, subject, heights, gauges, &mut found, 0, 0)?;
    for step in moves {
        arrive(
            alloc,
            subject,
            heights,
            gauges,
            &mut found,
            step.to,
            step.height,
        )?;
    }
    Ok(found)
}

fn number_of(code: TypeCode) -> u8
    ensures { result ≡ TypingPaths.number_of code }
{
    match code {
        TypeCode::Underflow => 1,
        TypeCode::Overflow => 2,
        TypeCode::HeightDiffers => 3,
        TypeCode::WrongKind => 4,
        TypeCode::FallsOff => 5,
        TypeCode::LocalRange => 6,
        TypeCode::Memory => 7,
    }
}

fn key_of(fault: TypeFault) -> u64
    ensures { result ≡ key_of fault }
{
    u64::from(fault.pc) * 8 + u64::from(number_of(fault.code))
}

fn sooner(first: Option<TypeFault>, fault: TypeFault) -> Option<TypeFault>
    ensures { IsSooner first fault result }
{
    let Some(other) = first else {
        return Some(fault);
    };
    if key_of(fault) < key_of(other) {
        Some(fault)
    } else {
        Some(other)
    }
}

/// The fault at the least pc, and of those there the one with the least number.
pub fn first_of(found: &[TypeFault]) -> Option<TypeFault>
    ensures { IsFirstOf found.now result }
{
    let mut first = None;
    for fault in found {
        first = sooner(first, *fault);
    }
    first
}
