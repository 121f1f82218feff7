//! Where the base of an instruction stands.
ghost use Rattle.std.specs.Prelude.{◌≡◌, ◌↔◌, ℕ, ◌<◌, length, IsTrue};
ghost use Rattle.jo_prog.specs.Operations;
ghost use Rattle.jo_prog.specs.TypingPaths.{HasHeightAt};
ghost use Rattle.jo_prog.specs.declared.program.Program.{Program as AProgram};
ghost use Rattle.dependence.specs.FlowGraph;
ghost use Rattle.dependence.specs.FlowGraph.{BasePlace};
ghost use Rattle.dependence.specs.GraphsAsData.{IsWideGraph};
ghost use Rattle.method_views.specs.Bases;
ghost use Rattle.method_views.specs.Bases.{IsBelowTop, IsLeastOf};
ghost use Rattle.method_views.specs.Heights.{AreHeightsOf};
ghost use Rattle.method_views.specs.Standing.{UseAt};

use dependence::flow::Place;
use dependence::flows::{Flow, Use};
use jo_insn::Insn;
use jo_prog::sites::opcode_of;
use jo_prog::typed::Typed;

fn within(low: u8, high: u8, op: u8) -> bool
    ensures { result ≡ Operations.within low high op }
{
    low <= op && op <= high
}

/// How far below the top the base of an instruction that is no call stands, counted from 1.
pub fn base_depth(op: u8) -> u16
    ensures { result ≡ FlowGraph.base_depth op }
{
    if within(46, 53, op) {
        2
    } else if within(79, 86, op) {
        3
    } else if op == 181 {
        2
    } else {
        1
    }
}

/// Whether the place is so far below the top of the stack at a pc, counted from 1.
pub fn is_below(typed: &Typed, pc: u32, depth: u16, place: Place) -> bool
    ensures { IsTrue result ↔ IsBelowTop typed.now pc depth place }
{
    match typed.height(pc) {
        Some(height) => place == Place::Stack(height.saturating_sub(depth)),
        None => false,
    }
}

fn is_lower(place: Place, other: Place) -> bool
    ensures { result ≡ Bases.is_lower place other }
{
    match place {
        Place::Stack(low) => match other {
            Place::Stack(high) => low < high,
            _ => false,
        },
        _ => false,
    }
}

/// Whether none of the places is lower on the stack.
pub fn is_least(places: &[Place], place: Place) -> bool
    ensures { IsTrue result ↔ IsLeastOf places.now place }
{
    for other in places {
        if is_lower(*other, place) {
            return false;
        }
    }
    true
}

/// Whether the place of a use is the base of the instruction there: of a call the lowest of its arguments.
pub fn is_base(typed: &Typed, wide: &Flow, u: &Use, pc: u32, insn: Insn) -> bool
    requires node { u.now.node < length wide.now }
    ensures { (program : AProgram) (m : ℕ) → IsWideGraph program m (HasHeightAt program m) wide.now → AreHeightsOf program m typed.now → UseAt program m wide.now u.now pc insn
        → (IsTrue result ↔ BasePlace program m (HasHeightAt program m) pc u.now.place) }
{
    let op = opcode_of(insn);
    if within(182, 185, op) {
        return is_least(wide.reads(u.node), u.place);
    }
    is_below(typed, pc, base_depth(op), u.place)
}
