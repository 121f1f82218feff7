//! What an instruction that is no call does with its values.
ghost use Rattle.std.specs.Prelude.{◌≡◌, ℕ, ◌<◌, ◌^◌, List, length, map, option_map};
ghost use Rattle.jo_prog.specs.declared.program.Program.{Program as OfProgram};
ghost use Rattle.jo_prog.specs.Machine.{Thread};
ghost use Rattle.machine.specs.Execution as machine;
ghost use Rattle.hierarchy.specs.Hierarchies.{IsHierarchyOf};
ghost use Rattle.jvm_values.specs.Values.{value_of, popped_values};
ghost use Rattle.jvm_values.specs.Resolved.{seen, HasText};
ghost use Rattle.jvm_values.specs.declared.resolved.Instruction.TheVariants.{Shuffles};
ghost use Rattle.jvm_exec.specs.Outcomes.{outcome_of};
ghost use Rattle.jvm_exec.specs.Forms.{executes, state_with};

use crate::ints::{compare, compute, increment, narrow_one, negate, switch, test};
use crate::memory::{
    create_array, get_field, get_static, load_element, measure, put_field, store_element,
};
use crate::moves::{load, put_static, return_one, shuffle, store, when_none};
use crate::outcomes::{Effect, Outcome};
use crate::references::{cast, check, compare_references, test_null, throw};
use hierarchy::Hierarchy;
use jo_prog::program::Program;
use jvm_values::{Heap, InfoView, Instruction, Value};

/// How many values the shuffle with that opcode pops.
fn shuffle_pops(op: u8) -> u32
    ensures { (program : OfProgram) → result ≡ machine.pops (seen program (Shuffles op)) }
{
    match op {
        87 | 89 => 1,
        91 | 93 => 3,
        94 => 4,
        _ => 2,
    }
}

/// How many values an instruction pops; a load and iinc take the value of a local in their place.
pub fn pops(instruction: &Instruction) -> u32
    ensures { (program : OfProgram) → result ≡ machine.pops (seen program instruction.now) }
{
    match instruction {
        Instruction::Shuffles(op) => shuffle_pops(*op),
        Instruction::Calls { count, .. } => *count,
        Instruction::StoresElement => 3,
        Instruction::LoadsElement
        | Instruction::Computes(_)
        | Instruction::Compares(_, _)
        | Instruction::ComparesReferences(_, _)
        | Instruction::PutsField(_, _) => 2,
        Instruction::Stores(_)
        | Instruction::Negates
        | Instruction::Narrows(_)
        | Instruction::Tests(_, _)
        | Instruction::TestsNull(_, _)
        | Instruction::Switches(_, _)
        | Instruction::ReturnsValue(_)
        | Instruction::PutsStatic(_, _)
        | Instruction::GetsField(_)
        | Instruction::CreatesArray(_)
        | Instruction::Measures
        | Instruction::Throws
        | Instruction::Casts(_)
        | Instruction::Checks(_) => 1,
        _ => 0,
    }
}

/// The local that an instruction takes a value from.
pub fn local_taken(instruction: &Instruction) -> Option<u16>
    ensures { (program : OfProgram) → result ≡ machine.local_taken (seen program instruction.now) }
{
    match instruction {
        Instruction::Loads(local) => Some(*local),
        Instruction::Increments(local, _) => Some(*local),
        _ => None,
    }
}

/// What an instruction that is no call does with the values that it pops or loads, the top of the stack last. `None` where they
/// aren't those that it needs, and for a call.
pub fn exec<'i>(
    program: &Program,
    hierarchy: &Hierarchy,
    heap: &Heap,
    statics: &[Value],
    instruction: &'i Instruction,
    values: &[Value],
) -> Option<Outcome<'i>>
    requires kept { IsHierarchyOf program.now hierarchy.now }
    requires short { length program.now.classes < 2 ^ 32 }
    requires text { HasText program.now instruction.now }
    ensures { (cursors : List ℕ) (threads : List Thread) → option_map outcome_of result ≡
        executes program.now (state_with heap.now (map value_of statics.now) cursors threads) (seen program.now instruction.now) (popped_values values.now) }
{
    match instruction {
        Instruction::Passes => when_none(Outcome::pushes_none(), values),
        Instruction::PushesNull => when_none(Outcome::pushes_one(Value::Null), values),
        Instruction::PushesInt(z) => when_none(Outcome::pushes_int(*z), values),
        Instruction::PushesText(a) => when_none(Outcome::pushes_one(Value::Ref(*a)), values),
        Instruction::Loads(_) => load(values),
        Instruction::Stores(local) => store(*local, values),
        Instruction::Increments(local, by) => increment(*local, *by, values),
        Instruction::LoadsElement => load_element(heap, values),
        Instruction::StoresElement => store_element(program, hierarchy, heap, values),
        Instruction::Shuffles(op) => shuffle(*op, values),
        Instruction::Computes(op) => compute(*op, values),
        Instruction::Negates => negate(values),
        Instruction::Narrows(op) => narrow_one(*op, values),
        Instruction::Tests(op, target) => test(*op, *target, values),
        Instruction::Compares(op, target) => compare(*op, *target, values),
        Instruction::ComparesReferences(op, target) => compare_references(*op, *target, values),
        Instruction::TestsNull(op, target) => test_null(*op, *target, values),
        Instruction::JumpsTo(target) => when_none(Outcome::only(Effect::Jumps(*target)), values),
        Instruction::Switches(cases, other) => switch(cases.as_slice(), *other, values),
        Instruction::ReturnsValue(desc) => return_one(desc, values),
        Instruction::ReturnsNothing => when_none(Outcome::only(Effect::Returns(None)), values),
        Instruction::GetsStatic(field) => get_static(statics, *field, values),
        Instruction::PutsStatic(field, desc) => put_static(*field, desc, values),
        Instruction::GetsField(field) => get_field(heap, *field, values),
        Instruction::PutsField(field, desc) => put_field(*field, desc, values),
        Instruction::Creates(class) => when_none(
            Outcome::only(Effect::Allocates(InfoView::Object(*class))),
            values,
        ),
        Instruction::CreatesArray(desc) => create_array(desc, values),
        Instruction::Measures => measure(heap, values),
        Instruction::Throws => throw(values),
        Instruction::Casts(named) => cast(program, hierarchy, heap, named, values),
        Instruction::Checks(named) => check(program, hierarchy, heap, named, values),
        Instruction::Calls { .. } => None,
    }
}
