//! What the instructions of plain code do.
ghost use Rattle.std.specs.Prelude.{◌≡◌};
ghost use Rattle.jo_prog.specs.Operations.{operation_of};
ghost use Rattle.jo_insn.specs.declared.instructions.Insn.TheVariants.{Plain};

use jo_insn::Insn;

/// What an instruction does, apart from how it is spelled.
#[derive(Clone, Copy)]
pub enum Operation {
    /// Pushes an int.
    Constant(i32),
    /// Pushes the int of a local.
    Load(u16),
    /// Pops an int into a local.
    Store(u16),
    Add,
    Subtract,
    /// Calls the static method that the pool entry names.
    InvokeStatic(u16),
    /// Returns from a method without a result.
    Return,
    /// Anything else: no plain code.
    Other,
}

/// What an instruction of one byte does.
#[tactic(auto, unfolding(crate::specs::Operations::operation_of))]
fn plain_operation(op: u8) -> Operation
    ensures { result ≡ operation_of (Plain op) }
{
    match op {
        2..=8 => Operation::Constant(i32::from(op) - 3),
        26..=29 => Operation::Load(u16::from(op - 26)),
        59..=62 => Operation::Store(u16::from(op - 59)),
        96 => Operation::Add,
        100 => Operation::Subtract,
        177 => Operation::Return,
        _ => Operation::Other,
    }
}

/// What an instruction does.
#[tactic(auto, unfolding(crate::specs::Operations::operation_of))]
pub fn operation_of(insn: Insn) -> Operation
    ensures { result ≡ operation_of insn }
{
    match insn {
        Insn::Plain(op) => plain_operation(op),
        Insn::Push { value, .. } => Operation::Constant(value),
        Insn::Local {
            op: 21,
            index,
            wide: false,
        } => Operation::Load(index),
        Insn::Local {
            op: 54,
            index,
            wide: false,
        } => Operation::Store(index),
        Insn::Pooled { op: 184, index } => Operation::InvokeStatic(index),
        Insn::Local { .. }
        | Insn::Pooled { .. }
        | Insn::Iinc { .. }
        | Insn::Array(_)
        | Insn::Jump { .. }
        | Insn::TableSwitch { .. }
        | Insn::LookupSwitch { .. } => Operation::Other,
    }
}
