//! What is at fault in a text.
use crate::pool_maker::Lack;
use std::alloc::AllocError;

/// The kind of a fault. At one line the first of these counts.
#[derive(Clone, Copy)]
pub enum Cause {
    /// The line is outside the grammar, or stands where it can't.
    Line,
    /// A label is used and not set, or set a second time.
    Label,
    /// A number, an offset, an index, a count or a length doesn't fit its field.
    Range,
}

/// A line with a fault, counted from 1.
#[derive(Clone, Copy)]
pub struct Fault {
    pub line: usize,
    pub cause: Cause,
}

/// Why a line wasn't assembled.
#[derive(Clone, Copy)]
pub enum Halt {
    At(Cause),
    Memory,
}

impl From<Cause> for Halt {
    ghost use Rattle.std.specs.Prelude.{◌≡◌};
    ghost use Rattle.class_asm.specs.declared.causes.Halt.TheVariants.{At};

    ghost from_gives = { λ cause halt. halt ≡ At cause };

    fn from(cause: Cause) -> Halt {
        Halt::At(cause)
    }
}

impl From<AllocError> for Halt {
    ghost use Rattle.std.specs.Prelude.{◌≡◌};
    ghost use Rattle.class_asm.specs.declared.causes.Halt.TheVariants.{Memory};

    ghost from_gives = { λ _ halt. halt ≡ Memory };

    fn from(_e: AllocError) -> Halt {
        Halt::Memory
    }
}

impl<T: Drop> From<(T, AllocError)> for Halt {
    ghost use Rattle.std.specs.Prelude.{◌≡◌};
    ghost use Rattle.class_asm.specs.declared.causes.Halt.TheVariants.{Memory};

    ghost from_gives = { λ _ halt. halt ≡ Memory };

    fn from(_e: (T, AllocError)) -> Halt {
        Halt::Memory
    }
}

impl From<Lack> for Halt {
    ghost use Rattle.std.specs.Prelude.{◌≡◌};
    ghost use Rattle.class_asm.specs.Halts.{halt_for};

    ghost from_gives = { λ lack halt. halt ≡ halt_for lack };

    fn from(lack: Lack) -> Halt {
        match lack {
            Lack::Range => Halt::At(Cause::Range),
            Lack::Memory => Halt::Memory,
        }
    }
}
