//! Why a part of a line wasn't read.
use jo_text::DescFault;
use std::alloc::AllocError;

/// Why a part of a line wasn't read.
#[derive(Clone, Copy)]
pub enum Stop {
    /// It is outside the grammar.
    Outside,
    Memory,
}

impl From<AllocError> for Stop {
    ghost use Rattle.std.specs.Prelude.{◌≡◌};
    ghost use Rattle.asm_text.specs.declared.stops.Stop.TheVariants.{Memory};

    ghost from_gives = { λ _ e. e ≡ Memory };

    fn from(_e: AllocError) -> Stop {
        Stop::Memory
    }
}

impl<T: Drop> From<(T, AllocError)> for Stop {
    ghost use Rattle.std.specs.Prelude.{◌≡◌};
    ghost use Rattle.asm_text.specs.declared.stops.Stop.TheVariants.{Memory};

    ghost from_gives = { λ _ e. e ≡ Memory };

    fn from(_e: (T, AllocError)) -> Stop {
        Stop::Memory
    }
}

impl From<DescFault> for Stop {
    ghost use Rattle.std.specs.Prelude.{◌≡◌};
    ghost use Rattle.asm_text.specs.Outcomes.{stop_for};

    ghost from_gives = { λ fault e. e ≡ stop_for fault };

    fn from(fault: DescFault) -> Stop {
        match fault {
            DescFault::Bad => Stop::Outside,
            DescFault::Memory => Stop::Memory,
        }
    }
}
