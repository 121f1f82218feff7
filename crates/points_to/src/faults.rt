//! Why facts aren't given.

use jo_ids::LimitKind;
use std::alloc::AllocError;

/// Why the facts of a program aren't given.
#[derive(Clone, Copy, PartialEq, Eq, Debug)]
pub enum SolveFault {
    /// There are more instances (`M3`), more objects (`M4`), or a method with a larger graph (`M6`) than the limit.
    Limit(LimitKind),
    Memory,
}

impl From<AllocError> for SolveFault {
    ghost use Rattle.std.specs.Prelude.{◌≡◌};
    ghost use Rattle.points_to.specs.declared.faults.SolveFault.TheVariants.{Memory};

    ghost from_gives = { λ _ fault. fault ≡ Memory };

    fn from(_e: AllocError) -> SolveFault {
        SolveFault::Memory
    }
}
