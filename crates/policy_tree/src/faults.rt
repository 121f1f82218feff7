//! What is wrong with a policy.
use jo_ids::MethodId;
use jo_text::Name;
use std::alloc::AllocError;

/// What is wrong with the levels of a policy.
#[derive(Drop)]
pub enum LevelFault {
    /// The level is named twice.
    Twice(Name),
    /// There are more than 64 levels.
    TooMany,
    /// These two levels flow to each other.
    Cycle(Name, Name),
}

/// What is wrong with a policy. Names are bytes as they stand in the file.
#[derive(Drop)]
pub enum PolicyFault {
    NotToml,
    /// The key is unknown or missing, or its value is of another kind.
    Key(Name),
    UnknownLevel(Name),
    Order(LevelFault),
    /// No method of the files is spelled so.
    MissingMethod(Name),
    /// The method isn't a static native of its label's descriptor.
    WrongShape(MethodId),
    UnlabelledNative(MethodId),
    TwiceLabelled(MethodId),
    /// The release's `to` doesn't flow to its `from`.
    ReleaseUpward(MethodId),
    /// There is a release, and the call at that pc may start a thread.
    ReleaseWithThreads(MethodId, u32),
    Entry,
    Memory,
}

impl From<AllocError> for PolicyFault {
    ghost use Rattle.std.specs.Prelude.{◌≡◌};
    ghost use Rattle.policy_tree.specs.declared.faults.PolicyFault.TheVariants.{Memory};

    ghost from_gives = { λ _ fault. fault ≡ Memory };

    fn from(_e: AllocError) -> PolicyFault {
        PolicyFault::Memory
    }
}

impl<T: Drop> From<(T, AllocError)> for PolicyFault {
    ghost use Rattle.std.specs.Prelude.{◌≡◌};
    ghost use Rattle.policy_tree.specs.declared.faults.PolicyFault.TheVariants.{Memory};

    ghost from_gives = { λ _ fault. fault ≡ Memory };

    fn from(_e: (T, AllocError)) -> PolicyFault {
        PolicyFault::Memory
    }
}
