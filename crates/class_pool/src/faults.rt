//! What is at fault in a class file.
use std::alloc::AllocError;

/// What the profile cuts.
#[derive(Clone, Copy, Debug, PartialEq, Eq)]
pub enum Cut {
    /// An opcode that the profile leaves out, or what this opcode asks for.
    Opcode(u8),
    /// An `ldc` of the loadable constant with this pool index.
    Constant(u16),
    /// A type `long`, `float` or `double` in a descriptor.
    WideType,
    /// A method that is synchronized.
    Synchronized,
}

/// The kind of a fault.
#[derive(Clone, Copy, Debug, PartialEq, Eq)]
pub enum ClassCode {
    /// An item's bytes aren't all there.
    Truncated,
    Magic,
    Version,
    /// A pool entry of an unknown kind.
    PoolTag,
    /// A pool index that is none, or names an entry of the wrong kind; an array where a class is asked for; a pool without
    /// entry 0, or without room for the second index of a Long or Double.
    PoolIndex,
    /// Text that isn't modified UTF-8.
    BadText,
    /// A name or descriptor outside its grammar.
    BadDescriptor,
    /// A length, a place in code or an instruction that can't be; a second ConstantValue; a method with no, two or a forbidden
    /// Code.
    CodeBounds,
    BadOpcode,
    /// Bytes follow the class.
    Trailing,
    Unsupported(Cut),
    Memory,
}

/// The first fault of a class file in the order of reading, and the place of the item at fault: the offset of its first
/// byte, or the file's length for an item whose bytes aren't all there. Where memory ran out the code is `Memory` and the
/// place 0.
#[derive(Clone, Copy, Debug, PartialEq, Eq)]
pub struct ClassFault {
    pub code: ClassCode,
    pub place: u32,
}

/// Why a reader stopped.
#[derive(Clone, Copy)]
pub enum Stop {
    Fault(ClassFault),
    Memory,
}

impl From<AllocError> for Stop {
    ghost use Rattle.std.specs.Prelude.{◌≡◌};
    ghost use Rattle.class_pool.specs.declared.faults.Stop.TheVariants.{Memory};

    ghost from_gives = { λ _ e. e ≡ Memory };

    fn from(_e: AllocError) -> Stop {
        Stop::Memory
    }
}

impl<T: Drop> From<(T, AllocError)> for Stop {
    ghost use Rattle.std.specs.Prelude.{◌≡◌};
    ghost use Rattle.class_pool.specs.declared.faults.Stop.TheVariants.{Memory};

    ghost from_gives = { λ _ e. e ≡ Memory };

    fn from(_e: (T, AllocError)) -> Stop {
        Stop::Memory
    }
}

impl From<Stop> for ClassFault {
    ghost use Rattle.std.specs.Prelude.{◌≡◌};
    ghost use Rattle.class_pool.specs.Stops.{fault_of};

    ghost from_gives = { λ stop fault. fault ≡ fault_of stop };

    fn from(stop: Stop) -> ClassFault {
        match stop {
            Stop::Fault(fault) => fault,
            Stop::Memory => ClassFault {
                code: ClassCode::Memory,
                place: 0,
            },
        }
    }
}
