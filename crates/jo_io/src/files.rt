// Named files that are read whole.
ghost use Rattle.std.specs.Prelude.{◌≡◌, ◌≤◌, List, ℕ, Option, Some, IfOk, IfSome};
ghost use Rattle.jo_io.specs.declared.files.FileFault.TheVariants.{Memory};
ghost use Rattle.jo_io.specs.Files.{Rose, UnlessFailed, OnFailed, fault_text};

use std::alloc::{AllocError, Global};
use std::error::Error;
use std::fmt;

/// Why a read has no answer.
#[derive(Clone, Copy, Debug, PartialEq, Eq)]
pub enum FileFault {
    /// The file isn't there, or the outside failed.
    Failed,
    /// The memory for the answer is wanting.
    Memory,
}

impl fmt::Display for FileFault {
    ghost output = { λ fault. Some (fault_text fault) };

    fn fmt<W: fmt::Write>(&self, f: &mut fmt::Formatter<W>) -> fmt::Result {
        match self {
            FileFault::Failed => write!(f, "a read failed"),
            FileFault::Memory => write!(f, "out of memory"),
        }
    }
}

impl Error for FileFault {}

impl From<AllocError> for FileFault {
    ghost from_gives = { λ _ fault. fault ≡ Memory };

    fn from(_: AllocError) -> Self {
        FileFault::Memory
    }
}

/// Named files that are read whole.
pub trait Files {
    /// The bytes under a name, `None` where the implementation leaves them untold.
    ghost held: { Self → List ℕ → Option (List ℕ) };

    /// How often the outside has failed: a count that never falls.
    ghost faults: { Self → ℕ };

    /// The name of the last read that answered `Failed`, empty before the first.
    ghost failed: { Self → List ℕ };

    /// All bytes of the file with this name.
    fn read(&mut self, alloc: Global, name: &str) -> Result<Vec<u8>, FileFault>
        ensures bytes { IfOk result (λ v. IfSome (held self.old name.now) (λ bytes. v.items ≡ bytes)) }
        ensures held { (n : List ℕ) → held self.new n ≡ held self.old n }
        ensures later { faults self.old ≤ faults self.new }
        ensures quiet { UnlessFailed result ((faults self.new ≡ faults self.old) × (failed self.new ≡ failed self.old)) }
        ensures failed { OnFailed result (Rose (faults self.old) (faults self.new) × (failed self.new ≡ name.now)) };
}
