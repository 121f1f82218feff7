// Where bytes go.
ghost use Rattle.std.specs.Prelude.{◌≡◌, ◌≤◌, List, ℕ, Option, Some, OnOk, OnErr, codes};
ghost use Rattle.jo_io.specs.Sink.{Rose, Extends, ExtendsByPrefix};

use std::error::Error;
use std::fmt;

/// A write failed.
#[derive(Clone, Copy, Debug, PartialEq, Eq)]
pub struct Failed;

impl fmt::Display for Failed {
    ghost output = { λ _. Some (codes "a write failed") };

    fn fmt<W: fmt::Write>(&self, f: &mut fmt::Formatter<W>) -> fmt::Result {
        write!(f, "a write failed")
    }
}

impl Error for Failed {}

/// Where bytes go. A sink that takes nothing of a piece that isn't empty has failed.
pub trait Sink {
    /// All bytes taken so far, `None` where the implementation leaves them untold.
    ghost given: { Self → Option (List ℕ) };

    /// How often the outside has failed: a count that never falls.
    ghost faults: { Self → ℕ };

    /// Hands over all the bytes, in order. After `Failed` the sink has taken some beginning of them.
    fn put(&mut self, bytes: &[u8]) -> Result<(), Failed>
        ensures later { faults self.old ≤ faults self.new }
        ensures taken { OnOk result (Extends (given self.old) (given self.new) bytes.now) }
        ensures quiet { OnOk result (faults self.new ≡ faults self.old) }
        ensures failed { OnErr result (Rose (faults self.old) (faults self.new)) }
        ensures part { OnErr result (ExtendsByPrefix (given self.old) (given self.new) bytes.now) };
}
