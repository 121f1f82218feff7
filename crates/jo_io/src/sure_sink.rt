// A sink that never fails.
ghost use Rattle.std.specs.Prelude.{◌≡◌, ◌+◌, ◌-◌, ◌^◌, ℕ, min, length, IsOk, None};

use crate::{Failed, Sink};
use std::marker::Model;

/// Counts the bytes that it is given, and keeps none. A clause sees it as the count, which stays at `u64::MAX`.
#[derive(Drop)]
pub struct SureSink {
    count: u64,
}

impl Model for SureSink {
    ghost Value = { ℕ };

    ghost view = { λ sink. sink.count };
}

impl SureSink {
    pub fn new() -> SureSink
        ensures { result ≡ 0 }
    {
        SureSink { count: 0 }
    }

    /// How many bytes it was given.
    pub fn count(&self) -> u64
        ensures { result ≡ self.now }
    {
        self.count
    }
}

impl Sink for SureSink {
    ghost given = { λ _. None };

    ghost faults = { λ _. 0 };

    fn put(&mut self, bytes: &[u8]) -> Result<(), Failed>
        ensures sure { IsOk result }
        ensures count { self.new ≡ min (self.old + length bytes.now) (2 ^ 64 - 1) }
    {
        let count = bytes.len() as u64;
        self.count = self.count.saturating_add(count);
        Ok(())
    }
}
