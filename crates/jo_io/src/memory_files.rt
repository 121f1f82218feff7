// Files in memory.
ghost use Rattle.std.specs.Prelude.{◌≡◌, ◌≤◌, List, ℕ, IfOk, IfSome, map, [], option_copied};
ghost use Rattle.jo_io.specs.Files.{Rose, UnlessFailed, OnFailed};
ghost use Rattle.jo_io.specs.MemoryFiles.{pair_of, bytes_under, ReadEnds};

use crate::numbers::is_listed;
use crate::{FileFault, Files};
use std::alloc::Global;
use std::marker::Model;

/// Files that a test makes up: pairs of a name and bytes, of which the first with a name counts.
///
/// Reads are numbered from 0. One that ends by `Memory` isn't counted.
#[derive(Drop)]
pub struct MemoryFiles {
    pairs: Vec<(String, Vec<u8>)>,
    failing: Vec<u32>,
    reads: u64,
    faults: u64,
    last_failed: Option<String>,
}

impl Model for MemoryFiles {
    ghost use Rattle.std.specs.Prelude.{map};
    ghost use Rattle.jo_io.specs.Files.{name_of};
    ghost use Rattle.jo_io.specs.MemoryFiles.{StoredFiles, pair_of};

    ghost Value = { StoredFiles };

    ghost view = { λ files. record {
      pairs = map pair_of files.pairs.items;
      failing = files.failing.items;
      reads = files.reads;
      faults = files.faults;
      last_failed = name_of files.last_failed;
    } };
}

impl MemoryFiles {
    /// `failing` has the numbers of the reads that are to fail.
    pub fn new(pairs: Vec<(String, Vec<u8>)>, failing: Vec<u32>) -> MemoryFiles
        ensures { result ≡ record {
          pairs = map pair_of pairs.items;
          failing = failing.items;
          reads = 0;
          faults = 0;
          last_failed = [];
        } }
    {
        MemoryFiles {
            pairs,
            failing,
            reads: 0,
            faults: 0,
            last_failed: None,
        }
    }

    /// How many reads have failed.
    pub fn faults(&self) -> u64
        ensures { result ≡ self.now.faults }
    {
        self.faults
    }

    /// How many reads there were.
    pub fn reads(&self) -> u64
        ensures { result ≡ self.now.reads }
    {
        self.reads
    }
}

impl Files for MemoryFiles {
    ghost held = { λ files name. bytes_under files.pairs name };

    ghost faults = { λ files. files.faults };

    ghost failed = { λ files. files.last_failed };

    fn read(&mut self, alloc: Global, name: &str) -> Result<Vec<u8>, FileFault>
        ensures bytes { IfOk result (λ v. IfSome (bytes_under self.old.pairs name.now) (λ bytes. v.items ≡ bytes)) }
        ensures held { (n : List ℕ) → bytes_under self.new.pairs n ≡ bytes_under self.old.pairs n }
        ensures later { self.old.faults ≤ self.new.faults }
        ensures quiet { UnlessFailed result ((self.new.faults ≡ self.old.faults) × (self.new.last_failed ≡ self.old.last_failed)) }
        ensures failed { OnFailed result (Rose self.old.faults self.new.faults × (self.new.last_failed ≡ name.now)) }

        // Which reads fail, and all that a read leaves.
        ensures ends { ReadEnds self.old self.new name.now result }
    {
        let copy = String::from_str(alloc, name)?;
        let is_to_fail = is_listed(&self.failing, self.reads);
        match find_bytes(&self.pairs, name) {
            Some(held) if !is_to_fail => {
                let bytes = Vec::from_slice(alloc, held)?;
                self.reads = self.reads.saturating_add(1);
                Ok(bytes)
            }
            _ => {
                self.reads = self.reads.saturating_add(1);
                self.faults = self.faults.saturating_add(1);
                self.last_failed = Some(copy);
                Err(FileFault::Failed)
            }
        }
    }
}

// The bytes of the first pair with this name.
fn find_bytes<'a>(pairs: &'a [(String, Vec<u8>)], name: &str) -> Option<&'a [u8]>
    ensures { option_copied result ≡ bytes_under (map pair_of pairs.now) name.now }
{
    for pair in pairs {
        if pair.0.as_str() == name {
            return Some(pair.1.as_slice());
        }
    }
    None
}
