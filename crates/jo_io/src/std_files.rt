// The files of the host.
ghost use Rattle.std.specs.Prelude.{◌≡◌, ◌≤◌, Option, None, [], IfOk, IfSome};
ghost use Rattle.jo_io.specs.Files.{Rose, UnlessFailed, OnFailed};
ghost use Rattle.jo_io.specs.StdFiles.{ReadLeaves};

use crate::{FileFault, Files};
use std::alloc::Global;
use std::fs;
use std::io::Read;
use std::marker::Model;

// How many bytes one turn of a read asks for.
const PIECE: usize = 8192;

// A file that has not ended after so many turns, each of which took a byte, counts as one without an end.
const MAX_TURNS: u32 = 70_000_000;

/// The files of the host, over its runtime. Nothing is told of what they hold.
///
/// A read goes to the end of the file, and fails where that is not reached in 70,000,000 turns of at least a byte.
#[derive(Drop)]
pub struct StdFiles<R> {
    rt: R,
    faults: u64,
    last_failed: Option<String>,
}

impl<R> Model for StdFiles<R> {
    ghost use Rattle.jo_io.specs.Files.{name_of};
    ghost use Rattle.jo_io.specs.StdFiles.{HostFiles};

    ghost Value = { HostFiles };

    ghost view = { λ files. record { faults = files.faults; last_failed = name_of files.last_failed } };
}

impl<R: std::rt::Files> StdFiles<R> {
    pub fn new(rt: R) -> Self
        ensures { result ≡ record { faults = 0; last_failed = [] } }
    {
        StdFiles {
            rt,
            faults: 0,
            last_failed: None,
        }
    }

    /// How many reads have failed.
    pub fn faults(&self) -> u64
        ensures { result ≡ self.now.faults }
    {
        self.faults
    }
}

impl<R: std::rt::Files> Files for StdFiles<R> {
    ghost held = { λ _ _. None };

    ghost faults = { λ files. files.faults };

    ghost failed = { λ files. files.last_failed };

    fn read(&mut self, alloc: Global, name: &str) -> Result<Vec<u8>, FileFault>
        ensures later { self.old.faults ≤ self.new.faults }
        ensures quiet { UnlessFailed result ((self.new.faults ≡ self.old.faults) × (self.new.last_failed ≡ self.old.last_failed)) }
        ensures failed { OnFailed result (Rose self.old.faults self.new.faults × (self.new.last_failed ≡ name.now)) }
        ensures leaves { ReadLeaves self.old self.new name.now result }
    {
        let copy = String::from_str(alloc, name)?;
        let answer = read_file(&self.rt, alloc, name);
        if let Err(FileFault::Failed) = answer {
            self.faults = self.faults.saturating_add(1);
            self.last_failed = Some(copy);
        }
        answer
    }
}

fn read_file<R: std::rt::Files>(rt: &R, alloc: Global, name: &str) -> Result<Vec<u8>, FileFault> {
    let mut file = fs::open(rt, name).map_err(|_| FileFault::Failed)?;
    read_to_end(alloc, &mut file)
}

// Reads a file to its end. A read that a signal interrupts has failed.
fn read_to_end<F: Read>(alloc: Global, file: &mut F) -> Result<Vec<u8>, FileFault>
    ensures { IfOk result (λ v. IfSome (F.remaining file.old) (λ bytes. v.items ≡ bytes)) }
{
    let mut bytes = Vec::new(alloc);
    let mut piece = [0u8; PIECE];
    for _turn in 0..MAX_TURNS {
        match file.read(&mut piece) {
            Ok(0) => return Ok(bytes),
            Ok(count) => bytes.extend_from_slice(&piece[..count])?,
            Err(_) => return Err(FileFault::Failed),
        }
    }
    Err(FileFault::Failed)
}
