// A sink in memory.
ghost use Rattle.std.specs.Prelude.{◌≡◌, ◌+◌, ◌≤◌, [], ◌++◌, length, vec_len, vec_capacity, IfOk, OnOk, OnErr, Some};
ghost use Rattle.jo_io.specs.MemorySink.{PutEnds};
ghost use Rattle.jo_io.specs.Sink.{Rose, Extends, ExtendsByPrefix};

use crate::numbers::is_listed;
use crate::{Failed, Memory, Sink};
use std::alloc::Global;
use std::marker::Model;

/// Keeps the bytes that it is given, as many as it has room for.
///
/// Puts are numbered from 0. One that is to fail takes the first byte of its piece, where there is one and room for it.
#[derive(Drop)]
pub struct MemorySink {
    bytes: Vec<u8>,
    room: usize,
    failing: Vec<u32>,
    puts: u64,
    faults: u64,
}

impl Model for MemorySink {
    ghost use Rattle.std.specs.Prelude.{◌≤◌, vec_len, vec_capacity};
    ghost use Rattle.jo_io.specs.MemorySink.{StoredBytes};

    ghost Value = { StoredBytes };

    ghost view = { λ sink. record {
      bytes = sink.bytes.items;
      room = sink.room;
      failing = sink.failing.items;
      puts = sink.puts;
      faults = sink.faults;
    } };

    ghost invariant = { λ sink. (vec_len sink.bytes ≤ sink.room) × (sink.room ≤ vec_capacity sink.bytes) };
}

impl MemorySink {
    /// `room` is how many bytes it takes in all: no put takes memory. `failing` has the numbers of the puts that are to fail.
    pub fn new(alloc: Global, room: u32, failing: Vec<u32>) -> Result<MemorySink, Memory>
        ensures { IfOk result (λ sink. sink ≡ record {
          bytes = [];
          room = room;
          failing = failing.items;
          puts = 0;
          faults = 0;
        }) }
    {
        let room = room as usize;
        Ok(MemorySink {
            bytes: Vec::with_capacity(alloc, room)?,
            room,
            failing,
            puts: 0,
            faults: 0,
        })
    }

    /// All bytes taken so far.
    pub fn bytes(&self) -> &[u8]
        ensures all { result.now ≡ self.now.bytes }
        ensures fits { length result.now ≤ self.now.room }
    {
        &self.bytes
    }

    /// How many puts have failed.
    pub fn faults(&self) -> u64
        ensures { result ≡ self.now.faults }
    {
        self.faults
    }
}

impl Sink for MemorySink {
    ghost given = { λ sink. Some sink.bytes };

    ghost faults = { λ sink. sink.faults };

    fn put(&mut self, bytes: &[u8]) -> Result<(), Failed>
        ensures later { self.old.faults ≤ self.new.faults }
        ensures taken { OnOk result (Extends (Some self.old.bytes) (Some self.new.bytes) bytes.now) }
        ensures quiet { OnOk result (self.new.faults ≡ self.old.faults) }
        ensures failed { OnErr result (Rose self.old.faults self.new.faults) }
        ensures part { OnErr result (ExtendsByPrefix (Some self.old.bytes) (Some self.new.bytes) bytes.now) }

        // Which puts fail, and all that a put leaves.
        ensures ends { PutEnds self.old self.new bytes.now result }
    {
        let left = self.room - self.bytes.len();
        let is_to_fail = is_listed(&self.failing, self.puts);
        self.puts = self.puts.saturating_add(1);
        if !is_to_fail && bytes.len() <= left {
            append(&mut self.bytes, bytes);
            return Ok(());
        }
        let most = if is_to_fail { left.min(1) } else { left };
        append(&mut self.bytes, &bytes[..bytes.len().min(most)]);
        self.faults = self.faults.saturating_add(1);
        Err(Failed)
    }
}

// Puts a piece behind the bytes, which have room for it.
fn append(bytes: &mut Vec<u8>, piece: &[u8])
    requires { vec_len bytes.old + length piece.now ≤ vec_capacity bytes.old }
    ensures items { bytes.new.items ≡ bytes.old.items ++ piece.now }
    ensures len { vec_len bytes.new ≡ vec_len bytes.old + length piece.now }
    ensures capacity { vec_capacity bytes.old ≤ vec_capacity bytes.new }
{
    bytes.extend_from_slice(piece).unwrap();
}
