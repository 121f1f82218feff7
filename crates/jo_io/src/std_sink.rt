// The streams of the host.
ghost use Rattle.std.specs.Prelude.{◌≡◌, ◌≤◌, None, OnOk, OnErr};
ghost use Rattle.std.specs.Io.KnownBytes.{Appends};
ghost use Rattle.jo_io.specs.Counts.{next_count};
ghost use Rattle.jo_io.specs.Sink.{Rose};

use crate::{Failed, Sink};
use std::io;
use std::io::Write;

/// A stream of the host, as the standard output or the standard error. Nothing is told of what it was given.
#[derive(Drop)]
pub struct StdSink<W> {
    stream: W,
    faults: u64,
}

impl<W: Write> StdSink<W> {
    ghost use Rattle.jo_io.specs.StdSink.{stream_of, faults_of};

    /// A program gives `rt.stdout()` or `rt.stderr()`.
    pub fn new(stream: W) -> Self
        ensures stream { stream_of result ≡ stream }
        ensures faults { faults_of result ≡ 0 }
    {
        StdSink { stream, faults: 0 }
    }

    /// How many puts have failed.
    pub fn faults(&self) -> u64
        ensures { result ≡ faults_of self.now }
    {
        self.faults
    }
}

impl<W: Write> Sink for StdSink<W> {
    ghost use Rattle.jo_io.specs.StdSink.{stream_of, faults_of};

    ghost given = { λ _. None };

    ghost faults = { faults_of };

    fn put(&mut self, bytes: &[u8]) -> Result<(), Failed>
        ensures later { faults_of self.old ≤ faults_of self.new }
        ensures quiet { OnOk result (faults_of self.new ≡ faults_of self.old) }
        ensures failed { OnErr result (Rose (faults_of self.old) (faults_of self.new)) }
        ensures count { OnErr result (faults_of self.new ≡ next_count (faults_of self.old)) }

        // Where the stream tells what it holds.
        ensures written { OnOk result (Appends (W.contents (stream_of self.old)) (W.contents (stream_of self.new)) bytes.now) }
    {
        match write_out(&mut self.stream, bytes) {
            Ok(()) => Ok(()),
            Err(_) => {
                self.faults = self.faults.saturating_add(1);
                Err(Failed)
            }
        }
    }
}

fn write_out<W: Write>(stream: &mut W, bytes: &[u8]) -> io::Result<()>
    ensures { OnOk result (Appends (W.contents stream.old) (W.contents stream.new) bytes.now) }
{
    stream.write_all(bytes)?;
    stream.flush()
}
