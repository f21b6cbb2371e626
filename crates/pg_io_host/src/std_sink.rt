//! The sink over a writer of the system, as standard output.
//!
//! A program lends one over standard output to what it calls. It keeps nothing back: what a put is given goes to the writer at
//! once, so that no put can fail after it was answered, and no memory is taken. What arrives at the other end is the
//! system's, so the sink tells no content; a writer that tells its own is seen to get each piece whole, or a front of
//! the one that failed. Failed puts are counted, up to 2^64 - 1.

ghost use Rattle.std.specs.Prelude.{◌≡◌, None, OnOk, OnErr};
ghost use Rattle.std.specs.Io.KnownBytes.{Appends};
ghost use Rattle.pg_edge.specs.Count.{one_more};
ghost use Rattle.pg_edge.specs.Sink.{Puts};
ghost use Rattle.pg_io_host.specs.Streams.{AppendsFront};

use crate::streams::write_whole;
use pg_edge::{Failed, Sink};
use std::io::Write;

/// A sink that writes to `to`, with a count of the puts that failed.
#[derive(Drop)]
pub struct StdSink<W: Write + Drop> {
    to: W,
    faults: u64,
}

impl<W: Write + Drop> StdSink<W> {
    /// A sink over the writer, with no fault yet.
    pub fn new(to: W) -> StdSink<W>
        ensures to { result.to ≡ to }
        ensures faults { result.faults ≡ 0 }
    {
        StdSink { to, faults: 0 }
    }

    /// How many puts have failed.
    pub fn faults(&self) -> u64
        ensures { result ≡ self.now.faults }
    {
        self.faults
    }

    /// The writer.
    pub fn writer(&self) -> &W
        ensures { result.now ≡ self.now.to }
    {
        &self.to
    }
}

impl<W: Write + Drop> Sink for StdSink<W> {
    ghost written = { λ _. None };

    ghost faults = { λ sink. sink.faults };

    /// Writes `bytes` to the writer.
    ///
    /// # Errors
    /// `Failed` where a write fails, or takes nothing of what is left. It is counted, and a front of the bytes may
    /// have been written.
    fn put(&mut self, bytes: &[u8]) -> Result<(), Failed>
        ensures puts { Puts None None self.old.faults self.new.faults bytes.now result }

        ensures whole { OnOk result (Appends (W.contents self.old.to) (W.contents self.new.to) bytes.now) }
        ensures front { OnErr result (AppendsFront (W.contents self.old.to) (W.contents self.new.to) bytes.now) }
        ensures no_fault { OnOk result (self.new.faults ≡ self.old.faults) }
        ensures fault { OnErr result (self.new.faults ≡ one_more self.old.faults) }
    {
        match write_whole(&mut self.to, bytes) {
            Ok(()) => Ok(()),
            Err(_) => {
                self.faults = self.faults.saturating_add(1);
                Err(Failed)
            }
        }
    }
}
