//! A sink in memory, for tests: it tells its bytes, and fails where it was asked to.
//!
//! All the room there will ever be is taken at the start, so a put never allocates. It fails exactly where
//! it was listed to fail or where its piece would pass the room: the capacity of the vector, which its
//! invariant keeps at the room or above, never decides.
//!
//! Contracts see it as a `SinkView`, and `put` says besides the clause of the trait what view it leaves.
ghost use Rattle.std.specs.Prelude.{◌≡◌, ◌↔◌, ◌+◌, ◌≤◌, [], ◌++◌, length, vec_capacity, OnOk, OnErr, IfOk, IsOk, IsTrue, Some};
ghost use Rattle.std.specs.Bool.{OnTrue, OnFalse};
ghost use Rattle.pg_edge.specs.Sink.{Puts};
ghost use Rattle.pg_edge.specs.SinkView.{next_put, bytes_left, after_put, after_failed_put};

use crate::count::raised;
use crate::failing::Failing;
use crate::shelf::Failed;
use crate::sink::Sink;
use std::alloc::{AllocError, Global};
use std::marker::Model;

/// A sink that keeps its bytes in memory.
#[derive(Drop)]
pub struct MemSink {
    bytes: Vec<u8>,
    room: usize,
    failing: Failing,
    faults: u64,
}

impl Model for MemSink {
    ghost use Rattle.std.specs.Prelude.{◌≤◌, length, vec_capacity};
    ghost use Rattle.pg_edge.specs.SinkView.{SinkView};

    ghost Value = { SinkView };

    ghost view = { λ s. record {
      bytes = s.bytes.items;
      room = s.room;
      failing = s.failing.listed.items;
      calls = s.failing.calls;
      faults = s.faults;
    } };

    ghost invariant = { λ s. (length s.bytes.items ≤ s.room) × (s.room ≤ vec_capacity s.bytes) };
}

impl MemSink {
    /// An empty sink with room for `room` bytes.
    ///
    /// `failing` lists the calls, numbered from 1, that are to fail, each with the bytes that it takes
    /// before it does. A call that is listed twice does what its first entry says.
    ///
    /// # Errors
    /// Where there is no memory for the room.
    pub fn new(
        alloc: Global,
        room: usize,
        failing: Vec<(u64, usize)>,
    ) -> Result<MemSink, AllocError>
        ensures { IfOk result (λ sink. sink ≡ record {
          bytes = [];
          room = room;
          failing = failing.items;
          calls = 0;
          faults = 0;
        }) }
    {
        Ok(MemSink {
            bytes: Vec::with_capacity(alloc, room)?,
            room,
            failing: Failing {
                listed: failing,
                calls: 0,
            },
            faults: 0,
        })
    }

    /// The bytes that were put so far.
    pub fn bytes(&self) -> &[u8]
        ensures { result.now ≡ self.now.bytes }
    {
        &self.bytes
    }

    /// How many puts have failed.
    pub fn faults(&self) -> u64
        ensures { result ≡ self.now.faults }
    {
        self.faults
    }
}

impl Sink for MemSink {
    ghost written = { λ sink. Some sink.bytes };

    ghost faults = { λ sink. sink.faults };

    /// Appends `bytes`, and allocates nothing.
    ///
    /// # Errors
    /// `Failed` exactly where the call is listed or the piece would pass the room. A listed call takes as
    /// many bytes as its entry says, or the piece where that has fewer; a piece past the room adds nothing.
    fn put(&mut self, bytes: &[u8]) -> Result<(), Failed>
        ensures puts { Puts (Some self.old.bytes) (Some self.new.bytes) self.old.faults self.new.faults
            bytes.now result }

        ensures passes { IsOk result ↔ ((next_put self.old ≡ None)
            × (length self.old.bytes + length bytes.now ≤ self.old.room)) }
        ensures ok { OnOk result (self.new ≡ after_put self.old bytes.now) }
        ensures failed { OnErr result (self.new ≡ after_failed_put self.old bytes.now) }
    {
        let failing = self.failing.next_call();
        if append(&mut self.bytes, self.room, failing, bytes) {
            return Ok(());
        }
        self.faults = raised(self.faults);
        Err(Failed)
    }
}

/// Appends `piece`, or the front of it that `failing` lets through, and tells whether all went well.
fn append(bytes: &mut Vec<u8>, room: usize, failing: Option<usize>, piece: &[u8]) -> bool
    requires held { length bytes.old.items ≤ room }
    requires roomy { room ≤ vec_capacity bytes.old }
    ensures passes { IsTrue result ↔ ((failing ≡ None) × (length bytes.old.items + length piece.now ≤ room)) }
    ensures all { OnTrue result (bytes.new.items ≡ bytes.old.items ++ piece.now) }
    ensures left { OnFalse result (bytes.new.items ≡ bytes_left bytes.old.items room failing piece.now) }
    ensures still_held { length bytes.new.items ≤ room }
    ensures still_roomy { room ≤ vec_capacity bytes.new }
{
    if piece.len() > room - bytes.len() {
        return false;
    }
    match failing {
        None => {
            extend(bytes, piece);
            true
        }
        Some(taken) => {
            extend(bytes, &piece[..taken.min(piece.len())]);
            false
        }
    }
}

/// Appends `piece` where the capacity is known to suffice.
fn extend(bytes: &mut Vec<u8>, piece: &[u8])
    requires { length bytes.old.items + length piece.now ≤ vec_capacity bytes.old }
    ensures items { bytes.new.items ≡ bytes.old.items ++ piece.now }
    ensures capacity { vec_capacity bytes.old ≤ vec_capacity bytes.new }
{
    bytes.extend_from_slice(piece).unwrap();
}
