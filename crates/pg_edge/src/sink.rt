//! Where output goes, piece by piece.
//!
//! A sink takes bytes in order and keeps their order. A piece goes in whole or is refused, and a refused
//! piece may have gone in as far as some byte. A writer of many pieces has the same contract as one `put`
//! of them all, by the laws on `Puts`: it stops at the first piece that is refused, and what was written is
//! then a front of the whole. So each text above is one `Puts`, however it is cut into pieces.
//!
//! `written` is none for a sink that does not tell its bytes, as standard output. The count of faults rises at
//! each put that fails, until it stands at `2^64 - 1`, and at no other.
ghost use Rattle.std.specs.Prelude.{ℕ, List, Option};
ghost use Rattle.pg_edge.specs.Sink.{Puts};

use crate::shelf::Failed;

/// A place that takes bytes in order, with a count of the puts that failed.
pub trait Sink {
    /// The bytes so far, where the sink tells them.
    ghost written: { Self → Option (List ℕ) };

    /// How many puts have failed.
    ghost faults: { Self → ℕ };

    /// Appends `bytes` to what was written.
    ///
    /// # Errors
    /// `Failed` where not all of the piece went through. A front of it may have. A put of no bytes may fail too, and
    /// counts like any other.
    fn put(&mut self, bytes: &[u8]) -> Result<(), Failed>
        ensures puts { Puts (written self.old) (written self.new) (faults self.old) (faults self.new)
            bytes.now result };
}
