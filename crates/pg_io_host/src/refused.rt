//! What a shelf over files keeps of the call that it refused last.
//!
//! A program that ends because of a file has to say which, and what the matter was: the answers of the traits carry neither.
//! A name lies in the value itself, so that keeping it takes no memory, and is cut where it is longer than any path that
//! Linux takes.

ghost use Rattle.std.specs.Prelude.{◌≡◌, ◌≤◌, length};
ghost use Rattle.pg_io_host.specs.Refusals.{most_name_bytes, IsCall};

use crate::push::{front, push};
use arrayvec::ArrayVec;
use std::io::ErrorKind;

/// The most bytes that are kept of a name.
pub const NAME_BYTES: usize = 4096;

/// What a call was to do with a file.
#[derive(Debug, Clone, Copy, PartialEq, Eq)]
pub enum Deed {
    /// To read it, whole or in part.
    Read,
    /// To tell its size.
    Size,
    /// To write it.
    Save,
}

/// Why it was not done.
#[derive(Debug, Clone, Copy, PartialEq, Eq)]
pub enum Cause {
    /// No file has the name, and it was to be read or measured.
    Missing,
    /// The system refused, with an error of this kind.
    System(ErrorKind),
}

/// A call that was refused: the deed, the cause, and the name of the file.
#[derive(Drop)]
pub struct Refused {
    deed: Deed,
    cause: Cause,
    is_cut: bool,
    name: ArrayVec<u8, NAME_BYTES>,
}

impl Refused {
    /// The refusal of this call.
    pub fn new(deed: Deed, cause: Cause, name: &str) -> Refused
        ensures call { IsCall deed name.now result }
        ensures cause { result.cause ≡ cause }
    {
        let bytes = name.as_bytes();
        let mut kept = ArrayVec::new();
        push(&mut kept, front(bytes, NAME_BYTES));
        Refused {
            deed,
            cause,
            is_cut: bytes.len() > NAME_BYTES,
            name: kept,
        }
    }

    /// What the call was to do.
    pub fn deed(&self) -> Deed
        ensures { result ≡ self.now.deed }
    {
        self.deed
    }

    /// Why it did not.
    pub fn cause(&self) -> Cause
        ensures { result ≡ self.now.cause }
    {
        self.cause
    }

    /// The name of the file, or its first `NAME_BYTES` bytes.
    pub fn name(&self) -> &[u8]
        ensures items { result.now ≡ self.now.name.items }
        ensures fits { length result.now ≤ most_name_bytes }
    {
        self.name.as_slice()
    }

    /// Whether the name has more bytes than were kept.
    pub fn is_cut(&self) -> bool
        ensures { result ≡ self.now.is_cut }
    {
        self.is_cut
    }
}
