//! Places in a text, and what is wrong with a text.
//!
//! Both outlast the text: they carry numbers, and borrow nothing.

ghost use Rattle.std.specs.Prelude.{◌≡◌};
ghost use Rattle.pg_text.specs.declared.place.TextFault.TheVariants.{Memory};

use std::alloc::AllocError;
use thiserror::Error;

/// Where a token stands: from the byte `from` up to, and without, the byte `to`, counted from 0.
#[derive(Clone, Copy, Debug, PartialEq, Eq)]
pub struct Span {
    /// The place of its first byte.
    pub from: usize,
    /// The place behind its last byte: above `from`, and at most the length of the text.
    pub to: usize,
}

/// Why a text could not be cut into tokens: the place of its first fault, or out of memory.
#[derive(Debug, Drop, Error)]
pub enum TextFault {
    /// A byte that begins no token, here.
    #[error("bad byte at {0}")]
    BadByte(usize),
    /// What begins with a digit here is no number, or one of 2^64 or more.
    #[error("bad number at {0}")]
    BadNumber(usize),
    /// The word that begins here has more than `NAME_BYTES` bytes.
    #[error("word too long at {0}")]
    BadWord(usize),
    /// The pattern that is opened here holds another byte, or is not closed.
    #[error("bad pattern at {0}")]
    BadPattern(usize),
    /// Memory ran out. It says nothing of the text.
    #[error("out of memory")]
    Memory,
}

impl From<AllocError> for TextFault {
    ghost from_gives = { λ _ fault. fault ≡ Memory };

    fn from(_error: AllocError) -> TextFault {
        TextFault::Memory
    }
}
