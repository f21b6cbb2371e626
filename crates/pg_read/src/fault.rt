//! Why a description was not read.
//!
//! `DescFault` goes out to the caller of `read_desc`, with the place. `Stop` is what the functions that make trees answer
//! each other: whether the tokens begin with the part that is asked for, and no place, which `judge` finds. In both, lack of
//! memory has a variant of its own, so that it is never taken for a fault of the text.

ghost use Rattle.std.specs.Prelude.{◌≡◌};
ghost use Rattle.pg_read.specs.declared.fault.Stop.TheVariants.{Memory as NoMemory};

use std::alloc::AllocError;
use thiserror::Error;

/// Why the bytes of a text were not read as a description. Places are bytes of the text, counted from 0.
#[derive(Clone, Copy, Debug, PartialEq, Eq, Error)]
pub enum DescFault {
    /// There are more than `DESC_BYTES` of them.
    #[error("too many bytes")]
    Long,
    /// The first byte, number, word or pattern that makes no token stands here.
    #[error("no token at {0}")]
    Token(usize),
    /// No description goes on with the token that stands here. Where each token could be followed by others and the text
    /// ends too early, this is the length of the text.
    #[error("wrong at {0}")]
    Grammar(usize),
    /// The token that stands here, which a description could go on with, begins an expression of more levels than
    /// `EXPR_LEVELS`, or opens a block of more than `BLOCK_LEVELS`.
    #[error("too deep at {0}")]
    Deep(usize),
    /// Memory ran out. It says nothing of the text.
    #[error("out of memory")]
    Memory,
}

/// Why a part of a description was not read.
#[derive(Clone, Copy)]
pub enum Stop {
    /// The tokens that are left do not begin with that part.
    Unread,
    /// Memory ran out. It says nothing of the tokens.
    Memory,
}

impl From<AllocError> for Stop {
    ghost from_gives = { λ _ stop. stop ≡ NoMemory };

    fn from(_error: AllocError) -> Stop {
        Stop::Memory
    }
}
