//! What is wrong with an image.
//!
//! `read_image` answers with one of these, and `placing` finds `Address` and `Overlap`. A fault of the text has the place or
//! the line where it stands. `Memory` is none: it comes of an allocation alone, by `?`.

ghost use Rattle.std.specs.Prelude.{◌≡◌};
ghost use Rattle.pg_image.specs.declared.fault.ImageFault.TheVariants.{Memory};

use std::alloc::AllocError;
use thiserror::Error;

/// Why the bytes of an image gave no image: its first fault, or out of memory. Lines are numbered from 1.
#[derive(Debug, PartialEq, Eq, Drop, Error)]
pub enum ImageFault {
    /// There are more than `IMAGE_BYTES` bytes.
    #[error("too many bytes")]
    Long,
    /// The byte at this place, counted from 0, is the first that may not stand in an image. It is outside comments.
    #[error("bad byte at {0}")]
    Token(usize),
    /// This line is the first that has parts and is no address with words behind it.
    #[error("line {0} is not an address and words")]
    Grammar(usize),
    /// A word of this line would stand at or past the size. No earlier line does so, or gives a cell again.
    #[error("line {0} passes the size")]
    Address(usize),
    /// A cell of this line was given by an earlier one, and the line stays within the size. No earlier line is at fault.
    #[error("line {0} gives a cell again")]
    Overlap(usize),
    /// Memory ran out. It says nothing of the bytes.
    #[error("out of memory")]
    Memory,
}

impl From<AllocError> for ImageFault {
    ghost from_gives = { λ _ fault. fault ≡ Memory };

    fn from(_error: AllocError) -> ImageFault {
        ImageFault::Memory
    }
}
