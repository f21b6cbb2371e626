//! What is wrong with a source.
//!
//! `assemble` answers with one of these. A fault of the text has the place or the line where it stands. `Memory` is none: it
//! comes of an allocation alone, by `?`.

ghost use Rattle.std.specs.Prelude.{◌≡◌};
ghost use Rattle.pg_asm.specs.declared.fault.AsmFault.TheVariants.{Memory};

use std::alloc::AllocError;
use thiserror::Error;

/// Why the text of a source gave no image: its first fault, or out of memory. Lines are numbered from 1.
///
/// `Long`, `Token` and `Grammar` come before the others, in this order, wherever they stand in the text. Of the others the
/// first line at fault is told, and on one line they come in their order here.
#[derive(Debug, PartialEq, Eq, Drop, Error)]
pub enum AsmFault {
    /// There are more than `SOURCE_BYTES` bytes.
    #[error("too many bytes")]
    Long,
    /// The byte at this place, counted from 0, is the first that may not stand in a source. It is outside comments.
    #[error("bad byte at {0}")]
    Token(usize),
    /// This line is the first that has none of the forms of lines.
    #[error("line {0} has no form of a line")]
    Grammar(usize),
    /// This line names no instruction.
    #[error("line {0} names no instruction")]
    Name(usize),
    /// The fields of this line are not those of the pattern, each once, from the highest.
    #[error("line {0} gives other fields")]
    Field(usize),
    /// This line uses a label that no line gives, or gives one that an earlier line gave.
    #[error("line {0} uses no label, or gives one again")]
    Label(usize),
    /// A value of this line has more bits than its field.
    #[error("line {0} has a value out of range")]
    Range(usize),
    /// The word of this line would stand at or past the size.
    #[error("line {0} passes the size")]
    Place(usize),
    /// An earlier line gave the cell of this line's word.
    #[error("line {0} gives a cell again")]
    Overlap(usize),
    /// Memory ran out. It says nothing of the text.
    #[error("out of memory")]
    Memory,
}

impl From<AllocError> for AsmFault {
    ghost from_gives = { λ _ fault. fault ≡ Memory };

    fn from(_error: AllocError) -> AsmFault {
        AsmFault::Memory
    }
}
