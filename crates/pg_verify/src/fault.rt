//! Why the text of a certificate is refused.

ghost use Rattle.std.specs.Prelude.{◌≡◌};
ghost use Rattle.pg_verify.specs.declared.fault.VerifyFault.TheVariants.{Memory};

use pg_type::Kind;
use std::alloc::AllocError;
use thiserror::Error;

/// Why the step of a log is not valid: the first fault in the order in which it is looked at.
#[derive(Clone, Copy, Debug, PartialEq, Eq)]
pub enum StepCause {
    /// A literal is of no variable of the question.
    UnknownLit,
    /// A hint names no clause that is held.
    UnknownHint,
    /// The clause of a hint sets no literal, or is false before the last hint.
    NotUnit,
    /// After the last hint no clause is false.
    NoConflict,
}

/// Why a text is refused. Lines are numbered from 1, instructions from 0. The first line at fault refuses.
#[derive(Clone, Copy, Debug, PartialEq, Eq, Error)]
pub enum VerifyFault {
    /// The text has more than 268,435,456 bytes.
    #[error("the text is too long")]
    Long,
    /// This line has a byte that is none of those from hexadecimal 20 to 7e.
    #[error("line {0}: a byte is foreign")]
    Token(u32),
    /// This line is none of a certificate, or may not stand there.
    #[error("line {0}: no such line may stand here")]
    Grammar(u32),
    /// The first line is that of another version.
    #[error("the version is unknown")]
    Version,
    /// This header names no instruction.
    #[error("line {0}: there is no such instruction")]
    NoSuchInstr(u32),
    /// The step on this line is not valid.
    #[error("line {0}: the step is not valid")]
    BadStep(u32, StepCause),
    /// The log below this header has no empty clause.
    #[error("line {0}: the log is not closed")]
    NotClosed(u32),
    /// The two states below this header do not show the kind.
    #[error("line {0}: the states do not show the kind")]
    BadPair(u32),
    /// The step on this line of a spent log is not worth its place or is one too many; or the log below this header has too few.
    #[error("line {0}: the budget is not spent so")]
    BadSpent(u32),
    /// The finding of this instruction and this kind is due, and a later one, or the end, stands in its place. There is an
    /// instruction of this number, and the kind is one of the family that is asked about.
    #[error("a finding is missing")]
    Missing(usize, Kind),
    /// This header is of a finding that was given before.
    #[error("line {0}: the finding was given before")]
    Extra(u32),
    /// This line takes a clause away that is not held.
    #[error("line {0}: a clause to be removed is not held")]
    BadDelete(u32),
    /// Memory ran out. It says nothing of the text.
    #[error("out of memory")]
    Memory,
}

impl From<AllocError> for VerifyFault {
    ghost from_gives = { λ _ fault. fault ≡ Memory };

    fn from(_error: AllocError) -> VerifyFault {
        VerifyFault::Memory
    }
}
