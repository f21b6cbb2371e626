//! Why the text of a saved guest is refused.

ghost use Rattle.std.specs.Prelude.{◌≡◌};
ghost use Rattle.pg_move.specs.declared.fault.SavedFault.TheVariants.{Memory};

use std::alloc::AllocError;
use thiserror::Error;

/// Why a text is refused. Lines are numbered from 1, and the first line at fault refuses.
#[derive(Clone, Copy, Debug, PartialEq, Eq, Error)]
pub enum SavedFault {
    /// The text has more than 33,554,432 bytes.
    #[error("the text is too long")]
    Long,
    /// This line has a byte that is none of those from hexadecimal 20 to 7e.
    #[error("line {0}: a byte is foreign")]
    Token(u32),
    /// This line has no form that may stand there, or a number that is out of range; or it has no LF; or it is missing.
    #[error("line {0}: no such line may stand here")]
    Grammar(u32),
    /// This line, the first one, is that of another version.
    #[error("line {0}: the version is unknown")]
    Version(u32),
    /// Memory ran out. It says nothing of the text.
    #[error("out of memory")]
    Memory,
}

impl From<AllocError> for SavedFault {
    ghost from_gives = { λ _ fault. fault ≡ Memory };

    fn from(_error: AllocError) -> SavedFault {
        SavedFault::Memory
    }
}
