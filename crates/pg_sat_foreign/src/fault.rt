//! Why a file is refused.

ghost use Rattle.std.specs.Prelude.{◌≡◌};
ghost use Rattle.pg_sat_foreign.specs.declared.fault.ForeignFault.TheVariants.{Memory};

use crate::record::Place;
use std::alloc::AllocError;
use thiserror::Error;

/// Why a file is no proof, and no assignment.
#[derive(Clone, Copy, Debug, PartialEq, Eq, Error)]
pub enum ForeignFault {
    /// This line or record has none of the forms of its kind of file.
    #[error("a malformed record")]
    Malformed(Place),
    /// The solver's answer on this line is not that the clauses can all be true, so that no assignment follows.
    #[error("an answer without an assignment")]
    Unsolved(Place),
    /// The values of an assignment have no end.
    #[error("an assignment without its end")]
    Open,
    /// Memory ran out. It says nothing of the file.
    #[error("out of memory")]
    Memory,
}

impl From<AllocError> for ForeignFault {
    ghost from_gives = { λ _ fault. fault ≡ Memory };

    fn from(_error: AllocError) -> ForeignFault {
        ForeignFault::Memory
    }
}
