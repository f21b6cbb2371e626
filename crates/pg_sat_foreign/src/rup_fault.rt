//! Why a proof is refused.

ghost use Rattle.std.specs.Prelude.{◌≡◌};
ghost use Rattle.pg_sat_foreign.specs.declared.rup_fault.RupFault.TheVariants.{Memory};

use crate::Place;
use std::alloc::AllocError;
use thiserror::Error;

/// Why a proof is refused.
#[derive(Clone, Copy, Debug, PartialEq, Eq, Error)]
pub enum RupFault {
    /// The clause that is added here has a variable that no clause of the question has.
    #[error("a variable that no clause has")]
    UnknownLit(Place),
    /// The clause that is added here does not follow by unit propagation.
    #[error("a clause that does not follow by unit propagation")]
    NotImplied(Place),
    /// There are 2^31 clauses or more, those of the question among them.
    #[error("too many clauses")]
    Many,
    /// The proof ends, and unit propagation does not refute the clauses.
    #[error("the empty clause is not reached")]
    Open,
    /// The checker refuses the log that was made. It comes where this crate is at fault, and not the proof.
    #[error("the log is refused")]
    Unchecked,
    /// Memory ran out. It says nothing of the proof.
    #[error("out of memory")]
    Memory,
}

impl From<AllocError> for RupFault {
    ghost from_gives = { λ _ fault. fault ≡ Memory };

    fn from(_error: AllocError) -> RupFault {
        RupFault::Memory
    }
}
