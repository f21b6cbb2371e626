//! What a log is made of: steps, acts, and why a checker refuses one.

ghost use Rattle.std.specs.Prelude.{◌≡◌};
ghost use Rattle.pg_proof.specs.declared.step.ProofFault.TheVariants.{Memory};

use sqlite_items::Items;
use std::alloc::AllocError;
use thiserror::Error;

/// The literals of a clause: n stands for variable n, and -n for its negation.
pub type LitList = Items<i32>;

/// Numbers of clauses.
pub type HintList = Items<u32>;

/// A clause to be added, and the numbers of the clauses that show it, in the order in which they are used.
#[derive(Debug, Drop)]
pub struct Step {
    /// The literals of the clause, ascending by variable.
    pub lits: LitList,
    /// The clauses that set literals, one each, and last the one that is false then.
    pub hints: HintList,
}

/// One line of a log.
#[derive(Debug, Drop)]
pub enum Act {
    /// A clause is added, under the next number.
    Add(Step),
    /// The clauses of these numbers are taken away.
    Remove(HintList),
}

/// Why a step is refused, or a removal: the first fault in the order in which they are looked at, or out of memory.
#[derive(Debug, PartialEq, Eq, Drop, Error)]
pub enum ProofFault {
    /// A literal of the step is 0, of a variable that no clause of the question has, or does not ascend.
    #[error("a literal is unknown or out of order")]
    UnknownLit,
    /// A hint names no clause that is held.
    #[error("a hint names no clause")]
    UnknownHint,
    /// The clause of a hint sets no literal, or is false before the last hint.
    #[error("the clause of a hint is not unit")]
    NotUnit,
    /// After the last hint no clause is false.
    #[error("no clause is false at the end")]
    NoConflict,
    /// A clause to be taken away is not held.
    #[error("a clause to be removed is not held")]
    UnknownClause,
    /// Memory ran out. It says nothing of the step.
    #[error("out of memory")]
    Memory,
}

impl From<AllocError> for ProofFault {
    ghost from_gives = { λ _ fault. fault ≡ Memory };

    fn from(_error: AllocError) -> ProofFault {
        ProofFault::Memory
    }
}
