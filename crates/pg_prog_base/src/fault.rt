//! Why what another solver wrote is refused, and the line that tells it.

use pg_sat_foreign::{ForeignFault, Place, RupFault};
use std::alloc::{AllocError, Global};
use std::fmt::Write;

/// Why what another solver wrote is refused.
#[derive(Clone, Copy)]
pub enum ProofFault {
    /// It has more bytes than the limit.
    Long,
    /// It has none of the forms that are read.
    Form(ForeignFault),
    /// It is a proof that does not refute the question.
    Rup(RupFault),
    /// It is an assignment, and the question's clause at this place, from 0, is not true under it.
    False(usize),
}

impl ProofFault {
    /// The line that tells it.
    pub fn line(&self, alloc: Global) -> Result<String, AllocError> {
        match self {
            ProofFault::Long => whole(alloc, "too long"),
            ProofFault::Form(ForeignFault::Malformed(place)) => at(alloc, *place, "malformed"),
            ProofFault::Form(ForeignFault::Unsolved(place)) => {
                at(alloc, *place, "an answer without proof or values")
            }
            ProofFault::Form(ForeignFault::Open) => whole(alloc, "the values have no end"),
            ProofFault::Form(ForeignFault::Memory) => Err(AllocError),
            ProofFault::Rup(RupFault::UnknownLit(place)) => {
                at(alloc, *place, "a variable that the question has not")
            }
            ProofFault::Rup(RupFault::NotImplied(place)) => {
                at(
                    alloc,
                    *place,
                    "the clause does not follow by unit propagation",
                )
            }
            ProofFault::Rup(RupFault::Many) => whole(alloc, "too many clauses"),
            ProofFault::Rup(RupFault::Open) => whole(alloc, "the empty clause is not reached"),
            ProofFault::Rup(RupFault::Unchecked) => whole(alloc, "the checker refuses the log"),
            ProofFault::Rup(RupFault::Memory) => Err(AllocError),
            ProofFault::False(place) => {
                let clause = place.saturating_add(1);
                format!(in alloc; "proof: clause {clause} is not true under the values\n")
            }
        }
    }
}

/// The line of a fault of the whole file.
fn whole(alloc: Global, why: &str) -> Result<String, AllocError> {
    format!(in alloc; "proof: {why}\n")
}

/// The line of a fault at a place.
fn at(alloc: Global, place: Place, why: &str) -> Result<String, AllocError> {
    match place {
        Place::Line(number) => format!(in alloc; "proof: line {number}: {why}\n"),
        Place::Record(number) => format!(in alloc; "proof: record {number}: {why}\n"),
    }
}
