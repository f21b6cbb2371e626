//! What is found of a machine, and the families of kinds.

ghost use Rattle.std.specs.Prelude.{◌≡◌};
ghost use Rattle.pg_cert.specs.Verdicts.{kinds_of};

use pg_proof::{ActList, Step};
use pg_type::Kind;
use pg_word::Sparse;
use sqlite_items::Items;

/// Steps in order: a log that takes no clause away.
pub type StepList = Items<Step>;

/// Findings in order.
pub type FindingList = Items<Finding>;

/// Which kinds are asked about: those of Theorem 1, or those of Theorem 3.
#[derive(Clone, Copy, Debug, PartialEq, Eq)]
pub enum Family {
    /// Privileged, control, mode, location and bound.
    Plain,
    /// Privileged, and control, location and bound at user states.
    Hybrid,
}

impl Family {
    /// Its kinds, in order: privileged, and then the sensitive ones.
    pub fn kinds(self) -> &'static [Kind]
        ensures { result.now ≡ kinds_of self }
    {
        match self {
            Family::Plain => &[
                Kind::Privileged,
                Kind::Control,
                Kind::ModeDep,
                Kind::Location,
                Kind::Bound,
            ],
            Family::Hybrid => &[
                Kind::Privileged,
                Kind::UControl,
                Kind::ULocation,
                Kind::UBound,
            ],
        }
    }
}

/// What is found of one instruction and one kind.
#[derive(Debug, Drop)]
pub enum Finding {
    /// No states show the kind: a log, of the clauses that ask for such states.
    Refuted(ActList),
    /// These two states show the kind.
    Shown(Sparse, Sparse),
    /// So many steps of a search were made, these, and the question is open.
    Spent(u32, StepList),
}

/// What is found of a machine.
#[derive(Debug, Drop)]
pub struct Cert {
    /// Which kinds are asked about.
    pub family: Family,
    /// For each instruction in order, and each kind in order, one finding: that of instruction i and kind j, both from 0, at
    /// i times the number of kinds plus j.
    pub findings: FindingList,
}
