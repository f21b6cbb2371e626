//! What of a report is told, and how.

use pg_type::Kind;

/// What of a report is told.
#[derive(Clone, Copy, Debug, PartialEq, Eq)]
pub enum Part {
    /// Each instruction that is refused.
    All,
    /// The instruction of this number, whether it is refused or not.
    Instr(usize),
    /// One kind of it.
    Kind(usize, Kind),
}

/// What of a report is told, and how.
#[derive(Clone, Copy, Debug, PartialEq, Eq)]
pub struct Wish {
    /// What is told.
    pub part: Part,
    /// Whether two states that are laid out for a reader are told beside those of the report.
    pub is_readable: bool,
}

impl Wish {
    /// All that is refused, by the states of the report.
    pub(crate) fn all() -> Wish {
        Wish {
            part: Part::All,
            is_readable: false,
        }
    }
}

impl Part {
    /// Whether an instruction is told.
    pub(crate) fn takes(self, instr: usize) -> bool {
        match self {
            Part::All => true,
            Part::Instr(number) | Part::Kind(number, _) => number == instr,
        }
    }

    /// Whether a kind is told.
    pub(crate) fn takes_kind(self, kind: Kind) -> bool {
        match self {
            Part::Kind(_, only) => kind == only,
            Part::All | Part::Instr(_) => true,
        }
    }
}
