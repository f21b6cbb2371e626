//! What a file says, and where.

use pg_proof::LitList;
use sqlite_items::Items;

/// Where something stands in a file. Both are numbered from 1.
#[derive(Clone, Copy, Debug, PartialEq, Eq)]
pub enum Place {
    /// A line of a text.
    Line(u64),
    /// A record of a binary proof.
    Record(u64),
}

/// Numbers that an LRAT proof gives clauses.
pub type IdList = Items<u64>;

/// What one record of a proof does. Literals are numbers other than 0: n stands for variable n, and -n for its negation.
#[derive(Debug, Drop)]
pub enum Act {
    /// A clause of these literals is added.
    Add(LitList),
    /// The same, and it gets this number.
    AddNumbered(u64, LitList),
    /// A clause of these literals is removed.
    Remove(LitList),
    /// The clauses of these numbers are removed.
    RemoveNumbered(IdList),
}

/// One record of a proof, and where it stands.
#[derive(Debug, Drop)]
pub struct Record {
    /// Where it stands.
    pub place: Place,
    /// What it does.
    pub act: Act,
}

/// The records of a proof, in order.
pub type RecordList = Items<Record>;

/// What a file says.
#[derive(Debug, Drop)]
pub enum Foreign {
    /// A proof.
    Proof(RecordList),
    /// The literals that an assignment makes true.
    Model(LitList),
}
