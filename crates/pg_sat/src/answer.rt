//! What the solver answers.

use pg_proof::Step;
use sqlite_items::Items;

/// The values of variables: place v - 1 has that of variable v.
pub type Assignment = Items<bool>;

/// Steps in order.
pub type StepList = Items<Step>;

/// What the solver answers.
#[derive(Drop)]
pub enum Answer {
    /// This assignment makes all clauses true.
    Sat(Assignment),
    /// No assignment makes all clauses true, as these steps show: the last one is the empty clause.
    Unsat(StepList),
    /// So many steps were learned, and it is not known whether an assignment makes all clauses true.
    Spent(StepList),
}
