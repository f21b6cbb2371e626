//! What a search that forgets finds.

use pg_sat::{Assignment, StepList};

/// What a search that forgets finds.
#[derive(Drop)]
pub enum Found {
    /// This assignment makes all clauses true.
    Model(Assignment),
    /// No assignment makes all clauses true, as these steps show: the last one is the empty clause.
    Refuted(StepList),
    /// So many steps were learned, and it is not known whether an assignment makes all clauses true.
    Open(StepList),
}
