//! The literals that were set and whose consequences were not drawn yet.
//!
//! They are those of the trail from a place on, its head. Each makes its negation false, so the clauses that watch that one
//! are visited, and the head rises over it when all were. Where a clause is falsified the head stays, so that whoever begins
//! again finds it again.

ghost use Rattle.std.specs.Prelude.{◌≤◌, length, IfOk};
ghost use Rattle.pg_watch.specs.Watching.{IsIndex};
ghost use Rattle.pg_watch.specs.Runs.{Runs, IsRun};

use crate::arena::Arena;
use crate::assignment::Assignment;
use crate::fix::Fix;
use crate::index::Index;
use crate::walk::walk_list;
use std::alloc::AllocError;

/// Draws the consequences of the literals from the head on, and of those that get set by it, through the clauses that watch two literals.
/// It takes time in the lengths of the lists of their negations.
pub fn run_queue(
    clauses: &Arena,
    trail: &mut Assignment,
    index: &mut Index,
    head: &mut usize,
) -> Result<Fix, AllocError>
    requires index { IsIndex clauses.now trail.old index.old.lists index.old.pairs.items }
    requires head { head.old ≤ length trail.old.literals }
    ensures runs { Runs clauses.now trail.old trail.new index.old.lists index.new.lists index.old.pairs.items index.new.pairs.items head.old head.new }
    ensures run { IfOk result (IsRun clauses.now trail.new.literals head.new) }
{
    while *head < trail.len() {
        let gone = trail.negation_at(*head);
        match walk_list(clauses, trail, index, gone) {
            Ok(Fix::Quiet) => *head += 1,
            Ok(Fix::Conflict(number)) => return Ok(Fix::Conflict(number)),
            Err(error) => return Err(error),
        }
    }
    Ok(Fix::Quiet)
}
