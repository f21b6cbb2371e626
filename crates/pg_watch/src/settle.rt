//! Propagation until nothing is left, or a clause is falsified.
//!
//! `Watches` calls it at each settling. What was set is drawn to its end through the watches first, and only then are the
//! fresh clauses looked at, since they are the slower way. Each turn sets a literal more, so there are no more turns than
//! variables.

ghost use Rattle.std.specs.Prelude.{◌≤◌, length, IfOk};
ghost use Rattle.pg_watch.specs.Fixes.{ArePlaces};
ghost use Rattle.pg_watch.specs.Watching.{IsIndex};
ghost use Rattle.pg_watch.specs.Runs.{Runs, IsSpread, IsTurned};

use crate::arena::Arena;
use crate::assignment::Assignment;
use crate::fix::Fix;
use crate::fresh::look_at_each;
use crate::index::Index;
use crate::queue::run_queue;
use std::alloc::AllocError;

/// Draws all consequences: those of the literals from the head on, through the clauses that watch two literals, and those of some clauses
/// at places, by looks at each of them, until neither gives any more.
pub fn propagate(
    clauses: &Arena,
    trail: &mut Assignment,
    index: &mut Index,
    places: &[u32],
    head: &mut usize,
) -> Result<Fix, AllocError>
    requires index { IsIndex clauses.now trail.old index.old.lists index.old.pairs.items }
    requires places { ArePlaces (length clauses.now) places.now }
    requires head { head.old ≤ length trail.old.literals }
    ensures runs { Runs clauses.now trail.old trail.new index.old.lists index.new.lists index.old.pairs.items index.new.pairs.items head.old head.new }
    ensures spread { IfOk result (IsSpread clauses.now trail.new.literals places.now head.new) }
{
    'turns: loop {
        match take_turn(clauses, trail, index, places, head) {
            Ok(Fix::Quiet) => {
                if trail.len() == *head {
                    return Ok(Fix::Quiet);
                }
            }
            Ok(Fix::Conflict(number)) => return Ok(Fix::Conflict(number)),
            Err(error) => return Err(error),
        }
    }
}

/// Draws the consequences of the literals from the head on, and then looks once at each of some clauses.
fn take_turn(
    clauses: &Arena,
    trail: &mut Assignment,
    index: &mut Index,
    places: &[u32],
    head: &mut usize,
) -> Result<Fix, AllocError>
    requires index { IsIndex clauses.now trail.old index.old.lists index.old.pairs.items }
    requires places { ArePlaces (length clauses.now) places.now }
    requires head { head.old ≤ length trail.old.literals }
    ensures runs { Runs clauses.now trail.old trail.new index.old.lists index.new.lists index.old.pairs.items index.new.pairs.items head.old head.new }
    ensures turned { IfOk result (IsTurned clauses.now trail.old trail.new places.now head.new) }
{
    match run_queue(clauses, trail, index, head) {
        Ok(Fix::Quiet) => look_at_each(clauses, trail, places),
        Ok(Fix::Conflict(number)) => Ok(Fix::Conflict(number)),
        Err(error) => Err(error),
    }
}
