//! All clauses that watch a literal which got false.
//!
//! `queue` calls it for each literal that was set. A clause that goes on to watch another leaves the list, and the last one
//! takes its place, so that a walk costs no more than the list is long. The list is read in place: a walk pushes to others
//! only.

ghost use Rattle.std.specs.Prelude.{◌≡◌, ◌<◌, length, Some, false, IfOk};
ghost use Rattle.pg_cnf.specs.Literals.{IsLiteral};
ghost use Rattle.pg_watch.specs.Trail.{value_of};
ghost use Rattle.pg_watch.specs.Places.{place_of};
ghost use Rattle.pg_watch.specs.Watching.{list_at, IsIndex, Keeps};
ghost use Rattle.pg_watch.specs.Walks.{IsStepped, IsWalked};

use crate::arena::Arena;
use crate::assignment::{Assignment, place_of};
use crate::fix::Fix;
use crate::index::Index;
use crate::visit::{Visit, visit_clause};
use std::alloc::AllocError;

/// What comes of one step of a walk.
#[derive(Clone, Copy)]
pub enum Step {
    /// The clause stays in the list.
    Stays,
    /// It leaves the list, and another stands in its place.
    Leaves,
    /// The clause with this number is falsified.
    Ends(u32),
}

/// Visits each clause in the list of a literal that is false, so that each has a literal that is true or does not watch that one. It ends
/// at one that is falsified. It takes time in the length of the list, and in the literals of those clauses that have none that is known to
/// be true.
pub fn walk_list(
    clauses: &Arena,
    trail: &mut Assignment,
    index: &mut Index,
    gone: i32,
) -> Result<Fix, AllocError>
    requires index { IsIndex clauses.now trail.old index.old.lists index.old.pairs.items }
    requires literal { IsLiteral trail.old.variables gone }
    requires gone { value_of trail.old.literals gone ≡ Some false }
    ensures keeps { Keeps clauses.now trail.old trail.new index.old.lists index.new.lists index.old.pairs.items index.new.pairs.items }
    ensures walked { IfOk result (IsWalked clauses.now trail.new.literals index.new.lists index.new.pairs.items gone) }
{
    let place = place_of(gone);
    let mut at = 0;
    while at < index.lists.count(place) {
        match take_step(clauses, trail, index, gone, at) {
            Ok(Step::Stays) => at += 1,
            Ok(Step::Leaves) => {}
            Ok(Step::Ends(number)) => return Ok(Fix::Conflict(number)),
            Err(error) => return Err(error),
        }
    }
    Ok(Fix::Quiet)
}

/// Visits one clause of the list of a literal that is false, and takes it from the list where it watches another in its place.
fn take_step(
    clauses: &Arena,
    trail: &mut Assignment,
    index: &mut Index,
    gone: i32,
    at: usize,
) -> Result<Step, AllocError>
    requires index { IsIndex clauses.now trail.old index.old.lists index.old.pairs.items }
    requires literal { IsLiteral trail.old.variables gone }
    requires gone { value_of trail.old.literals gone ≡ Some false }
    requires at { at < length (list_at index.old.lists (place_of gone)) }
    ensures keeps { Keeps clauses.now trail.old trail.new index.old.lists index.new.lists index.old.pairs.items index.new.pairs.items }
    ensures stepped { IfOk result (IsStepped clauses.now trail.new.literals index.old.lists index.new.lists index.new.pairs.items gone at) }
{
    let place = place_of(gone);
    let watch = index.lists.watch(place, at);
    match visit_clause(clauses, trail, index, watch, gone) {
        Ok(Visit::Stays) => Ok(Step::Stays),
        Ok(Visit::Moved) => {
            let _ = index.lists.remove(place, at);
            Ok(Step::Leaves)
        }
        Ok(Visit::Falsified) => Ok(Step::Ends(watch.clause + 1)),
        Err(error) => Err(error),
    }
}
