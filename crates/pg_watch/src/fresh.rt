//! Clauses that watch no literal, which each settling looks at: the fresh ones.
//!
//! `settle` calls it when what the watches give is drawn. A clause is fresh when it was just added, and mostly once: `attach`
//! lets it go then. So a plain look at each is enough here.

ghost use Rattle.std.specs.Prelude.{◌≡◌, ◌+◌, ◌-◌, ◌<◌, ◌^◌, length, IfOk};
ghost use Rattle.pg_cnf.specs.Literals.{AreClauses};
ghost use Rattle.pg_watch.specs.Trail.{IsTrail};
ghost use Rattle.pg_watch.specs.Fixes.{Steps, ArePlaces, AreSeen, IsLooked};

use crate::arena::Arena;
use crate::assignment::Assignment;
use crate::fix::Fix;
use crate::look::{Look, look_at};
use std::alloc::AllocError;

/// Looks once at each of some clauses, in order, and sets the literal of each that is unit. It ends at one that is falsified.
pub fn look_at_each(
    clauses: &Arena,
    trail: &mut Assignment,
    places: &[u32],
) -> Result<Fix, AllocError>
    requires clauses { AreClauses trail.old.variables clauses.now }
    requires few { length clauses.now < 2 ^ 32 - 1 }
    requires trail { IsTrail clauses.now trail.old }
    requires places { ArePlaces (length clauses.now) places.now }
    ensures steps { Steps clauses.now trail.old trail.new }
    ensures seen { IfOk result (AreSeen clauses.now trail.old trail.new places.now) }
{
    for &place in places {
        match look_and_set(clauses, trail, place) {
            Ok(Fix::Quiet) => {}
            Ok(Fix::Conflict(number)) => return Ok(Fix::Conflict(number)),
            Err(error) => return Err(error),
        }
    }
    Ok(Fix::Quiet)
}

/// Looks at the clause at a place, and sets its literal where it is unit.
fn look_and_set(clauses: &Arena, trail: &mut Assignment, place: u32) -> Result<Fix, AllocError>
    requires clauses { AreClauses trail.old.variables clauses.now }
    requires few { length clauses.now < 2 ^ 32 - 1 }
    requires trail { IsTrail clauses.now trail.old }
    requires place { place < length clauses.now }
    ensures steps { Steps clauses.now trail.old trail.new }
    ensures looked { IfOk result (IsLooked clauses.now trail.old trail.new place) }
{
    match look_at(trail, clauses.clause(place as usize)) {
        Look::Open => Ok(Fix::Quiet),
        Look::Unit(lit) => match trail.push(lit, Some(place + 1)) {
            Ok(()) => Ok(Fix::Quiet),
            Err(error) => Err(error),
        },
        Look::Falsified => Ok(Fix::Conflict(place + 1)),
    }
}
