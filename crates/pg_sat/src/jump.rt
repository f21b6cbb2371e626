//! How far the trail is cut after a conflict.
//!
//! The clause that was learned is unit where the trail is cut before the first literal that was assigned after all but one
//! of its literals were false. It is looked for from the end of the trail, over places alone.

ghost use Rattle.std.specs.Prelude.{ℕ, ◌+◌, ◌*◌, ◌<◌, ◌≤◌, length, take, IfOk, MatchOption, slice_index_or, pos};
ghost use Rattle.pg_proof.specs.Places.{AreWithin};
ghost use Rattle.pg_watch.specs.Trail.{AreDerived};
ghost use Rattle.pg_watch.specs.Assigned.{IsAssigned};
ghost use Rattle.pg_sat_guide.specs.Over.{IsOver};
ghost use Rattle.pg_sat.specs.Learned.{IsAsserting};
ghost use Rattle.pg_sat.specs.Jump.{IsLast, IsJump};

use crate::flags::Flags;
use crate::learn::Learned;
use crate::trace::is_denied;
use pg_watch::Watches;
use std::alloc::{AllocError, Global};

/// The place of the last literal that was assigned, if one was.
pub fn last_assigned(watches: &Watches) -> Option<usize>
    ensures { MatchOption result (AreDerived watches.now.trail.reasons) (IsLast watches.now.trail) }
{
    let mut at = watches.trail().len();
    while at > 0 {
        at -= 1;
        match watches.reason(at) {
            Some(_) => continue,
            None => return Some(at),
        }
    }
    None
}

/// Where the trail is cut for a clause that was learned: at the first literal that was assigned after all but one of its literals were
/// false. It costs the length of the trail, and the number of variables.
pub fn jump_place(
    alloc: Global,
    watches: &Watches,
    variables: u32,
    learned: &Learned,
    last: usize,
) -> Result<usize, AllocError>
    requires over { IsOver variables watches.now.clauses watches.now.trail }
    requires there { last < length watches.now.trail.literals }
    requires assigned { IsAssigned watches.now.trail last }
    requires asserting { IsAsserting (take last watches.now.trail.literals) (slice_index_or watches.now.trail.literals learned.now.place (pos 0)) learned.now.step.lits }
    requires within { AreWithin (2 * variables + 2) learned.now.step.lits }
    ensures { IfOk result (IsJump watches.now.trail learned.now.step.lits) }
{
    let _trail = watches.trail();
    let mut flags = Flags::new(alloc, variables)?;
    flags.mark(learned.step.lits.as_slice());
    let mut jump = last;
    let mut at = last;
    while at > 0 {
        at -= 1;
        if is_denied(watches, variables, &flags, at) {
            return Ok(jump);
        }
        match watches.reason(at) {
            Some(_) => continue,
            None => jump = at,
        }
    }
    Ok(jump)
}

/// The place of the first literal that was assigned, where one was.
fn first_assigned(watches: &Watches, last: usize) -> usize
    requires assigned { IsAssigned watches.now.trail last }
    ensures assigned { IsAssigned watches.now.trail result }
    ensures first { (d : ℕ) → IsAssigned watches.now.trail d → result ≤ d }
{
    let _trail = watches.trail();
    for place in 0..last {
        match watches.reason(place) {
            Some(_) => continue,
            None => return place,
        }
    }
    last
}

/// Where the trail is cut after a conflict: before all that was assigned, where the search is to begin anew.
pub fn cut_place(
    alloc: Global,
    watches: &Watches,
    variables: u32,
    learned: &Learned,
    last: usize,
    anew: bool,
) -> Result<usize, AllocError>
    requires over { IsOver variables watches.now.clauses watches.now.trail }
    requires there { last < length watches.now.trail.literals }
    requires assigned { IsAssigned watches.now.trail last }
    requires asserting { IsAsserting (take last watches.now.trail.literals) (slice_index_or watches.now.trail.literals learned.now.place (pos 0)) learned.now.step.lits }
    requires within { AreWithin (2 * variables + 2) learned.now.step.lits }
    ensures { IfOk result (IsJump watches.now.trail learned.now.step.lits) }
{
    if anew {
        Ok(first_assigned(watches, last))
    } else {
        jump_place(alloc, watches, variables, learned, last)
    }
}
