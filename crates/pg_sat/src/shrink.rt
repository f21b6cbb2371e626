//! Fewer literals for what a conflict shows.
//!
//! Of the literals that a trace has left, one whose reason has none but others of them besides is implied by these: it is
//! resolved away too, and the step gets shorter (Een and Sorensson, 2003; Beame, Kautz and Sabharwal, 2004).

ghost use Rattle.std.specs.Prelude.{◌≡◌, ◌≢◌, ℤ, ◌+◌, ◌*◌, ◌<◌, length, true, pos, neg_ℤ, IsTrue, OnOk, slice_index_or};
ghost use Rattle.pg_proof.specs.Places.{has, is_marked, AreWithin};
ghost use Rattle.pg_sat_guide.specs.Over.{IsOver};
ghost use Rattle.pg_sat.specs.Trace.{IsThin, AreFewer};

use crate::flags::{Flags, place};
use crate::trace::{Trace, is_denied};
use pg_watch::Watches;
use std::alloc::AllocError;

/// Whether the flags of all literals of a clause are up, but for one.
fn are_up(flags: &Flags, clause: &[i32], but: i32) -> bool
    requires { AreWithin (length flags.now) clause.now }
    ensures { IsTrue result → (y : ℤ) → has clause.now y ≡ true → y ≢ but → is_marked flags.now y ≡ true }
{
    for literal in clause {
        if *literal == but {
            continue;
        }
        if !flags.is_up(place(*literal)) {
            return false;
        }
    }
    true
}

/// Resolves the literal at a place away, where the others imply it.
fn shrink_at(
    watches: &Watches,
    variables: u32,
    at: usize,
    trace: &mut Trace,
) -> Result<(), AllocError>
    requires over { IsOver variables watches.now.clauses watches.now.trail }
    requires there { at < length watches.now.trail.literals }
    requires thin { IsThin variables watches.now.clauses watches.now.trail.literals (at + 1) trace.old.flags trace.old.hints.items }
    ensures thin { OnOk result (IsThin variables watches.now.clauses watches.now.trail.literals at trace.new.flags trace.new.hints.items) }
    ensures fewer { OnOk result ((w : ℤ) → w ≢ slice_index_or watches.now.trail.literals at (pos 0)
        → w ≢ neg_ℤ (slice_index_or watches.now.trail.literals at (pos 0)) → AreFewer trace.old.flags trace.new.flags w) }
{
    if !is_denied(watches, variables, &trace.flags, at) {
        let _trail = watches.trail();
        return Ok(());
    }
    let literal = watches.trail()[at];
    match watches.reason(at) {
        None => Ok(()),
        Some(reason) => {
            let clause = watches.clause(reason);
            if !are_up(&trace.flags, clause, literal) {
                return Ok(());
            }
            trace.flags.resolve(literal, clause);
            trace.hints.push(reason)?;
            Ok(())
        }
    }
}

/// Resolves away what the others imply of the literals before a place. It costs the number of places, and the length of the reasons that
/// are looked through.
pub fn shrink(
    watches: &Watches,
    variables: u32,
    from: usize,
    trace: &mut Trace,
) -> Result<(), AllocError>
    requires over { IsOver variables watches.now.clauses watches.now.trail }
    requires there { from < length watches.now.trail.literals }
    requires thin { IsThin variables watches.now.clauses watches.now.trail.literals from trace.old.flags trace.old.hints.items }
    ensures thin { OnOk result (IsThin variables watches.now.clauses watches.now.trail.literals 0 trace.new.flags trace.new.hints.items) }
    ensures fewer { OnOk result (AreFewer trace.old.flags trace.new.flags (neg_ℤ (slice_index_or watches.now.trail.literals from (pos 0)))) }
{
    let _trail = watches.trail();
    let mut at = from;
    while at > 0 {
        at -= 1;
        shrink_at(watches, variables, at, trace)?;
    }
    Ok(())
}
