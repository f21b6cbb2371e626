//! Tracing a conflict back along the trail.
//!
//! A clause that is false is false because of the literals that were set last. Going back, each literal of it that was
//! propagated gives way to those that its reason had: the clause resolved with that reason. What is left when the tracing
//! ends are literals that cannot all be false. The solver learns that.

ghost use Rattle.std.specs.Prelude.{◌≡◌, ◌+◌, ◌*◌, ◌<◌, ◌≤◌, length, take, drop, IfOk, OnOk, IfNone, IsTrue, slice_index_or, None, neg_ℤ, pos};
ghost use Rattle.pg_watch.specs.Trail.{IsConflict, AreDerived, IsSomeNumber};
ghost use Rattle.pg_proof.specs.Places.{is_marked};
ghost use Rattle.pg_sat_guide.specs.Over.{IsOver};
ghost use Rattle.pg_sat.specs.Trace.{IsTraced, AreDown, IsLone};

use crate::flags::{Flags, place};
use pg_sat_guide::{Guide, negation};
use pg_watch::Watches;
use std::alloc::{AllocError, Global};

/// What a conflict was traced back to: a flag for each literal, up where it is left, and the numbers of the clauses that
/// were resolved, the last one first.
#[derive(Drop)]
pub struct Trace {
    pub flags: Flags,
    pub hints: Vec<u32>,
}

/// The literals of a clause that is false.
fn begin(
    alloc: Global,
    watches: &Watches,
    variables: u32,
    conflict: u32,
    guide: &mut Guide,
) -> Result<Trace, AllocError>
    requires over { IsOver variables watches.now.clauses watches.now.trail }
    requires conflict { IsConflict watches.now.clauses watches.now.trail.literals conflict }
    ensures { IfOk result (λ trace. IsTraced variables watches.now.clauses watches.now.trail.literals trace.flags trace.hints.items) }
{
    let mut flags = Flags::new(alloc, variables)?;
    let clause = watches.clause(conflict);
    flags.show(clause, guide);
    flags.mark(clause);
    let mut hints = Vec::new(alloc);
    hints.push(conflict)?;
    Ok(Trace { flags, hints })
}

/// Goes back over one place of the trail, which was propagated.
fn step_back(
    watches: &Watches,
    variables: u32,
    at: usize,
    trace: &mut Trace,
    guide: &mut Guide,
) -> Result<(), AllocError>
    requires over { IsOver variables watches.now.clauses watches.now.trail }
    requires there { at < length watches.now.trail.literals }
    requires propagated { IsSomeNumber (slice_index_or watches.now.trail.reasons at None) }
    requires traced { IsTraced variables watches.now.clauses (take (at + 1) watches.now.trail.literals) trace.old.flags trace.old.hints.items }
    ensures { OnOk result (IsTraced variables watches.now.clauses (take at watches.now.trail.literals) trace.new.flags trace.new.hints.items) }
{
    let literal = watches.trail()[at];
    if !trace.flags.is_up(place(negation(literal))) {
        return Ok(());
    }
    match watches.reason(at) {
        Some(reason) => {
            let clause = watches.clause(reason);
            trace.flags.show(clause, guide);
            trace.flags.resolve(literal, clause);
            trace.hints.push(reason)?;
            Ok(())
        }
        None => Ok(()),
    }
}

/// Traces a conflict back to a place of the trail from which on all was propagated. It costs the number of places, and the length of the
/// reasons that are resolved.
pub fn trace_back(
    alloc: Global,
    watches: &Watches,
    variables: u32,
    conflict: u32,
    from: usize,
    guide: &mut Guide,
) -> Result<Trace, AllocError>
    requires over { IsOver variables watches.now.clauses watches.now.trail }
    requires conflict { IsConflict watches.now.clauses watches.now.trail.literals conflict }
    requires from { from ≤ length watches.now.trail.literals }
    requires propagated { AreDerived (drop from watches.now.trail.reasons) }
    ensures { IfOk result (λ trace. IsTraced variables watches.now.clauses (take from watches.now.trail.literals) trace.flags trace.hints.items) }
{
    let mut trace = begin(alloc, watches, variables, conflict, guide)?;
    let mut at = watches.trail().len();
    while at > from {
        at -= 1;
        step_back(watches, variables, at, &mut trace, guide)?;
    }
    Ok(trace)
}

/// Whether the flag of the negation of the literal at a place of the trail is up.
pub fn is_denied(watches: &Watches, variables: u32, flags: &Flags, at: usize) -> bool
    requires over { IsOver variables watches.now.clauses watches.now.trail }
    requires there { at < length watches.now.trail.literals }
    requires places { length flags.now ≡ 2 * variables + 2 }
    ensures { result ≡ is_marked flags.now (neg_ℤ (slice_index_or watches.now.trail.literals at (pos 0))) }
{
    let literal = watches.trail()[at];
    flags.is_up(place(negation(literal)))
}

/// The last place before one, and not before another, whose literal's negation has its flag up.
fn last_denied(
    watches: &Watches,
    variables: u32,
    flags: &Flags,
    low: usize,
    at: usize,
) -> Option<usize>
    requires over { IsOver variables watches.now.clauses watches.now.trail }
    requires there { at < length watches.now.trail.literals }
    requires places { length flags.now ≡ 2 * variables + 2 }
    ensures { IfNone result (AreDown flags.now watches.now.trail.literals low at) }
{
    let mut place = at;
    while place > low {
        place -= 1;
        if is_denied(watches, variables, flags, place) {
            return Some(place);
        }
    }
    None
}

/// Whether the literal at a place is the only one left of those from a lower place on. `denied` is the last place of which
/// it is known that another is left there, so that no place is looked at twice.
fn is_lone(
    watches: &Watches,
    variables: u32,
    flags: &Flags,
    low: usize,
    at: usize,
    denied: &mut usize,
) -> bool
    requires over { IsOver variables watches.now.clauses watches.now.trail }
    requires there { at < length watches.now.trail.literals }
    requires places { length flags.now ≡ 2 * variables + 2 }
    ensures { IsTrue result → AreDown flags.now watches.now.trail.literals low at }
{
    if at > *denied {
        return false;
    }
    if !is_denied(watches, variables, flags, at) {
        return false;
    }
    match last_denied(watches, variables, flags, low, at) {
        Some(place) => {
            *denied = place;
            false
        }
        None => true,
    }
}

/// What a conflict was traced back to, where of the literals that were set with the last assigned one or after it only that
/// at a place is left.
#[derive(Drop)]
pub struct Lone {
    pub trace: Trace,
    pub place: usize,
}

/// Traces a conflict back until one literal is left of those from a place on, behind which all was propagated: the first unique implication
/// point. It costs the number of places, and the length of the reasons that are resolved.
pub fn trace_to_lone(
    alloc: Global,
    watches: &Watches,
    variables: u32,
    conflict: u32,
    last: usize,
    guide: &mut Guide,
) -> Result<Lone, AllocError>
    requires over { IsOver variables watches.now.clauses watches.now.trail }
    requires conflict { IsConflict watches.now.clauses watches.now.trail.literals conflict }
    requires there { last < length watches.now.trail.literals }
    requires propagated { AreDerived (drop (last + 1) watches.now.trail.reasons) }
    ensures { IfOk result (λ lone. IsLone variables watches.now.clauses watches.now.trail.literals last lone.place lone.trace.flags lone.trace.hints.items) }
{
    let mut trace = begin(alloc, watches, variables, conflict, guide)?;
    let mut at = watches.trail().len() - 1;
    let mut denied = at;
    while at > last {
        if is_lone(watches, variables, &trace.flags, last, at, &mut denied) {
            return Ok(Lone { trace, place: at });
        }
        step_back(watches, variables, at, &mut trace, guide)?;
        at -= 1;
    }
    Ok(Lone { trace, place: last })
}
