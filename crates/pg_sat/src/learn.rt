//! What a conflict teaches: a step.
//!
//! A solver calls `learn_at` where a clause is false and some literal was assigned, and `refute` where none was: then all is
//! shown. Of the literals that were set with the last assigned one or after it, all but one are resolved away.

ghost use Rattle.std.specs.Prelude.{◌≡◌, ◌+◌, ◌<◌, [], false, length, take, drop, IfOk};
ghost use Rattle.pg_watch.specs.Trail.{IsConflict, IsQuiet, AreDerived};
ghost use Rattle.pg_sat_guide.specs.Over.{IsOver};
ghost use Rattle.pg_sat.specs.Learned.{IsLearnedWithin, IsTaught};

use crate::draw::step_of;
use crate::shrink::shrink;
use crate::trace::{Lone, trace_back, trace_to_lone};
use pg_proof::Step;
use pg_sat_guide::Guide;
use pg_watch::Watches;
use std::alloc::{AllocError, Global};

/// A step, and the place of the literal that it sets where the trail is cut.
#[derive(Drop)]
pub struct Learned {
    pub step: Step,
    pub place: usize,
}

/// The step that a conflict shows, from the last literal that was assigned on: where nothing was left to propagate before it, the step is
/// new to unit propagation.
pub fn learn_at(
    alloc: Global,
    watches: &Watches,
    variables: u32,
    conflict: u32,
    last: usize,
    guide: &mut Guide,
) -> Result<Learned, AllocError>
    requires over { IsOver variables watches.now.clauses watches.now.trail }
    requires conflict { IsConflict watches.now.clauses watches.now.trail.literals conflict }
    requires there { last < length watches.now.trail.literals }
    requires propagated { AreDerived (drop (last + 1) watches.now.trail.reasons) }
    requires quiet { IsQuiet watches.now.clauses (take last watches.now.trail.literals) }
    ensures { IfOk result (λ learned. IsTaught variables watches.now.clauses watches.now.trail.literals last learned.place learned.step) }
{
    let _trail = watches.trail();
    let lone = trace_to_lone(alloc, watches, variables, conflict, last, guide)?;
    let Lone { mut trace, place } = lone;
    shrink(watches, variables, place, &mut trace)?;
    let step = step_of(alloc, &trace, variables)?;
    Ok(Learned { step, place })
}

/// The step of the empty clause, that a conflict shows where no literal was assigned.
pub fn refute(
    alloc: Global,
    watches: &Watches,
    variables: u32,
    conflict: u32,
    guide: &mut Guide,
) -> Result<Step, AllocError>
    requires over { IsOver variables watches.now.clauses watches.now.trail }
    requires conflict { IsConflict watches.now.clauses watches.now.trail.literals conflict }
    requires propagated { AreDerived watches.now.trail.reasons }
    ensures learned { IfOk result (IsLearnedWithin variables watches.now.clauses []) }
    ensures empty { IfOk result (λ step. step.lits ≡ []) }
{
    let trace = trace_back(alloc, watches, variables, conflict, 0, guide)?;
    step_of(alloc, &trace, variables)
}
