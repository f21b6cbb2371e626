//! One turn of the search.
//!
//! The solver goes from turn to turn until one of them is the last. Where nothing is left to propagate a variable is
//! assigned, and where a clause is falsified a step is learned. So each turn uses up a step, or keeps the steps and sets
//! more variables: that is why the search ends.

ghost use Rattle.std.specs.Prelude.{◌≡◌, ◌+◌, ◌<◌, ◌≤◌, ◌^◌, length, true, IfOk, OnOk};
ghost use Rattle.pg_watch.specs.Trail.{IsConflict, IsQuiet, AreDerived};
ghost use Rattle.pg_sat.specs.Jump.{IsLast};
ghost use Rattle.pg_sat.specs.Solving.{IsSolving};
ghost use Rattle.pg_sat.specs.Answers.{IsRefuted};
ghost use Rattle.pg_sat.specs.Turns.{IsSearching, IsTurned, work_left};

use crate::answer::Assignment;
use crate::conflict::back;
use crate::decide::{assignment_of, choose};
use crate::jump::last_assigned;
use crate::learn::refute;
use crate::search::advance;
use pg_cnf::Cnf;
use pg_proof::Step;
use pg_sat_guide::Guide;
use pg_watch::{Fix, Watches};
use std::alloc::{AllocError, Global};

/// How a turn ends.
#[derive(Drop)]
pub enum Turned {
    /// The search goes on from here.
    On(Fix),
    /// This assignment makes all clauses true.
    Satisfied(Assignment),
    /// The last step is the empty clause.
    Refuted,
    /// All steps that may be learned were learned.
    Exhausted,
}

/// Assigns a variable that is unset, or answers that all are set.
fn decide(
    alloc: Global,
    cnf: &Cnf,
    watches: &mut Watches,
    steps: &[Step],
    guide: &mut Guide,
    budget: u32,
) -> Result<Turned, AllocError>
    requires solving { IsSolving cnf.now.clauses cnf.now.variables watches.old.clauses watches.old.trail steps.now }
    requires quiet { watches.old.quiet ≡ true }
    requires nothing_left { IsQuiet watches.old.clauses watches.old.trail.literals }
    requires few { length steps.now ≤ budget }
    ensures { IfOk result (IsTurned cnf.now.clauses cnf.now.variables budget (work_left cnf.now.variables budget watches.old steps.now) watches.new steps.now) }
{
    match choose(watches, guide, cnf.variables) {
        Some(literal) => {
            let fix = advance(cnf, watches, steps, literal)?;
            let _trail = watches.trail();
            Ok(Turned::On(fix))
        }
        None => {
            let assignment = assignment_of(alloc, watches, cnf.variables)?;
            Ok(Turned::Satisfied(Assignment::from_vec(assignment)))
        }
    }
}

/// Ends the steps with the empty clause, at a conflict where nothing was assigned.
fn close(
    alloc: Global,
    cnf: &Cnf,
    watches: &Watches,
    steps: &mut Vec<Step>,
    guide: &mut Guide,
    conflict: u32,
) -> Result<(), AllocError>
    requires solving { IsSolving cnf.now.clauses cnf.now.variables watches.now.clauses watches.now.trail steps.old.items }
    requires conflict { IsConflict watches.now.clauses watches.now.trail.literals conflict }
    requires propagated { AreDerived watches.now.trail.reasons }
    ensures { OnOk result (IsRefuted cnf.now.clauses (length steps.old.items) steps.new.items) }
{
    let step = refute(alloc, watches, cnf.variables, conflict, guide)?;
    steps.push(step)?;
    Ok(())
}

/// Learns a step from a conflict where a literal was assigned.
fn learn(
    alloc: Global,
    cnf: &Cnf,
    watches: &mut Watches,
    steps: &mut Vec<Step>,
    guide: &mut Guide,
    budget: u32,
    conflict: u32,
    last: usize,
) -> Result<Turned, AllocError>
    requires solving { IsSolving cnf.now.clauses cnf.now.variables watches.old.clauses watches.old.trail steps.old.items }
    requires conflict { IsConflict watches.old.clauses watches.old.trail.literals conflict }
    requires last { IsLast watches.old.trail last }
    requires few { length steps.old.items < budget }
    requires budget { budget < 2 ^ 31 }
    ensures { IfOk result (IsTurned cnf.now.clauses cnf.now.variables budget (work_left cnf.now.variables budget watches.old steps.old.items) watches.new steps.new.items) }
{
    let fix = back(alloc, cnf, watches, steps, guide, conflict, last)?;
    Ok(Turned::On(fix))
}

/// Learns from a conflict, or answers that nothing is left to be learned.
fn resolve(
    alloc: Global,
    cnf: &Cnf,
    watches: &mut Watches,
    steps: &mut Vec<Step>,
    guide: &mut Guide,
    budget: u32,
    conflict: u32,
) -> Result<Turned, AllocError>
    requires solving { IsSolving cnf.now.clauses cnf.now.variables watches.old.clauses watches.old.trail steps.old.items }
    requires conflict { IsConflict watches.old.clauses watches.old.trail.literals conflict }
    requires few { length steps.old.items ≤ budget }
    requires budget { budget < 2 ^ 31 }
    ensures { IfOk result (IsTurned cnf.now.clauses cnf.now.variables budget (work_left cnf.now.variables budget watches.old steps.old.items) watches.new steps.new.items) }
{
    match last_assigned(watches) {
        None => match close(alloc, cnf, watches, steps, guide, conflict) {
            Ok(()) => Ok(Turned::Refuted),
            Err(error) => Err(error),
        },
        Some(last) => {
            let is_spent = steps.len() == budget as usize;
            if is_spent {
                let _trail = watches.trail();
                Ok(Turned::Exhausted)
            } else {
                learn(alloc, cnf, watches, steps, guide, budget, conflict, last)
            }
        }
    }
}

/// Goes on from where propagation ended.
pub fn turn(
    alloc: Global,
    cnf: &Cnf,
    watches: &mut Watches,
    steps: &mut Vec<Step>,
    guide: &mut Guide,
    budget: u32,
    fix: Fix,
) -> Result<Turned, AllocError>
    requires searching { IsSearching cnf.now.clauses cnf.now.variables budget watches.old steps.old.items fix }
    requires budget { budget < 2 ^ 31 }
    ensures { IfOk result (IsTurned cnf.now.clauses cnf.now.variables budget (work_left cnf.now.variables budget watches.old steps.old.items) watches.new steps.new.items) }
{
    match fix {
        Fix::Quiet => decide(alloc, cnf, watches, steps.as_slice(), guide, budget),
        Fix::Conflict(conflict) => resolve(alloc, cnf, watches, steps, guide, budget, conflict),
    }
}
