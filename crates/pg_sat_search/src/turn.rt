//! One turn of a search that forgets.
//!
//! As in `pg_sat` each turn uses up a step, or keeps the steps and sets more variables: that is why the search ends.

ghost use Rattle.std.specs.Prelude.{◌≡◌, ◌+◌, ◌<◌, ◌≤◌, ◌^◌, length, true, IfOk, OnOk};
ghost use Rattle.pg_watch.specs.Trail.{IsConflict, IsQuiet, AreDerived};
ghost use Rattle.pg_watch.specs.Fixes.{IsEnd, is_quiet};
ghost use Rattle.pg_sat.specs.Jump.{IsLast};
ghost use Rattle.pg_sat_guide.specs.Free.{IsFree};
ghost use Rattle.pg_sat.specs.Answers.{IsRefuted};
ghost use Rattle.pg_sat.specs.Turns.{work_left};
ghost use Rattle.pg_sat_search.specs.Held.{IsForgetting};
ghost use Rattle.pg_sat_search.specs.Turns.{IsSearching, IsTurned};

use crate::course::Course;
use crate::held::Held;
use crate::learn::back;
use crate::renumber::renumbered;
use pg_cnf::Cnf;
use pg_proof::Step;
use pg_sat::{Assignment, assignment_of, choose, last_assigned, refute};
use pg_watch::Fix;
use std::alloc::{AllocError, Global};

/// How a turn ends.
#[derive(Drop)]
pub enum Turned {
    /// The search goes on from here.
    On(Fix),
    /// This assignment makes all clauses true.
    Satisfied(Assignment),
    /// The last step is the empty clause.
    Closed,
    /// All steps that may be learned were learned.
    Exhausted,
}

/// Assigns a literal that is unset, where nothing is left to propagate, and sets what follows.
fn advance(cnf: &Cnf, held: &mut Held, steps: &[Step], literal: i32) -> Result<Fix, AllocError>
    requires forgetting { IsForgetting cnf.now.clauses cnf.now.variables held.old.watches held.old.numbers.items steps.now }
    requires quiet { held.old.watches.quiet ≡ true }
    requires nothing_left { IsQuiet held.old.watches.clauses held.old.watches.trail.literals }
    requires free { IsFree cnf.now.variables held.old.watches.trail.literals literal }
    ensures forgetting { OnOk result (IsForgetting cnf.now.clauses cnf.now.variables held.new.watches held.new.numbers.items steps.now) }
    ensures end { IfOk result (IsEnd held.new.watches.clauses held.new.watches.trail.literals) }
    ensures quiet { IfOk result (λ fix. held.new.watches.quiet ≡ is_quiet fix) }
    ensures longer { OnOk result (length held.old.watches.trail.literals < length held.new.watches.trail.literals) }
{
    // The trail is called for what the prover learns of it.
    let _trail = held.watches.trail();
    held.watches.assign(literal)
}

/// Assigns a variable that is unset, or answers that all are set.
fn decide(
    alloc: Global,
    cnf: &Cnf,
    held: &mut Held,
    steps: &[Step],
    course: &mut Course,
    budget: u32,
) -> Result<Turned, AllocError>
    requires forgetting { IsForgetting cnf.now.clauses cnf.now.variables held.old.watches held.old.numbers.items steps.now }
    requires quiet { held.old.watches.quiet ≡ true }
    requires nothing_left { IsQuiet held.old.watches.clauses held.old.watches.trail.literals }
    requires few { length steps.now ≤ budget }
    ensures { IfOk result (IsTurned cnf.now.clauses cnf.now.variables budget (work_left cnf.now.variables budget held.old.watches steps.now) held.new.watches held.new.numbers.items steps.now) }
{
    match choose(&held.watches, &mut course.guide, cnf.variables) {
        Some(literal) => {
            let fix = advance(cnf, held, steps, literal)?;
            let _trail = held.watches.trail();
            Ok(Turned::On(fix))
        }
        None => {
            let assignment = assignment_of(alloc, &held.watches, cnf.variables)?;
            Ok(Turned::Satisfied(Assignment::from_vec(assignment)))
        }
    }
}

/// Ends the steps with the empty clause, at a conflict where nothing was assigned.
fn close(
    alloc: Global,
    cnf: &Cnf,
    held: &Held,
    steps: &mut Vec<Step>,
    course: &mut Course,
    conflict: u32,
) -> Result<(), AllocError>
    requires forgetting { IsForgetting cnf.now.clauses cnf.now.variables held.now.watches held.now.numbers.items steps.old.items }
    requires conflict { IsConflict held.now.watches.clauses held.now.watches.trail.literals conflict }
    requires propagated { AreDerived held.now.watches.trail.reasons }
    ensures { OnOk result (IsRefuted cnf.now.clauses (length steps.old.items) steps.new.items) }
{
    let found = refute(
        alloc,
        &held.watches,
        cnf.variables,
        conflict,
        &mut course.guide,
    )?;
    let step = renumbered(alloc, found, held.numbers.as_slice())?;
    steps.push(step)?;
    Ok(())
}

/// Learns a step from a conflict where a literal was assigned.
fn learn(
    alloc: Global,
    cnf: &Cnf,
    held: &mut Held,
    steps: &mut Vec<Step>,
    course: &mut Course,
    budget: u32,
    conflict: u32,
    last: usize,
) -> Result<Turned, AllocError>
    requires forgetting { IsForgetting cnf.now.clauses cnf.now.variables held.old.watches held.old.numbers.items steps.old.items }
    requires conflict { IsConflict held.old.watches.clauses held.old.watches.trail.literals conflict }
    requires last { IsLast held.old.watches.trail last }
    requires few { length steps.old.items < budget }
    requires budget { budget < 2 ^ 31 }
    ensures { IfOk result (IsTurned cnf.now.clauses cnf.now.variables budget (work_left cnf.now.variables budget held.old.watches steps.old.items) held.new.watches held.new.numbers.items steps.new.items) }
{
    let fix = back(alloc, cnf, held, steps, course, conflict, last)?;
    Ok(Turned::On(fix))
}

/// Learns from a conflict, or answers that nothing is left to be learned.
fn resolve(
    alloc: Global,
    cnf: &Cnf,
    held: &mut Held,
    steps: &mut Vec<Step>,
    course: &mut Course,
    budget: u32,
    conflict: u32,
) -> Result<Turned, AllocError>
    requires forgetting { IsForgetting cnf.now.clauses cnf.now.variables held.old.watches held.old.numbers.items steps.old.items }
    requires conflict { IsConflict held.old.watches.clauses held.old.watches.trail.literals conflict }
    requires few { length steps.old.items ≤ budget }
    requires budget { budget < 2 ^ 31 }
    ensures { IfOk result (IsTurned cnf.now.clauses cnf.now.variables budget (work_left cnf.now.variables budget held.old.watches steps.old.items) held.new.watches held.new.numbers.items steps.new.items) }
{
    match last_assigned(&held.watches) {
        None => match close(alloc, cnf, held, steps, course, conflict) {
            Ok(()) => Ok(Turned::Closed),
            Err(error) => Err(error),
        },
        Some(last) => {
            let is_spent = steps.len() == budget as usize;
            if is_spent {
                Ok(Turned::Exhausted)
            } else {
                learn(alloc, cnf, held, steps, course, budget, conflict, last)
            }
        }
    }
}

/// Goes on from where propagation ended.
pub fn turn(
    alloc: Global,
    cnf: &Cnf,
    held: &mut Held,
    steps: &mut Vec<Step>,
    course: &mut Course,
    budget: u32,
    fix: Fix,
) -> Result<Turned, AllocError>
    requires searching { IsSearching cnf.now.clauses cnf.now.variables budget held.old.watches held.old.numbers.items steps.old.items fix }
    requires budget { budget < 2 ^ 31 }
    ensures { IfOk result (IsTurned cnf.now.clauses cnf.now.variables budget (work_left cnf.now.variables budget held.old.watches steps.old.items) held.new.watches held.new.numbers.items steps.new.items) }
{
    match fix {
        Fix::Quiet => decide(alloc, cnf, held, steps.as_slice(), course, budget),
        Fix::Conflict(conflict) => resolve(alloc, cnf, held, steps, course, budget, conflict),
    }
}
