//! A search that forgets: turns until one is the last.

ghost use Rattle.std.specs.Prelude.{◌≡◌, ◌<◌, ◌^◌, ℕ, ℤ, List, [], IfOk};
ghost use Rattle.pg_sat_search.specs.Held.{IsForgetting};
ghost use Rattle.pg_sat_search.specs.Findings.{IsFinding, IsEnded};

use crate::course::Course;
use crate::found::Found;
use crate::held::Held;
use crate::learn::settle;
use crate::turn::{Turned, turn};
use pg_cnf::Cnf;
use pg_proof::Step;
use pg_sat::{Assignment, Counts, SearchWatcher, Silent, StepList};
use std::alloc::{AllocError, Global};

/// How a search ends.
#[derive(Drop)]
pub enum Ended {
    /// This assignment makes all clauses true.
    Satisfied(Assignment),
    /// The last step is the empty clause.
    Closed,
    /// All steps that may be learned were learned.
    Exhausted,
}

/// Looks for an assignment that makes all clauses of a formula true, and learns at most `budget` clauses, fewer than 2^31.
///
/// `Model` has such an assignment, with a place for each variable. `Refuted` has steps that end with the empty clause: the log is closed,
/// and before its last step there are at most `budget`. `Open` has `budget` steps, each valid. Each conflict costs what it costs
/// `pg_sat::solve`, but for propagation, which goes over the clauses that are held alone.
pub fn find(alloc: Global, cnf: &Cnf, budget: u32) -> Result<Found, AllocError>
    requires { budget < 2 ^ 31 }
    ensures { IfOk result (IsFinding cnf.now.clauses cnf.now.variables budget) }
{
    match find_counted(alloc, cnf, budget) {
        Ok((found, _)) => Ok(found),
        Err(error) => Err(error),
    }
}

/// The same as `find`, and what it took. The counts are for measurements: nothing is said of them, and nothing rests on them.
pub fn find_counted(alloc: Global, cnf: &Cnf, budget: u32) -> Result<(Found, Counts), AllocError>
    requires { budget < 2 ^ 31 }
    ensures { IfOk result (λ told. IsFinding cnf.now.clauses cnf.now.variables budget told.0) }
{
    find_watched(alloc, cnf, budget, &mut Silent)
}

/// The same as `find_counted`, and the watcher is told at each turn how far the search has come. It finds what it finds with any other
/// watcher.
pub fn find_watched<W: SearchWatcher>(
    alloc: Global,
    cnf: &Cnf,
    budget: u32,
    watcher: &mut W,
) -> Result<(Found, Counts), AllocError>
    requires { budget < 2 ^ 31 }
    ensures { IfOk result (λ told. IsFinding cnf.now.clauses cnf.now.variables budget told.0) }
{
    let mut held = Held::new(alloc, cnf)?;
    let mut course = Course::new(alloc, cnf.variables)?;
    let mut steps = Vec::new(alloc);
    let ended = turns(
        alloc,
        cnf,
        &mut held,
        &mut steps,
        &mut course,
        budget,
        watcher,
    )?;
    let counts = counts_of(&held, &course, steps.len());
    Ok((found_of(ended, steps), counts))
}

/// Goes from turn to turn until one is the last.
fn turns<W: SearchWatcher>(
    alloc: Global,
    cnf: &Cnf,
    held: &mut Held,
    steps: &mut Vec<Step>,
    course: &mut Course,
    budget: u32,
    watcher: &mut W,
) -> Result<Ended, AllocError>
    requires forgetting { IsForgetting cnf.now.clauses cnf.now.variables held.old.watches held.old.numbers.items steps.old.items }
    requires steps { steps.old.items ≡ [] }
    requires budget { budget < 2 ^ 31 }
    ensures { IfOk result (IsEnded cnf.now.clauses cnf.now.variables budget steps.new.items) }
{
    let mut fix = settle(cnf, held, steps.as_slice())?;
    'turns: loop {
        match turn(alloc, cnf, held, steps, course, budget, fix)? {
            Turned::On(next) => fix = next,
            Turned::Satisfied(assignment) => return Ok(Ended::Satisfied(assignment)),
            Turned::Closed => return Ok(Ended::Closed),
            Turned::Exhausted => return Ok(Ended::Exhausted),
        }
        watcher.goes_on(steps.len(), budget);
    }
}

/// What the end of a search finds, with the steps that were learned.
fn found_of(ended: Ended, steps: Vec<Step>) -> Found
    ensures { (question : List (List ℤ)) (variables budget : ℕ) → IsEnded question variables budget steps.items ended → IsFinding question variables budget result }
{
    match ended {
        Ended::Satisfied(assignment) => Found::Model(assignment),
        Ended::Closed => Found::Refuted(StepList::from_vec(steps)),
        Ended::Exhausted => Found::Open(StepList::from_vec(steps)),
    }
}

/// What a search took, at its end.
fn counts_of(held: &Held, course: &Course, steps: usize) -> Counts {
    Counts {
        conflicts: steps as u64,
        set: course
            .guide
            .freed()
            .saturating_add(held.watches.trail().len() as u64),
    }
}
