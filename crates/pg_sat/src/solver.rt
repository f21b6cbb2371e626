//! The solver: turns of the search until one is the last.

ghost use Rattle.std.specs.Prelude.{◌≡◌, ◌<◌, ◌^◌, ℕ, ℤ, List, [], IfOk};
ghost use Rattle.pg_sat.specs.Answers.{IsAnswer, IsEnded};

use crate::answer::{Answer, Assignment, StepList};
use crate::search::start;
use crate::turn::{Turned, turn};
use crate::watching::{SearchWatcher, Silent};
use pg_cnf::Cnf;
use pg_proof::Step;
use pg_sat_guide::Guide;
use pg_watch::Watches;
use std::alloc::{AllocError, Global};

/// What a search took. Nothing is said of it in contracts, and nothing rests on it.
#[derive(Clone, Copy)]
pub struct Counts {
    /// How many clauses were learned, the empty one with them.
    pub conflicts: u64,
    /// How many literals were set, by propagation and by decisions.
    pub set: u64,
}

/// How a search ends.
#[derive(Drop)]
pub enum Ended {
    /// This assignment makes all clauses true.
    Satisfied(Assignment),
    /// The last step is the empty clause.
    Refuted,
    /// All steps that may be learned were learned.
    Exhausted,
}

/// Looks for an assignment that makes all clauses of a formula true, and learns at most `budget` clauses, fewer than 2^31.
///
/// `Sat` has such an assignment, with a place for each variable. `Unsat` has steps that end with the empty clause: the log is closed, and
/// before its last step there are at most `budget`. `Spent` has `budget` steps, each worth its place and new to unit propagation. Each
/// conflict costs the trail that it is traced along, the reasons that it is traced over and the number of variables, and each decision the
/// logarithm of that number, beside what propagation costs.
pub fn solve(alloc: Global, cnf: &Cnf, budget: u32) -> Result<Answer, AllocError>
    requires { budget < 2 ^ 31 }
    ensures { IfOk result (IsAnswer cnf.now.clauses cnf.now.variables budget) }
{
    match solve_counted(alloc, cnf, budget) {
        Ok((answer, _)) => Ok(answer),
        Err(error) => Err(error),
    }
}

/// The same as `solve`, and what the search took. The counts are for measurements: nothing is said of them, and nothing rests on
/// them.
pub fn solve_counted(alloc: Global, cnf: &Cnf, budget: u32) -> Result<(Answer, Counts), AllocError>
    requires { budget < 2 ^ 31 }
    ensures { IfOk result (λ told. IsAnswer cnf.now.clauses cnf.now.variables budget told.0) }
{
    solve_watched(alloc, cnf, budget, &mut Silent)
}

/// The same as `solve_counted`, and the watcher is told at each turn how far the search has come. It answers as it does with any other
/// watcher.
pub fn solve_watched<W: SearchWatcher>(
    alloc: Global,
    cnf: &Cnf,
    budget: u32,
    watcher: &mut W,
) -> Result<(Answer, Counts), AllocError>
    requires { budget < 2 ^ 31 }
    ensures { IfOk result (λ told. IsAnswer cnf.now.clauses cnf.now.variables budget told.0) }
{
    let mut watches = Watches::new(alloc, cnf)?;
    search(alloc, cnf, &mut watches, budget, watcher)
}

/// Searches with watches that are new, and says what it took.
fn search<W: SearchWatcher>(
    alloc: Global,
    cnf: &Cnf,
    watches: &mut Watches,
    budget: u32,
    watcher: &mut W,
) -> Result<(Answer, Counts), AllocError>
    requires clauses { watches.old.clauses ≡ cnf.now.clauses }
    requires variables { watches.old.trail.variables ≡ cnf.now.variables }
    requires reasons { watches.old.trail.reasons ≡ [] }
    requires budget { budget < 2 ^ 31 }
    ensures { IfOk result (λ told. IsAnswer cnf.now.clauses cnf.now.variables budget told.0) }
{
    let mut guide = Guide::new(alloc, cnf.variables)?;
    let mut steps = Vec::new(alloc);
    let ended = turns(alloc, cnf, watches, &mut steps, &mut guide, budget, watcher)?;
    let counts = counts_of(watches, &guide, steps.len());
    Ok((answer_of(ended, steps), counts))
}

/// Goes from turn to turn until one is the last.
fn turns<W: SearchWatcher>(
    alloc: Global,
    cnf: &Cnf,
    watches: &mut Watches,
    steps: &mut Vec<Step>,
    guide: &mut Guide,
    budget: u32,
    watcher: &mut W,
) -> Result<Ended, AllocError>
    requires clauses { watches.old.clauses ≡ cnf.now.clauses }
    requires variables { watches.old.trail.variables ≡ cnf.now.variables }
    requires reasons { watches.old.trail.reasons ≡ [] }
    requires steps { steps.old.items ≡ [] }
    requires budget { budget < 2 ^ 31 }
    ensures { IfOk result (IsEnded cnf.now.clauses cnf.now.variables budget steps.new.items) }
{
    let mut fix = start(cnf, watches)?;
    'turns: loop {
        match turn(alloc, cnf, watches, steps, guide, budget, fix)? {
            Turned::On(next) => fix = next,
            Turned::Satisfied(assignment) => return Ok(Ended::Satisfied(assignment)),
            Turned::Refuted => return Ok(Ended::Refuted),
            Turned::Exhausted => return Ok(Ended::Exhausted),
        }
        watcher.goes_on(steps.len(), budget);
    }
}

/// The answer that the end of a search is, with the steps that were learned.
fn answer_of(ended: Ended, steps: Vec<Step>) -> Answer
    ensures { (question : List (List ℤ)) (variables budget : ℕ) → IsEnded question variables budget steps.items ended → IsAnswer question variables budget result }
{
    match ended {
        Ended::Satisfied(assignment) => Answer::Sat(assignment),
        Ended::Refuted => Answer::Unsat(StepList::from_vec(steps)),
        Ended::Exhausted => Answer::Spent(StepList::from_vec(steps)),
    }
}

/// What a search took, at its end.
fn counts_of(watches: &Watches, guide: &Guide, steps: usize) -> Counts {
    Counts {
        conflicts: steps as u64,
        set: guide.freed().saturating_add(watches.trail().len() as u64),
    }
}
