//! The solver: a search that forgets, and where that is open one that keeps all.

ghost use Rattle.std.specs.Prelude.{◌<◌, ◌^◌, IfOk};
ghost use Rattle.pg_sat.specs.Answers.{IsAnswer};

use crate::found::Found;
use crate::search::find_watched;
use pg_cnf::Cnf;
use pg_sat::{Answer, Counts, SearchWatcher, Silent};
use std::alloc::{AllocError, Global};

/// The same answers as `pg_sat::solve`, with the same evidence: an assignment, a closed log of at most `budget` steps before its last, or
/// `budget` steps each worth its place and new. It searches with few clauses first, and only where that spends the budget with all of them,
/// so it takes the time of both at most.
pub fn solve(alloc: Global, cnf: &Cnf, budget: u32) -> Result<Answer, AllocError>
    requires { budget < 2 ^ 31 }
    ensures { IfOk result (IsAnswer cnf.now.clauses cnf.now.variables budget) }
{
    match solve_counted(alloc, cnf, budget) {
        Ok((answer, _)) => Ok(answer),
        Err(error) => Err(error),
    }
}

/// The same as `solve`, and what the searches took. The counts are for measurements: nothing is said of them, and nothing rests on
/// them.
pub fn solve_counted(alloc: Global, cnf: &Cnf, budget: u32) -> Result<(Answer, Counts), AllocError>
    requires { budget < 2 ^ 31 }
    ensures { IfOk result (λ told. IsAnswer cnf.now.clauses cnf.now.variables budget told.0) }
{
    solve_watched(alloc, cnf, budget, &mut Silent)
}

/// The same as `solve_counted`, and the watcher is told at each turn how far the search has come: where the first spends the budget, it
/// is told of the second from no clause on. It answers as it does with any other watcher.
pub fn solve_watched<W: SearchWatcher>(
    alloc: Global,
    cnf: &Cnf,
    budget: u32,
    watcher: &mut W,
) -> Result<(Answer, Counts), AllocError>
    requires { budget < 2 ^ 31 }
    ensures { IfOk result (λ told. IsAnswer cnf.now.clauses cnf.now.variables budget told.0) }
{
    let (found, counts) = find_watched(alloc, cnf, budget, watcher)?;
    match found {
        Found::Model(assignment) => Ok((Answer::Sat(assignment), counts)),
        Found::Refuted(steps) => Ok((Answer::Unsat(steps), counts)),
        Found::Open(_) => solve_all(alloc, cnf, budget, counts, watcher),
    }
}

/// What `pg_sat` answers, with what was taken before.
fn solve_all<W: SearchWatcher>(
    alloc: Global,
    cnf: &Cnf,
    budget: u32,
    before: Counts,
    watcher: &mut W,
) -> Result<(Answer, Counts), AllocError>
    requires { budget < 2 ^ 31 }
    ensures { IfOk result (λ told. IsAnswer cnf.now.clauses cnf.now.variables budget told.0) }
{
    match pg_sat::solve_watched(alloc, cnf, budget, watcher) {
        Ok((answer, counts)) => {
            let both = Counts {
                conflicts: counts.conflicts.saturating_add(before.conflicts),
                set: counts.set.saturating_add(before.set),
            };
            Ok((answer, both))
        }
        Err(error) => Err(error),
    }
}
