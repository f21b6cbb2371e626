//! What is done at a conflict: the trail is cut, and the clause that was learned is held.

ghost use Rattle.std.specs.Prelude.{◌≡◌, ◌+◌, ◌<◌, ◌-◌, ◌^◌, length, IfOk, OnOk};
ghost use Rattle.pg_cnf.specs.Literals.{IsClause};
ghost use Rattle.pg_watch.specs.Trail.{IsConflict};
ghost use Rattle.pg_watch.specs.Fixes.{IsEnd, is_quiet};
ghost use Rattle.pg_sat.specs.Jump.{IsLast};
ghost use Rattle.pg_sat.specs.Learned.{IsLesson};
ghost use Rattle.pg_sat.specs.Solving.{IsSolving};

use crate::jump::cut_place;
use crate::learn::learn_at;
use pg_cnf::{Clause, Cnf};
use pg_proof::Step;
use pg_sat_guide::Guide;
use pg_watch::{Fix, Watches};
use smallvec::SmallVec;
use std::alloc::{AllocError, Global};

/// The clause of some literals.
pub fn clause_of(alloc: Global, lits: &[i32]) -> Result<Clause, AllocError>
    requires { IsClause 2147483647 lits.now }
    ensures { IfOk result (λ clause. clause ≡ lits.now) }
{
    let mut literals = SmallVec::new(alloc);
    for literal in lits {
        literals.push(*literal)?;
    }
    Ok(Clause::new(literals))
}

/// What a conflict leads to: a clause that is held from then on, and the place where the trail is cut.
#[derive(Drop)]
struct Lesson {
    clause: Clause,
    jump: usize,
}

/// Learns from a conflict where a literal was assigned: the step goes to the log.
fn log_step(
    alloc: Global,
    cnf: &Cnf,
    watches: &Watches,
    steps: &mut Vec<Step>,
    guide: &mut Guide,
    conflict: u32,
    last: usize,
) -> Result<Lesson, AllocError>
    requires solving { IsSolving cnf.now.clauses cnf.now.variables watches.now.clauses watches.now.trail steps.old.items }
    requires conflict { IsConflict watches.now.clauses watches.now.trail.literals conflict }
    requires last { IsLast watches.now.trail last }
    ensures { IfOk result (λ lesson. IsLesson cnf.now.variables watches.now.clauses watches.now.trail last steps.old.items steps.new.items lesson.clause lesson.jump) }
{
    let _trail = watches.trail();
    let learned = learn_at(alloc, watches, cnf.variables, conflict, last, guide)?;
    let anew = guide.end_conflict(alloc, cnf)?;
    let jump = cut_place(alloc, watches, cnf.variables, &learned, last, anew)?;
    let clause = clause_of(alloc, learned.step.lits.as_slice())?;
    steps.push(learned.step)?;
    Ok(Lesson { clause, jump })
}

/// Learns from a conflict where a literal was assigned: the step goes to the log, the trail is cut, the clause is held, and what follows is
/// set.
pub fn back(
    alloc: Global,
    cnf: &Cnf,
    watches: &mut Watches,
    steps: &mut Vec<Step>,
    guide: &mut Guide,
    conflict: u32,
    last: usize,
) -> Result<Fix, AllocError>
    requires solving { IsSolving cnf.now.clauses cnf.now.variables watches.old.clauses watches.old.trail steps.old.items }
    requires conflict { IsConflict watches.old.clauses watches.old.trail.literals conflict }
    requires last { IsLast watches.old.trail last }
    requires room { length watches.old.clauses + 1 < 2 ^ 32 - 1 }
    ensures solving { OnOk result (IsSolving cnf.now.clauses cnf.now.variables watches.new.clauses watches.new.trail steps.new.items) }
    ensures end { IfOk result (IsEnd watches.new.clauses watches.new.trail.literals) }
    ensures quiet { IfOk result (λ fix. watches.new.quiet ≡ is_quiet fix) }
    ensures steps { OnOk result (length steps.new.items ≡ length steps.old.items + 1) }
{
    let _trail = watches.trail();
    let lesson = log_step(alloc, cnf, watches, steps, guide, conflict, last)?;
    free_from(watches, lesson.jump, guide)?;
    watches.undo(lesson.jump);
    watches.add(&lesson.clause)?;
    let _cut = watches.trail();
    watches.settle()
}

/// Tells a guide which literals get unset where the trail is cut at a place.
fn free_from(watches: &Watches, jump: usize, guide: &mut Guide) -> Result<(), AllocError>
    requires { jump < length watches.now.trail.literals }
{
    for literal in &watches.trail()[jump..] {
        guide.free(*literal)?;
    }
    Ok(())
}
