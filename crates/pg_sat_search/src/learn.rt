//! What is done at a conflict: a step goes to the log, the trail is cut, its clause is held, and from time to time others are
//! forgotten.

ghost use Rattle.std.specs.Prelude.{◌≡◌, ◌+◌, ◌<◌, ◌-◌, ◌^◌, ◌++◌, ◌∷◌, [], length, None, slice_index_or, IfOk, OnOk};
ghost use Rattle.pg_cnf.specs.Literals.{IsClause};
ghost use Rattle.pg_watch.specs.Trail.{IsConflict, cut};
ghost use Rattle.pg_watch.specs.Fixes.{IsEnd, is_quiet};
ghost use Rattle.pg_sat.specs.Jump.{IsLast};
ghost use Rattle.pg_sat_search.specs.Held.{IsForgetting};
ghost use Rattle.pg_sat_search.specs.Lesson.{IsLesson};

use crate::course::Course;
use crate::held::Held;
use crate::rebuild::rebuild;
use crate::renumber::renumbered;
use pg_cnf::{Clause, Cnf};
use pg_proof::Step;
use pg_sat::{Guide, Learned, clause_of, cut_place, learn_at};
use pg_watch::{Fix, Watches};
use std::alloc::{AllocError, Global};

/// What a conflict leads to: a clause that is held from then on, and the place where the trail is cut.
#[derive(Drop)]
struct Lesson {
    clause: Clause,
    jump: usize,
}

/// Learns from a conflict where a literal was assigned: the step goes to the log.
fn log_step(
    alloc: Global,
    cnf: &Cnf,
    held: &Held,
    steps: &mut Vec<Step>,
    course: &mut Course,
    conflict: u32,
    last: usize,
) -> Result<Lesson, AllocError>
    requires forgetting { IsForgetting cnf.now.clauses cnf.now.variables held.now.watches held.now.numbers.items steps.old.items }
    requires conflict { IsConflict held.now.watches.clauses held.now.watches.trail.literals conflict }
    requires last { IsLast held.now.watches.trail last }
    ensures { IfOk result (λ lesson. IsLesson cnf.now.clauses held.now.watches held.now.numbers.items steps.old.items steps.new.items lesson.clause lesson.jump) }
{
    // The trail is called for what the prover learns of it.
    let _trail = held.watches.trail();
    let learned = learn_at(
        alloc,
        &held.watches,
        cnf.variables,
        conflict,
        last,
        &mut course.guide,
    )?;
    let anew = course.end_conflict(alloc, cnf, &held.watches, &learned.step)?;
    let jump = cut_place(alloc, &held.watches, cnf.variables, &learned, last, anew)?;
    let clause = clause_of(alloc, learned.step.lits.as_slice())?;
    let step = renumbered(alloc, learned.step, held.numbers.as_slice())?;
    steps.push(step)?;
    Ok(Lesson { clause, jump })
}

/// Tells a guide which literals get unset where the trail is cut at a place.
fn free_from(watches: &Watches, jump: usize, guide: &mut Guide) -> Result<(), AllocError>
    requires { jump < length watches.now.trail.literals }
{
    for literal in &watches.trail()[jump..] {
        guide.free(*literal)?;
    }
    Ok(())
}

/// Cuts the trail, and holds a clause more, under its number in the log.
fn hold(held: &mut Held, lesson: &Lesson, number: u32) -> Result<(), AllocError>
    requires within { lesson.now.jump < length held.old.watches.trail.literals }
    requires assigned { slice_index_or held.old.watches.trail.reasons lesson.now.jump None ≡ None }
    requires room { length held.old.watches.clauses + 1 < 2 ^ 32 - 1 }
    requires clause { IsClause held.old.watches.trail.variables lesson.now.clause }
    ensures clauses { OnOk result (held.new.watches.clauses ≡ held.old.watches.clauses ++ lesson.now.clause ∷ []) }
    ensures numbers { OnOk result (held.new.numbers.items ≡ held.old.numbers.items ++ number ∷ []) }
    ensures trail { held.new.watches.trail ≡ cut held.old.watches.trail lesson.now.jump }
{
    held.watches.undo(lesson.jump);
    held.watches.add(&lesson.clause)?;
    held.numbers.push(number)?;
    Ok(())
}

/// Forgets clauses that were learned, where it is time to.
fn renew(
    alloc: Global,
    cnf: &Cnf,
    held: &mut Held,
    steps: &[Step],
    course: &mut Course,
) -> Result<(), AllocError>
    requires forgetting { IsForgetting cnf.now.clauses cnf.now.variables held.old.watches held.old.numbers.items steps.now }
    requires few { length steps.now < 2 ^ 31 }
    ensures { OnOk result (IsForgetting cnf.now.clauses cnf.now.variables held.new.watches held.new.numbers.items steps.now) }
{
    if !course.is_full() {
        return Ok(());
    }
    let kept = course.forget(alloc, &held.watches, cnf.clauses.len())?;
    rebuild(alloc, cnf, held, steps, kept.as_slice())?;
    course.walk(alloc, cnf)
}

/// Learns from a conflict where a literal was assigned: the step goes to the log, the trail is cut, the clause is held, others may be
/// forgotten, and what follows is set.
pub fn back(
    alloc: Global,
    cnf: &Cnf,
    held: &mut Held,
    steps: &mut Vec<Step>,
    course: &mut Course,
    conflict: u32,
    last: usize,
) -> Result<Fix, AllocError>
    requires forgetting { IsForgetting cnf.now.clauses cnf.now.variables held.old.watches held.old.numbers.items steps.old.items }
    requires conflict { IsConflict held.old.watches.clauses held.old.watches.trail.literals conflict }
    requires last { IsLast held.old.watches.trail last }
    requires few { length steps.old.items + 1 < 2 ^ 31 }
    ensures forgetting { OnOk result (IsForgetting cnf.now.clauses cnf.now.variables held.new.watches held.new.numbers.items steps.new.items) }
    ensures end { IfOk result (IsEnd held.new.watches.clauses held.new.watches.trail.literals) }
    ensures quiet { IfOk result (λ fix. held.new.watches.quiet ≡ is_quiet fix) }
    ensures steps { OnOk result (length steps.new.items ≡ length steps.old.items + 1) }
{
    // The trail is called for what the prover learns of it, here and below.
    let _trail = held.watches.trail();
    let lesson = log_step(alloc, cnf, held, steps, course, conflict, last)?;
    let number = (cnf.clauses.len() + steps.len()) as u32;
    free_from(&held.watches, lesson.jump, &mut course.guide)?;
    hold(held, &lesson, number)?;
    let _cut = held.watches.trail();
    renew(alloc, cnf, held, steps.as_slice(), course)?;
    settle(cnf, held, steps.as_slice())
}

/// Sets what follows.
pub fn settle(cnf: &Cnf, held: &mut Held, steps: &[Step]) -> Result<Fix, AllocError>
    requires forgetting { IsForgetting cnf.now.clauses cnf.now.variables held.old.watches held.old.numbers.items steps.now }
    ensures forgetting { OnOk result (IsForgetting cnf.now.clauses cnf.now.variables held.new.watches held.new.numbers.items steps.now) }
    ensures end { IfOk result (IsEnd held.new.watches.clauses held.new.watches.trail.literals) }
    ensures quiet { IfOk result (λ fix. held.new.watches.quiet ≡ is_quiet fix) }
{
    let _trail = held.watches.trail();
    held.watches.settle()
}
