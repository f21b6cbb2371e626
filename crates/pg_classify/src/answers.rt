//! What is found of one question.

ghost use Rattle.std.specs.Prelude.{◌≡◌, ◌≤◌, ℕ, true, length, map, slice_get, Some, IfOk};
ghost use Rattle.pg_word.specs.Sparse.{IsCellList};
ghost use Rattle.pg_ast.specs.declared.tree.Instr.{Instr};
ghost use Rattle.pg_cnf.specs.Truth.{clauses_true};
ghost use Rattle.pg_proof.specs.declared.step.Act.TheVariants.{Add};
ghost use Rattle.pg_sat.specs.Answers.{IsRefuted, IsExhausted};
ghost use Rattle.pg_cert.specs.declared.cert.Finding.TheVariants.{Shown};
ghost use Rattle.pg_cert.specs.Lines.{most_budget};
ghost use Rattle.pg_cert.specs.Texts.{AreListed};
ghost use Rattle.pg_classify.specs.Classified.{IsFound};

use crate::small;
use pg_ask::{Asked, states_of};
use pg_cert::Finding;
use pg_proof::{Act, ActList, trim};
use pg_sat::{Answer, SearchWatcher, StepList};
use pg_sat_search::solve_watched;
use pg_word::Sparse;
use std::alloc::{AllocError, Global};

/// Steps as a log.
fn log_of(alloc: Global, steps: StepList) -> Result<ActList, AllocError>
    ensures { IfOk result (λ log. log ≡ map Add steps) }
{
    let mut made = Vec::new(alloc);
    let mut left = steps;
    while let Some(step) = left.pop() {
        made.push(Act::Add(step))?;
    }
    made.as_mut_slice().reverse();
    Ok(ActList::from_vec(made))
}

/// The finding of steps that refute a question: their log, trimmed.
fn refuted(
    alloc: Global,
    asked: &Asked<'_>,
    budget: u32,
    steps: StepList,
) -> Result<Finding, AllocError>
    requires closed { IsRefuted asked.now.cnf.clauses budget steps }
    requires most { budget ≤ most_budget }
    ensures { IfOk result (λ f. (i : Instr) → slice_get asked.now.machine.now.desc.instrs asked.now.instr ≡ Some i → IsFound asked.now.cnf.clauses budget asked.now.machine.now.desc i asked.now.kind f) }
{
    let log = log_of(alloc, steps)?;
    let acts = trim(alloc, asked.cnf(), log.as_slice())?;
    Ok(Finding::Refuted(acts))
}

/// The finding of steps that spend a budget on a question.
fn spent(asked: &Asked<'_>, budget: u32, steps: StepList) -> Finding
    requires exhausted { IsExhausted asked.now.cnf.clauses budget steps }
    requires least { 1 ≤ budget }
    requires most { budget ≤ most_budget }
    ensures { (i : Instr) → slice_get asked.now.machine.now.desc.instrs asked.now.instr ≡ Some i → IsFound asked.now.cnf.clauses budget asked.now.machine.now.desc i asked.now.kind result }
{
    Finding::Spent(budget, steps)
}

/// The finding of two states. Their types keep that their cells are listed in the one way.
fn pair(first: Sparse, second: Sparse) -> Finding
    ensures finding { result ≡ Shown first second }
    ensures listed { AreListed result }
{
    let _ = first.cells.as_slice();
    let _ = second.cells.as_slice();
    Finding::Shown(first, second)
}

/// The finding of an assignment that makes all clauses of a question true: the states that it stands for, made small.
fn shown(
    alloc: Global,
    asked: &Asked<'_>,
    budget: u32,
    assignment: &[bool],
) -> Result<Finding, AllocError>
    requires { clauses_true assignment.now asked.now.cnf.clauses ≡ true }
    ensures { IfOk result (λ f. (i : Instr) → slice_get asked.now.machine.now.desc.instrs asked.now.instr ≡ Some i → IsFound asked.now.cnf.clauses budget asked.now.machine.now.desc i asked.now.kind f) }
{
    let (first, second) = states_of(alloc, asked, assignment)?;
    let (one, other) = small(
        alloc,
        asked.machine(),
        asked.instr(),
        asked.kind(),
        first,
        second,
    );
    Ok(pair(one, other))
}

/// What is found of a question within a budget, from 1 to 1,000,000: states that show the kind, where the solver finds an assignment; a
/// trimmed log, where it refutes the clauses; else the log that spends the budget. The watcher is told at each turn how far the search has
/// come.
pub fn found<W: SearchWatcher>(
    alloc: Global,
    asked: &Asked<'_>,
    budget: u32,
    watcher: &mut W,
) -> Result<Finding, AllocError>
    requires least { 1 ≤ budget }
    requires most { budget ≤ most_budget }
    ensures { IfOk result (λ f. (i : Instr) → slice_get asked.now.machine.now.desc.instrs asked.now.instr ≡ Some i → IsFound asked.now.cnf.clauses budget asked.now.machine.now.desc i asked.now.kind f) }
{
    let (answer, _) = solve_watched(alloc, asked.cnf(), budget, watcher)?;
    match answer {
        Answer::Sat(assignment) => shown(alloc, asked, budget, assignment.as_slice()),
        Answer::Unsat(steps) => refuted(alloc, asked, budget, steps),
        Answer::Spent(steps) => Ok(spent(asked, budget, steps)),
    }
}
