//! What is made of one mark and its log.

ghost use Rattle.std.specs.Prelude.{◌≡◌, ◌<◌, ◌≤◌, length, slice_get, Some, IfOk};
ghost use Rattle.pg_ast.specs.declared.tree.Instr.{Instr};
ghost use Rattle.pg_proof.specs.Log.{IsClosedLog};
ghost use Rattle.pg_ask.specs.Question.{question};
ghost use Rattle.pg_cert.specs.declared.report.Mark.TheVariants.{Refuted};
ghost use Rattle.pg_cert.specs.declared.cert.Finding.TheVariants as finding;
ghost use Rattle.pg_verify.specs.Feeding.{most_bytes};
ghost use Rattle.pg_cert_migrate.specs.Made.{steps_of, IsMade};

use pg_ask::ask;
use pg_cert::{Finding, Mark, StepList};
use pg_mach_ready::Machine;
use pg_proof::{Act, ActList, trim};
use pg_type::Kind;
use pg_word::{CellList, Sparse};
use std::alloc::{AllocError, Global};

/// The same state once more.
fn copied(alloc: Global, state: &Sparse) -> Result<Sparse, AllocError>
    ensures { IfOk result (λ copy. copy ≡ state.now) }
{
    let cells = Vec::from_slice(alloc, state.cells.as_slice())?;
    Ok(Sparse::new(state.size, state.psw, CellList::from_vec(cells)))
}

/// The steps of a log.
fn steps_of(alloc: Global, log: ActList) -> Result<StepList, AllocError>
    ensures { IfOk result (λ steps. steps ≡ steps_of log) }
{
    let mut steps = Vec::new(alloc);
    let mut left = log;
    while let Some(act) = left.pop() {
        match act {
            Act::Add(step) => steps.push(step)?,
            Act::Remove(_) => continue,
        }
    }
    steps.as_mut_slice().reverse();
    Ok(StepList::from_vec(steps))
}

/// The two states that show a kind, as they are.
fn shown(alloc: Global, first: &Sparse, second: &Sparse) -> Result<Finding, AllocError>
    ensures { IfOk result (λ f. f ≡ finding.Shown first.now second.now) }
{
    Ok(Finding::Shown(copied(alloc, first)?, copied(alloc, second)?))
}

/// The log that spends a budget, as it is.
fn spent(alloc: Global, budget: u32, log: ActList) -> Result<Finding, AllocError>
    ensures { IfOk result (λ f. f ≡ finding.Spent budget (steps_of log)) }
{
    Ok(Finding::Spent(budget, steps_of(alloc, log)?))
}

/// The log that refutes the question of an instruction and a kind, trimmed.
fn refuted(
    alloc: Global,
    machine: &Machine,
    instr: usize,
    kind: Kind,
    log: ActList,
) -> Result<Finding, AllocError>
    requires there { instr < length machine.now.desc.instrs }
    requires few { length log ≤ most_bytes }
    requires closed { (i : Instr) → slice_get machine.now.desc.instrs instr ≡ Some i → IsClosedLog (question machine.now.desc i kind) log }
    ensures { IfOk result (λ f. (i : Instr) → slice_get machine.now.desc.instrs instr ≡ Some i → IsMade (question machine.now.desc i kind) Refuted log f) }
{
    let asked = ask(alloc, machine, instr, kind)?;
    let acts = trim(alloc, asked.cnf(), log.as_slice())?;
    Ok(Finding::Refuted(acts))
}

/// What becomes of the finding of an instruction, of a number below `count()`, and a kind, of which the mark and the log are there. Where
/// it refutes the question, its log is closed.
pub fn finding(
    alloc: Global,
    machine: &Machine,
    instr: usize,
    kind: Kind,
    mark: &Mark,
    log: ActList,
) -> Result<Finding, AllocError>
    requires there { instr < length machine.now.desc.instrs }
    requires few { length log ≤ most_bytes }
    requires closed { mark.now ≡ Refuted → (i : Instr) → slice_get machine.now.desc.instrs instr ≡ Some i → IsClosedLog (question machine.now.desc i kind) log }
    ensures { IfOk result (λ f. (i : Instr) → slice_get machine.now.desc.instrs instr ≡ Some i → IsMade (question machine.now.desc i kind) mark.now log f) }
{
    match mark {
        Mark::Refuted => refuted(alloc, machine, instr, kind, log),
        Mark::Shown(first, second) => shown(alloc, first, second),
        Mark::Spent(budget) => spent(alloc, *budget, log),
    }
}
