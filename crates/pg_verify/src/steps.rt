//! Lines of a log: steps that are added, and clauses that are taken away.

ghost use Rattle.std.specs.Prelude.{◌≡◌, ◌+◌, ◌<◌, ◌≤◌, ◌^◌, ◌&&◌, length, not};
ghost use Rattle.pg_proof.specs.Removal.{after_removal};
ghost use Rattle.pg_proof.specs.State.{is_empty};
ghost use Rattle.pg_verify.specs.Taking.{with_step, with_spent_step, is_worth, held_after, after_step, after_remove, step_fault_of};
ghost use Rattle.pg_verify.specs.Seen.{open_of, numbered, IsTold};

use crate::fault::{StepCause, VerifyFault};
use crate::opened::Opened;
use pg_proof::{Checker, ProofFault, Step};

/// Why the step of a line is refused, by what a checker says of it.
fn step_fault(line: u32, fault: ProofFault) -> VerifyFault
    ensures { result ≡ step_fault_of line fault }
{
    match fault {
        ProofFault::UnknownLit => VerifyFault::BadStep(line, StepCause::UnknownLit),
        ProofFault::UnknownHint => VerifyFault::BadStep(line, StepCause::UnknownHint),
        ProofFault::NotUnit => VerifyFault::BadStep(line, StepCause::NotUnit),
        ProofFault::NoConflict => VerifyFault::BadStep(line, StepCause::NoConflict),
        ProofFault::UnknownClause => VerifyFault::BadStep(line, StepCause::NoConflict),
        ProofFault::Memory => VerifyFault::Memory,
    }
}

/// A step more of a log.
fn add_step(checker: &mut Checker, line: u32, step: &Step) -> Result<(), VerifyFault>
    requires room { length checker.old.held + 1 < 2 ^ 32 }
    ensures told { IsTold (with_step line checker.old step.now) checker.new result }
    ensures few { length checker.new.held ≤ length checker.old.held + 1 }
{
    match checker.add(step) {
        Ok(_) => Ok(()),
        Err(fault) => Err(step_fault(line, fault)),
    }
}

/// Whether a step is worth its place, once it is valid: it is not empty and tight, and no clause held is part of it.
fn is_worth(checker: &mut Checker, step: &Step) -> bool
    ensures worth { result ≡ is_worth checker.old step.now }
    ensures kept { checker.new ≡ checker.old }
{
    if step.lits.as_slice().is_empty() {
        return false;
    }
    checker.tight(step) && !checker.covered(step.lits.as_slice())
}

/// A step more of a log that spends a budget, of which so many steps were made.
fn add_spent_step(
    checker: &mut Checker,
    line: u32,
    budget: u32,
    count: u32,
    step: &Step,
) -> Result<(), VerifyFault>
    requires room { length checker.old.held + 1 < 2 ^ 32 }
    ensures told { IsTold (with_spent_step line budget count checker.old step.now) checker.new result }
    ensures few { length checker.new.held ≤ length checker.old.held + 1 }
{
    let is_worth = is_worth(checker, step);
    match checker.add(step) {
        Err(fault) => Err(step_fault(line, fault)),
        Ok(_) => {
            if count < budget && is_worth {
                Ok(())
            } else {
                Err(VerifyFault::BadSpent(line))
            }
        }
    }
}

/// A line that adds a step. The number of clauses of the log that is open, if one is, is below `2^32 - 1`.
#[tactic(auto, unfolding(crate::specs::Taking::after_step))]
pub fn take_step(opened: &mut Opened, line: u32, step: &Step) -> Result<(), VerifyFault>
    requires room { numbered (open_of opened.old) + 1 < 2 ^ 32 }
    ensures told { IsTold (after_step line step.now (open_of opened.old)) (open_of opened.new) result }
    ensures few { numbered (open_of opened.new) ≤ numbered (open_of opened.old) + 1 }
{
    match opened {
        Opened::Refuting(_, checker) => add_step(checker, line, step),
        Opened::Spending(_, budget, count, checker) => {
            add_spent_step(checker, line, *budget, *count, step)?;
            *count += 1;
            Ok(())
        }
        Opened::Fresh => Err(VerifyFault::Grammar(line)),
        Opened::Between => Err(VerifyFault::Grammar(line)),
        Opened::Showing(_, _) => Err(VerifyFault::Grammar(line)),
        Opened::Ended => Err(VerifyFault::Grammar(line)),
    }
}

/// Clauses that are taken away from a log.
fn remove(checker: &mut Checker, line: u32, numbers: &[u32]) -> Result<(), VerifyFault>
    ensures told { IsTold (held_after line (after_removal checker.old numbers.now)) checker.new result }
    ensures few { length checker.new.held ≤ length checker.old.held + 1 }
{
    match checker.remove(numbers) {
        Ok(()) => Ok(()),
        Err(_) => Err(VerifyFault::BadDelete(line)),
    }
}

/// A line that takes clauses away, where that may be.
#[tactic(auto, unfolding(crate::specs::Taking::after_remove))]
pub fn take_removal(
    opened: &mut Opened,
    line: u32,
    removes: bool,
    numbers: &[u32],
) -> Result<(), VerifyFault>
    ensures told { IsTold (after_remove line removes numbers.now (open_of opened.old)) (open_of opened.new) result }
    ensures few { numbered (open_of opened.new) ≤ numbered (open_of opened.old) + 1 }
{
    match opened {
        Opened::Refuting(_, checker) => {
            if removes {
                remove(checker, line, numbers)
            } else {
                Err(VerifyFault::Grammar(line))
            }
        }
        Opened::Fresh => Err(VerifyFault::Grammar(line)),
        Opened::Between => Err(VerifyFault::Grammar(line)),
        Opened::Showing(_, _) => Err(VerifyFault::Grammar(line)),
        Opened::Spending(_, _, _, _) => Err(VerifyFault::Grammar(line)),
        Opened::Ended => Err(VerifyFault::Grammar(line)),
    }
}
