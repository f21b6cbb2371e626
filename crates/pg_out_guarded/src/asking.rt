//! What is found of a machine, as it stands or with guards.

ghost use Rattle.std.specs.Prelude.{◌≡◌, ◌*◌, ◌≤◌, length, IfOk, MatchOption};
ghost use Rattle.pg_cert.specs.Lines.{most_budget};
ghost use Rattle.pg_cert.specs.Verdicts.{kind_count};
ghost use Rattle.pg_cmd_certs.specs.Meaning.{VerdictMeans};
ghost use Rattle.pg_out_guarded.specs.Asking.{IsAsked, IsUnfit};

use crate::guard::guarded;
use pg_cert::{Family, Report, report_of};
use pg_classify::{Silent, classify_watched};
use pg_lang_valid::TypeFault;
use pg_mach_ready::{Machine, check};
use std::alloc::{AllocError, Global};

/// A machine with guards, and what is found of it.
#[derive(Drop)]
pub struct GuardedMachine {
    /// The machine.
    pub machine: Machine,
    /// The marks of a certificate of it.
    pub report: Report,
}

/// What is found of a machine over a family of kinds, with a budget of learned clauses for each question, from 1 to 1,000,000.
///
/// # Errors
/// Only for lack of memory.
pub fn find(
    alloc: Global,
    machine: &Machine,
    family: Family,
    budget: u32,
) -> Result<Report, AllocError>
    requires least { 1 ≤ budget }
    requires most { budget ≤ most_budget }
    ensures family { IfOk result (λ report. report.family ≡ family) }
    ensures whole { IfOk result (λ report. length report.marks ≡ length machine.now.desc.instrs * kind_count report.family) }
    ensures means { IfOk result (λ report. VerdictMeans machine.now.desc report) }
{
    let cert = classify_watched(alloc, machine, family, budget, &mut Silent)?;
    let report = report_of(alloc, &cert)?;
    Ok(report)
}

/// The machine with a guard before the body of each instruction that has a mark, and what is found of it over the kinds of
/// Theorem 1; `None` where the description with guards is not valid, as one with a body that is too long. There is a mark for each
/// instruction, and the budget is that of `find`.
///
/// # Errors
/// Only for lack of memory.
pub fn ask_guarded(
    alloc: Global,
    machine: &Machine,
    marks: &[bool],
    budget: u32,
) -> Result<Option<GuardedMachine>, AllocError>
    requires each { length marks.now ≡ length machine.now.desc.instrs }
    requires least { 1 ≤ budget }
    requires most { budget ≤ most_budget }
    ensures { IfOk result (λ found. MatchOption found (IsUnfit marks.now machine.now.desc) (IsAsked marks.now machine.now.desc)) }
{
    let desc = guarded(alloc, &machine.desc, marks)?;
    match check(alloc, desc) {
        Ok(machine) => {
            let report = find(alloc, &machine, Family::Plain, budget)?;
            Ok(Some(GuardedMachine { machine, report }))
        }
        Err((_desc, TypeFault::Memory)) => Err(AllocError),
        Err((_desc, _fault)) => Ok(None),
    }
}
