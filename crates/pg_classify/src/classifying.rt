//! All findings of a machine.

ghost use Rattle.std.specs.Prelude.{◌≡◌, ◌*◌, ◌≤◌, ◌<◌, length, IfOk};
ghost use Rattle.pg_cert.specs.declared.cert.Family.TheVariants.{Plain, Hybrid};
ghost use Rattle.pg_cert.specs.Lines.{most_budget};
ghost use Rattle.pg_cert.specs.Verdicts.{kind_count};
ghost use Rattle.pg_classify.specs.Classified.{IsFoundAt, AreFound, IsClassified};

use crate::answers::found;
use crate::watcher::Watcher;
use pg_ask::ask;
use pg_cert::{Cert, Family, Finding, FindingList, instr_of, kind_of};
use pg_mach_ready::Machine;
use pg_sat::{SearchWatcher, Silent};
use pg_type::Kind;
use std::alloc::{AllocError, Global};

/// What is found of the question of an instruction, of a number below `count()`, and a kind. Nothing else is kept of the question.
fn finding<W: SearchWatcher>(
    alloc: Global,
    machine: &Machine,
    instr: usize,
    kind: Kind,
    budget: u32,
    watcher: &mut W,
) -> Result<Finding, AllocError>
    requires there { instr < length machine.now.desc.instrs }
    requires least { 1 ≤ budget }
    requires most { budget ≤ most_budget }
    ensures { IfOk result (IsFoundAt machine.now.desc instr kind budget) }
{
    let asked = ask(alloc, machine, instr, kind)?;
    found(alloc, &asked, budget, watcher)
}

/// What is found of each instruction of a machine in order, and each kind of a family in order.
fn findings<W: Watcher>(
    alloc: Global,
    machine: &Machine,
    family: Family,
    budget: u32,
    watcher: &mut W,
) -> Result<FindingList, AllocError>
    requires least { 1 ≤ budget }
    requires most { budget ≤ most_budget }
    ensures whole { IfOk result (λ fs. length fs ≡ length machine.now.desc.instrs * kind_count family) }
    ensures found { IfOk result (AreFound machine.now.desc family budget) }
{
    let all = machine.count() * family.kinds().len();
    let mut findings = FindingList::new(alloc);
    for number in 0..all {
        let instr = instr_of(family, number);
        let kind = kind_of(family, number);
        watcher.asks(machine.name(instr), kind, all - number);
        findings.push(finding(alloc, machine, instr, kind, budget, watcher)?)?;
    }
    Ok(findings)
}

/// The certificate of a machine over a family of kinds: one finding for each instruction in order and each kind in order, for which the
/// solver learns at most `budget` clauses, from 1 to 1,000,000. The watcher is told of each question, and at each turn of its search how
/// far that has come.
///
/// It is valid whatever the solver finds: each finding is a log that refutes its question, trimmed from at most `budget` steps and the
/// empty clause, two states that show the kind, or a log of as many steps as the budget, each new. Its text can be written, and is taken
/// where it is within the limit. Nothing that is said of the certificate rests on the watcher, and nothing is said of when it is told, or
/// of what.
///
/// It costs what its questions cost, one at a time; nothing of a question is kept but its finding.
pub fn classify_watched<W: Watcher>(
    alloc: Global,
    machine: &Machine,
    family: Family,
    budget: u32,
    watcher: &mut W,
) -> Result<Cert, AllocError>
    requires least { 1 ≤ budget }
    requires most { budget ≤ most_budget }
    ensures { IfOk result (IsClassified machine.now.desc family budget) }
{
    let findings = findings(alloc, machine, family, budget, watcher)?;
    Ok(Cert { family, findings })
}

/// The certificate of a machine for Theorem 1: privileged, control, mode, location and bound of each instruction. See
/// `classify_watched`.
pub fn classify(alloc: Global, machine: &Machine, budget: u32) -> Result<Cert, AllocError>
    requires least { 1 ≤ budget }
    requires most { budget ≤ most_budget }
    ensures { IfOk result (IsClassified machine.now.desc Plain budget) }
{
    classify_watched(alloc, machine, Family::Plain, budget, &mut Silent)
}

/// The certificate of a machine for Theorem 3: privileged, and control, location and bound at user states. See
/// `classify_watched`.
pub fn classify_hybrid(alloc: Global, machine: &Machine, budget: u32) -> Result<Cert, AllocError>
    requires least { 1 ≤ budget }
    requires most { budget ≤ most_budget }
    ensures { IfOk result (IsClassified machine.now.desc Hybrid budget) }
{
    classify_watched(alloc, machine, Family::Hybrid, budget, &mut Silent)
}
