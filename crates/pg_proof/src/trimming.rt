//! Leaving out the steps of a log that show nothing.
//!
//! `trim` walks a log twice. Backward from the empty clause it flags the clauses that a used step's hints name; forward it
//! keeps the steps whose clauses are flagged, with their hints under the numbers that are left. A third walk, over what is
//! kept, takes clauses away behind their last use (`tidying`). Each walk costs the length of the log, and the last one sorts
//! what it takes away. Nothing is checked on the way: that the log is closed is the caller's to know, as from a `Checker`.

ghost use Rattle.std.specs.Prelude.{◌≡◌, ◌+◌, ◌*◌, ◌-◌, ◌<◌, ◌≤◌, ◌^◌, ◌++◌, ◌∷◌, [], length, map, Some, take, false, true, slice_index_or, IfOk, OnOk, IsTrue};
ghost use Rattle.std.specs.List.{list_any, position_or_len};
ghost use Rattle.pg_proof.specs.declared.step.Act.{Act};
ghost use Rattle.pg_proof.specs.State.{variables_of};
ghost use Rattle.pg_proof.specs.Log.{IsClosedLog};
ghost use Rattle.pg_proof.specs.Trimmed.{IsTrimmed, step_count};
ghost use Rattle.pg_proof.specs.Drafts.{AreKept, IsPicked};
ghost use Rattle.pg_proof.specs.Numbering.{adds_empty, raised, raised_if, new_number, AreUsed, AreEarlier, AreNeeded, AreValid, renumbered, with_kept, with_number};

use crate::checker::closes;
use crate::marks::{Marks, is_up};
use crate::step::{Act, HintList, LitList, Step};
use crate::tidying::tidied;
use pg_cnf::Cnf;
use sqlite_items::Items;
use std::alloc::{AllocError, Global};

/// Acts in order: a log.
pub type ActList = Items<Act>;

/// How many steps there are.
fn step_count(acts: &[Act]) -> usize
    ensures count { result ≡ step_count acts.now }
    ensures few { result ≤ length acts.now }
{
    let mut count = 0;
    for act in acts {
        match act {
            Act::Add(_) => count += 1,
            Act::Remove(_) => continue,
        }
    }
    count
}

/// Puts the flags of these numbers up, where there are such.
fn raise(flags: &mut Marks, numbers: &[u32])
    ensures raised { flags.new ≡ raised flags.old numbers.now }
    ensures places { length flags.new ≡ length flags.old }
{
    for number in numbers {
        let place = *number as usize;
        if place < flags.len() {
            flags.set(place);
        }
    }
}

/// The number of a clause in the log that is kept.
fn new_number(question: usize, numbers: &[u32], hint: u32) -> u32
    ensures { result ≡ new_number question numbers.now hint }
{
    let place = hint as usize;
    if place <= question {
        return hint;
    }
    match numbers.get(place - question - 1) {
        Some(number) => *number,
        None => 0,
    }
}

/// Hints under the numbers of the log that is kept.
fn renumbered_hints(
    alloc: Global,
    question: usize,
    numbers: &[u32],
    hints: &[u32],
) -> Result<HintList, AllocError>
    ensures { IfOk result (λ made. made ≡ map (new_number question numbers.now) hints.now) }
{
    let mut made = HintList::new(alloc);
    for hint in hints {
        made.push(new_number(question, numbers, *hint))?;
    }
    Ok(made)
}

/// A step with such hints.
fn renumbered(
    alloc: Global,
    question: usize,
    numbers: &[u32],
    step: &Step,
) -> Result<Step, AllocError>
    ensures { IfOk result (λ made. made ≡ renumbered question numbers.now step.now) }
{
    let lits = LitList::from_slice(alloc, step.lits.as_slice())?;
    let hints = renumbered_hints(alloc, question, numbers, step.hints.as_slice())?;
    Ok(Step { lits, hints })
}

/// Whether an act adds the empty clause.
fn adds_empty(act: &Act) -> bool
    ensures { result ≡ adds_empty act.now }
{
    match act {
        Act::Add(step) => closes(false, step.lits.as_slice()),
        Act::Remove(_) => false,
    }
}

/// The place of the first act that adds the empty clause, or how many acts there are.
fn place_of_empty(acts: &[Act]) -> usize
    ensures { result ≡ position_or_len adds_empty acts.now }
{
    for (i, act) in acts.iter().enumerate() {
        if adds_empty(act) {
            return i;
        }
    }
    acts.len()
}

/// Puts the flags of a step's hints up, where that of its clause is.
fn raise_hints(flags: &mut Marks, number: usize, step: &Step)
    ensures raised { flags.new ≡ raised_if (slice_index_or flags.old number false) flags.old step.now.hints }
    ensures places { length flags.new ≡ length flags.old }
{
    if !is_up(flags, number) {
        return;
    }
    raise(flags, step.hints.as_slice());
}

/// The clauses, by their numbers, that the last step of some acts is made of: its own, and each that a hint of one of them names.
fn used_clauses(alloc: Global, question: usize, acts: &[Act]) -> Result<Marks, AllocError>
    requires few { question + length acts.now + 1 < 2 ^ 32 }
    requires earlier { AreEarlier question acts.now }
    ensures used { IfOk result (λ flags. AreUsed flags question acts.now) }
    ensures needed { IfOk result (λ flags. AreNeeded flags (question + step_count acts.now) question acts.now) }
    ensures last { IfOk result (λ flags. slice_index_or flags (question + step_count acts.now) false ≡ true) }
{
    let mut number = question + step_count(acts);
    let mut flags = Marks::new(alloc, number + 1)?;
    flags.set(number);
    let mut left = acts.len();
    while left > 0 {
        left -= 1;
        match &acts[left] {
            Act::Remove(_) => continue,
            Act::Add(step) => {
                raise_hints(&mut flags, number, step);
                number -= 1;
            }
        }
    }
    Ok(flags)
}

/// Keeps an act, if it is a step whose clause is used, with its hints under the new numbers; what it was given as a number is noted.
fn keep(
    alloc: Global,
    question: usize,
    used: &Marks,
    made: &mut Vec<Act>,
    numbers: &mut Vec<u32>,
    act: &Act,
) -> Result<(), AllocError>
    requires few { question + length made.old.items + 1 < 2 ^ 32 }
    requires room { question + length numbers.old.items + 1 < 2 ^ 32 }
    ensures made { OnOk result (made.new.items ≡ with_kept question used.now numbers.old.items made.old.items act.now) }
    ensures numbers { OnOk result (numbers.new.items ≡ with_number question used.now numbers.old.items made.old.items act.now) }
{
    let step = match act {
        Act::Add(step) => step,
        Act::Remove(_) => return Ok(()),
    };
    if !is_up(used, question + numbers.len() + 1) {
        numbers.push(0)?;
        return Ok(());
    }
    let number = (question + made.len() + 1) as u32;
    let kept = renumbered(alloc, question, numbers.as_slice(), step)?;
    made.push(Act::Add(kept))?;
    numbers.push(number)?;
    Ok(())
}

/// The place of the first act that adds the empty clause, of acts one of which does.
fn end_of(acts: &[Act]) -> usize
    requires { list_any adds_empty acts.now ≡ true }
    ensures within { result < length acts.now }
    ensures empty { (act : Act) → adds_empty (slice_index_or acts.now result act) ≡ true }
{
    place_of_empty(acts)
}

/// What is kept of a log so far, and the new numbers of the clauses of its steps, 0 where a step is left out.
#[derive(Drop)]
struct Draft {
    made: Vec<Act>,
    numbers: Vec<u32>,
}

/// What is kept of the acts of a log before the one at a place.
fn kept_before(
    alloc: Global,
    cnf: &Cnf,
    used: &Marks,
    log: &[Act],
    end: usize,
) -> Result<Draft, AllocError>
    requires within { end < length log.now }
    requires few { length cnf.now.clauses + length log.now + 1 < 2 ^ 32 }
    requires valid { AreValid (variables_of cnf.now.clauses) (map Some cnf.now.clauses) log.now }
    requires earlier { AreEarlier (length cnf.now.clauses) log.now }
    requires used { AreUsed used.now (length cnf.now.clauses) log.now }
    requires needed { AreNeeded used.now (length cnf.now.clauses + step_count log.now) (length cnf.now.clauses) log.now }
    ensures { IfOk result (λ draft. AreKept cnf.now.clauses used.now log.now draft.numbers.items draft.made.items end) }
{
    let question = cnf.clauses.len();
    let mut made = Vec::new(alloc);
    let mut numbers = Vec::new(alloc);
    for i in 0..end {
        keep(alloc, question, used, &mut made, &mut numbers, &log[i])?;
    }
    Ok(Draft { made, numbers })
}

/// The steps of a closed log that its empty clause is made of, with their hints under the numbers that are left.
fn picked(alloc: Global, cnf: &Cnf, acts: &[Act]) -> Result<Vec<Act>, AllocError>
    requires closed { IsClosedLog cnf.now.clauses acts.now }
    requires few { length cnf.now.clauses + length acts.now + 1 < 2 ^ 32 }
    ensures { IfOk result (λ made. IsPicked cnf.now.clauses acts.now made.items) }
{
    let question = cnf.clauses.len();
    let end = end_of(acts);
    let log = &acts[..end + 1];
    let used = used_clauses(alloc, question, log)?;
    let Draft {
        mut made,
        mut numbers,
    } = kept_before(alloc, cnf, &used, log, end)?;
    keep(alloc, question, &used, &mut made, &mut numbers, &log[end])?;
    Ok(made)
}

/// A closed log without the steps that its empty clause is not made of. Each step that is kept has the same literals, and its hints name
/// the same clauses under the numbers that are left. The last act adds the empty clause, and each other step is a hint of a later one.
/// Behind the step that names it last its clause is taken away, so that where a step is added, those clauses of steps are held that are
/// hints of it or of a later one; the hints of the last act stay. A removal has a number at least, its numbers ascend, and none is that of
/// a clause of the question. It is a closed log of this question too. It costs the length of the log, and the sorting of each removal.
pub fn trim(alloc: Global, cnf: &Cnf, acts: &[Act]) -> Result<ActList, AllocError>
    requires closed { IsClosedLog cnf.now.clauses acts.now }
    requires few { length cnf.now.clauses + length acts.now + 1 < 2 ^ 32 }
    ensures { IfOk result (λ log. IsTrimmed cnf.now.clauses acts.now log) }
{
    let steps = picked(alloc, cnf, acts)?;
    let log = tidied(alloc, cnf.clauses.len(), steps)?;
    Ok(ActList::from_vec(log))
}
