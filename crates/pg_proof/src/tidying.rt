//! Taking clauses away behind their last use.
//!
//! `trim` hands over the steps that it kept. Backward from the last of them, `tidied` flags the numbers that hints name: one
//! that was not flagged before is named for the last time. A removal of those of steps' clauses stands behind the act, so
//! that a checker of the log holds few clauses at a time. Its numbers ascend.

ghost use Rattle.std.specs.Prelude.{◌≡◌, ◌+◌, ◌<◌, ◌^◌, ◌++◌, ◌∷◌, [], true, length, replicate, slice_set, IfOk, OnOk};
ghost use Rattle.pg_proof.specs.declared.step.Act.{Act};
ghost use Rattle.pg_proof.specs.Numbering.{raised};
ghost use Rattle.pg_proof.specs.Tidied.{is_fresh, fresh, ascending, with_named, with_removal, with_act, tidied};

use crate::marks::{Marks, is_up};
use crate::step::{Act, HintList};
use std::alloc::{AllocError, Global};

/// Puts the flag of a number up, where there is one, and says whether it is that of a step's clause and was down.
fn name(flags: &mut Marks, question: usize, hint: u32) -> bool
    ensures fresh { result ≡ is_fresh question flags.old hint }
    ensures up { flags.new ≡ slice_set flags.old hint true }
{
    let place = hint as usize;
    let known = is_up(flags, place);
    if place < flags.len() {
        flags.set(place);
    }
    question < place && !known
}

/// The hints that name a step's clause and whose flags are down, each once; after it the flags of all hints are up.
fn fresh_hints(
    alloc: Global,
    question: usize,
    flags: &mut Marks,
    hints: &[u32],
) -> Result<Vec<u32>, AllocError>
    ensures fresh { IfOk result (λ made. made.items ≡ fresh question flags.old hints.now) }
    ensures up { OnOk result (flags.new ≡ raised flags.old hints.now) }
{
    let mut made = Vec::new(alloc);
    for hint in hints {
        if name(flags, question, *hint) {
            made.push(*hint)?;
        }
    }
    Ok(made)
}

/// Puts numbers in order, least first.
fn sort(numbers: &mut [u32])
    ensures sorted { numbers.new ≡ ascending numbers.old }
    ensures places { length numbers.new ≡ length numbers.old }
{
    numbers.sort_unstable();
}

/// Numbers in order, least first.
fn ascending(mut numbers: Vec<u32>) -> HintList
    ensures { result ≡ ascending numbers.items }
{
    sort(numbers.as_mut_slice());
    HintList::from_vec(numbers)
}

/// Adds a removal to acts that are made backward, if there are acts and numbers.
fn push_removal(made: &mut Vec<Act>, gone: HintList) -> Result<(), AllocError>
    ensures { OnOk result (made.new.items ≡ with_removal made.old.items gone) }
{
    if made.is_empty() || gone.is_empty() {
        return Ok(());
    }
    made.push(Act::Remove(gone))?;
    Ok(())
}

/// Adds an act to acts that are made backward, and a removal between of what it is the last to name.
fn push_act(
    alloc: Global,
    question: usize,
    flags: &mut Marks,
    made: &mut Vec<Act>,
    act: Act,
) -> Result<(), AllocError>
    ensures flags { OnOk result (flags.new ≡ with_named flags.old act) }
    ensures made { OnOk result (made.new.items ≡ with_act question flags.old made.old.items act) }
{
    if let Act::Add(step) = &act {
        let gone = fresh_hints(alloc, question, flags, step.hints.as_slice())?;
        push_removal(made, ascending(gone))?;
    }
    made.push(act)?;
    Ok(())
}

/// Acts with each step's clause taken away behind the act that names it last, but none behind the last act. It costs the length of the log,
/// and the sorting of what each act is the last to name.
pub fn tidied(alloc: Global, question: usize, acts: Vec<Act>) -> Result<Vec<Act>, AllocError>
    requires { question + length acts.items + 1 < 2 ^ 32 }
    ensures { IfOk result (λ made. made.items ≡ tidied question (question + length acts.items + 1) acts.items) }
{
    let mut flags = Marks::new(alloc, question + acts.len() + 1)?;
    let mut made = Vec::new(alloc);
    let mut left = acts;
    while let Some(act) = left.pop() {
        push_act(alloc, question, &mut flags, &mut made, act)?;
    }
    made.as_mut_slice().reverse();
    Ok(made)
}
