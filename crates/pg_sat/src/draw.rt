//! The step that a trace of a conflict shows.

ghost use Rattle.std.specs.Prelude.{◌≡◌, ◌+◌, ◌-◌, ◌*◌, ◌<◌, ◌≤◌, ◌^◌, ◌++◌, length, reverse, IfOk, OnOk};
ghost use Rattle.pg_sat.specs.Listed.{listed_at, listed};

use crate::flags::{Flags, place};
use crate::trace::Trace;
use pg_proof::{HintList, LitList, Step};
use pg_sat_guide::{literal_of, negation};
use std::alloc::{AllocError, Global};

/// How many variables are looked at together.
const BLOCK: u32 = 32;

/// Adds the literal of a variable whose flag is up, if one is.
fn push_literal(flags: &Flags, variable: u32, literals: &mut LitList) -> Result<(), AllocError>
    requires positive { 0 < variable }
    requires small { variable < 2 ^ 31 }
    requires places { 2 * variable + 1 < length flags.now }
    ensures { OnOk result (literals.new ≡ literals.old ++ listed_at flags.now variable) }
{
    let literal = literal_of(variable);
    let other = negation(literal);
    if flags.is_up(place(literal)) {
        return literals.push(literal);
    }
    if flags.is_up(place(other)) {
        return literals.push(other);
    }
    Ok(())
}

/// Adds the literals of some variables whose flags are up, ascending: from one variable to before another.
fn push_literals(
    flags: &Flags,
    first: u32,
    end: u32,
    literals: &mut LitList,
) -> Result<(), AllocError>
    requires positive { 0 < first }
    requires order { first ≤ end }
    requires small { end ≤ 2 ^ 31 }
    requires places { 2 * end ≤ length flags.now }
    ensures { OnOk result (literals.new ≡ literals.old ++ listed flags.now first (end - first)) }
{
    for variable in first..end {
        push_literal(flags, variable, literals)?;
    }
    Ok(())
}

/// The same, and where none of their flags is up they are passed over at once.
#[tactic(auto, using(crate::proofs::Drawn::passed_over))]
fn push_block(flags: &Flags, first: u32, end: u32, literals: &mut LitList) -> Result<(), AllocError>
    requires positive { 0 < first }
    requires order { first ≤ end }
    requires small { end ≤ 2 ^ 31 }
    requires places { 2 * end ≤ length flags.now }
    ensures { OnOk result (literals.new ≡ literals.old ++ listed flags.now first (end - first)) }
{
    if flags.are_down(2 * first as usize, 2 * end as usize) {
        return Ok(());
    }
    push_literals(flags, first, end, literals)
}

/// Where the block ends that begins with one of some variables: before this one.
fn end_of(first: u32, variables: u32) -> u32
    requires there { first ≤ variables }
    requires small { variables < 2 ^ 31 }
    ensures later { first < result }
    ensures within { result ≤ variables + 1 }
{
    if variables - first < BLOCK {
        variables + 1
    } else {
        first + BLOCK
    }
}

/// The literals whose flags are up, ascending by variable. It costs the number of variables.
fn literals_up(alloc: Global, flags: &Flags, variables: u32) -> Result<LitList, AllocError>
    requires small { variables < 2 ^ 31 }
    requires places { length flags.now ≡ 2 * variables + 2 }
    ensures { IfOk result (λ literals. literals ≡ listed flags.now 1 variables) }
{
    let mut literals = LitList::new(alloc);
    let mut first = 1;
    while first <= variables {
        let end = end_of(first, variables);
        push_block(flags, first, end, &mut literals)?;
        first = end;
    }
    // A copy takes no more memory than it needs, and a log keeps it.
    LitList::from_slice(alloc, literals.as_slice())
}

/// The numbers in the other order.
fn reversed(alloc: Global, hints: &[u32]) -> Result<HintList, AllocError>
    ensures { IfOk result (λ made. made ≡ reverse hints.now) }
{
    let made = hints.iter().rev().copied().collect(alloc)?;
    Ok(HintList::from_vec(made))
}

/// The step that a trace shows: the literals whose flags are up, and the hints in the order in which they are used.
pub fn step_of(alloc: Global, trace: &Trace, variables: u32) -> Result<Step, AllocError>
    requires small { variables < 2 ^ 31 }
    requires places { length trace.now.flags ≡ 2 * variables + 2 }
    ensures lits { IfOk result (λ step. step.lits ≡ listed trace.now.flags 1 variables) }
    ensures hints { IfOk result (λ step. step.hints ≡ reverse trace.now.hints.items) }
{
    let lits = literals_up(alloc, &trace.flags, variables)?;
    let hints = reversed(alloc, trace.hints.as_slice())?;
    Ok(Step { lits, hints })
}
