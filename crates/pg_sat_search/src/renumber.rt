//! Steps under the numbers of the log.
//!
//! A step that was learned names the clauses that are held, by their numbers there. In the log it names them by the numbers that
//! they have in the log.

ghost use Rattle.std.specs.Prelude.{◌≡◌, map, IfOk};
ghost use Rattle.pg_sat_search.specs.Held.{number_in, renumbered};

use pg_proof::{HintList, Step};
use std::alloc::{AllocError, Global};

/// The number in the log of a clause that is held, 0 where there is none.
fn number_of(numbers: &[u32], held: u32) -> u32
    ensures { result ≡ number_in numbers.now held }
{
    match numbers.get((held as usize).saturating_sub(1)) {
        Some(&number) => number,
        None => 0,
    }
}

/// The numbers in the log of clauses that are held.
fn named(alloc: Global, hints: &[u32], numbers: &[u32]) -> Result<HintList, AllocError>
    ensures { IfOk result (λ named. named ≡ map (number_in numbers.now) hints.now) }
{
    // A log keeps them, so they take no more memory than they need.
    let mut named = Vec::with_capacity(alloc, hints.len())?;
    for hint in hints {
        named.push(number_of(numbers, *hint))?;
    }
    Ok(HintList::from_vec(named))
}

/// A step under the numbers of the log.
pub fn renumbered(alloc: Global, step: Step, numbers: &[u32]) -> Result<Step, AllocError>
    ensures { IfOk result (λ made. made ≡ renumbered numbers.now step) }
{
    let hints = named(alloc, step.hints.as_slice(), numbers)?;
    Ok(Step {
        lits: step.lits,
        hints,
    })
}
