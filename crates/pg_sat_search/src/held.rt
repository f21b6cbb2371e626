//! The clauses that are held: those of a question, and some that were learned.

ghost use Rattle.std.specs.Prelude.{◌≡◌, ◌<◌, ◌^◌, [], length, List, IfOk};
ghost use Rattle.pg_proof.specs.declared.step.Step.{Step};
ghost use Rattle.pg_sat_search.specs.Held.{IsHeld, first_numbers};

use pg_cnf::Cnf;
use pg_watch::Watches;
use std::alloc::{AllocError, Global};

/// Clauses with what is set, and for each clause the number that it has in the log.
#[derive(Drop)]
pub struct Held {
    pub watches: Watches,
    pub numbers: Vec<u32>,
}

impl Held {
    /// The clauses of a question alone, and nothing is set.
    pub fn new(alloc: Global, cnf: &Cnf) -> Result<Held, AllocError>
        ensures held { IfOk result (λ held. (steps : List Step) → IsHeld cnf.now.clauses cnf.now.variables steps held.watches.clauses held.numbers.items) }
        ensures clauses { IfOk result (λ held. held.watches.clauses ≡ cnf.now.clauses) }
        ensures numbers { IfOk result (λ held. held.numbers.items ≡ first_numbers (length cnf.now.clauses)) }
        ensures variables { IfOk result (λ held. held.watches.trail.variables ≡ cnf.now.variables) }
        ensures reasons { IfOk result (λ held. held.watches.trail.reasons ≡ []) }
    {
        let watches = Watches::new(alloc, cnf)?;
        let numbers = first_numbers(alloc, cnf.clauses.len() as u32)?;
        Ok(Held { watches, numbers })
    }
}

/// The numbers from 1 to a last one.
#[tactic(auto, using(crate::proofs::HeldLemmas::first_more))]
fn first_numbers(alloc: Global, last: u32) -> Result<Vec<u32>, AllocError>
    requires { last < 2 ^ 31 }
    ensures { IfOk result (λ numbers. numbers.items ≡ first_numbers last) }
{
    let mut numbers = Vec::new(alloc);
    for place in 0..last {
        numbers.push(place + 1)?;
    }
    Ok(numbers)
}
