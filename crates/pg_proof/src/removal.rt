//! Taking clauses away, all or none.
//!
//! `Checker::remove` asks `are_held` first, which flags each number that it has seen, so that a number given twice is found
//! without memory; only then does `take_away` drop the clauses. Both cost the length of the list of numbers.

ghost use Rattle.std.specs.Prelude.{◌≡◌, ◌+◌, ◌<◌, ◌≤◌, length, Some, is_some, slice_index_or, false, IsSome, IfOk, OnOk, OnErr};
ghost use Rattle.pg_proof.specs.State.{clause_at};
ghost use Rattle.pg_proof.specs.Removal.{without};

use crate::marks::Marks;
use crate::store::{Store, clause_at};
use std::alloc::AllocError;

/// Sees to it that there is a flag for one clause more than there are. The error is out of memory; no flag is lost.
pub fn make_room(flags: &mut Marks, clauses: usize) -> Result<(), AllocError>
    requires { clauses ≤ length flags.old }
    ensures room { OnOk result (clauses < length flags.new) }
    ensures kept { length flags.old ≤ length flags.new }
{
    if clauses < flags.len() {
        return Ok(());
    }
    flags.grow()
}

/// Whether the clause with a number is held.
fn is_held(clauses: &Store, number: u32) -> bool
    ensures { result ≡ is_some (clause_at clauses.now number) }
{
    match clause_at(clauses, number) {
        Some(_) => true,
        None => false,
    }
}

/// Whether each number is that of a clause held, and none is there twice. It leaves marks, and nothing else.
pub fn are_held(flags: &mut Marks, clauses: &Store, numbers: &[u32]) -> bool
    requires { length clauses.now ≤ length flags.old }
    ensures held { result ≡ is_some (without clauses.now numbers.now) }
    ensures places { length flags.new ≡ length flags.old }
{
    flags.clear();
    for number in numbers {
        if !is_held(clauses, *number) {
            return false;
        }
        let place = *number as usize - 1;
        if flags.has(place) {
            return false;
        }
        flags.set(place);
    }
    true
}

/// Takes the clauses of these numbers away, each of which is held.
pub fn take_away(clauses: &mut Store, numbers: &[u32])
    requires { IsSome (without clauses.old numbers.now) }
    ensures { without clauses.old numbers.now ≡ Some clauses.new }
{
    for number in numbers {
        clauses.take(*number);
    }
}
