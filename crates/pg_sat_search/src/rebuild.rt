//! The clauses that are kept, made anew.

ghost use Rattle.std.specs.Prelude.{◌≡◌, ◌+◌, ◌<◌, ◌≤◌, ◌-◌, ◌^◌, ◌++◌, ◌∷◌, [], length, IfOk, OnOk};
ghost use Rattle.pg_cnf.specs.Literals.{IsClause};
ghost use Rattle.pg_sat_search.specs.Held.{IsHeld, first_numbers};

use crate::held::Held;
use pg_cnf::{Clause, Cnf};
use pg_proof::Step;
use pg_sat::clause_of;
use std::alloc::{AllocError, Global};

/// Learned clauses that are kept, each with the number that it has in the log.
#[derive(Drop)]
struct Kept {
    clauses: Cnf,
    numbers: Vec<u32>,
}

/// Holds the clauses of a question, and those of the learned ones that are kept, with nothing set. It takes time in all their literals.
/// What was held before is given up before they are made, so that memory has those of the question once. The steps say what the numbers
/// stand for.
pub fn rebuild(
    alloc: Global,
    cnf: &Cnf,
    held: &mut Held,
    steps: &[Step],
    kept: &[bool],
) -> Result<(), AllocError>
    requires held { IsHeld cnf.now.clauses cnf.now.variables steps.now held.old.watches.clauses held.old.numbers.items }
    requires few { length steps.now < 2 ^ 31 }
    ensures held { OnOk result (IsHeld cnf.now.clauses cnf.now.variables steps.now held.new.watches.clauses held.new.numbers.items) }
    ensures variables { OnOk result (held.new.watches.trail.variables ≡ cnf.now.variables) }
    ensures reasons { OnOk result (held.new.watches.trail.reasons ≡ []) }
{
    let learned = kept_of(alloc, cnf, held, steps, kept)?;
    *held = Held::new(alloc, &Cnf::new(alloc, 0))?;
    *held = Held::new(alloc, cnf)?;
    hold_each(held, &learned)
}

/// The learned clauses that are kept.
fn kept_of(
    alloc: Global,
    cnf: &Cnf,
    held: &Held,
    steps: &[Step],
    kept: &[bool],
) -> Result<Kept, AllocError>
    requires held { IsHeld cnf.now.clauses cnf.now.variables steps.now held.now.watches.clauses held.now.numbers.items }
    requires few { length steps.now < 2 ^ 31 }
    ensures held { IfOk result (λ made. IsHeld cnf.now.clauses cnf.now.variables steps.now (cnf.now.clauses ++ made.clauses.clauses) (first_numbers (length cnf.now.clauses) ++ made.numbers.items)) }
    ensures variables { IfOk result (λ made. made.clauses.variables ≡ cnf.now.variables) }
    ensures as_many { IfOk result (λ made. length made.numbers.items ≡ length made.clauses.clauses) }
{
    let first = cnf.clauses.len();
    let mut made = Kept {
        clauses: Cnf::new(alloc, cnf.variables),
        numbers: Vec::new(alloc),
    };
    for place in first..held.watches.len() {
        if is_kept(kept, place - first) {
            carry(alloc, cnf, held, steps, place, &mut made)?;
        }
    }
    Ok(made)
}

/// Whether the learned clause at a place is kept.
fn is_kept(kept: &[bool], place: usize) -> bool {
    match kept.get(place) {
        Some(&kept) => kept,
        None => true,
    }
}

/// One of the clauses more.
fn carry(
    alloc: Global,
    cnf: &Cnf,
    held: &Held,
    steps: &[Step],
    place: usize,
    made: &mut Kept,
) -> Result<(), AllocError>
    requires held { IsHeld cnf.now.clauses cnf.now.variables steps.now held.now.watches.clauses held.now.numbers.items }
    requires made { IsHeld cnf.now.clauses cnf.now.variables steps.now (cnf.now.clauses ++ made.old.clauses.clauses) (first_numbers (length cnf.now.clauses) ++ made.old.numbers.items) }
    requires variables { made.old.clauses.variables ≡ cnf.now.variables }
    requires few { length steps.now < 2 ^ 31 }
    requires place { place < length held.now.watches.clauses }
    requires room { length cnf.now.clauses + length made.old.clauses.clauses ≤ place }
    ensures made { OnOk result (IsHeld cnf.now.clauses cnf.now.variables steps.now (cnf.now.clauses ++ made.new.clauses.clauses) (first_numbers (length cnf.now.clauses) ++ made.new.numbers.items)) }
    ensures variables { made.new.clauses.variables ≡ made.old.clauses.variables }
    ensures longer { OnOk result (length made.new.clauses.clauses ≡ length made.old.clauses.clauses + 1) }
{
    let clause = clause_of(alloc, held.watches.clause(place as u32 + 1))?;
    let number = held.numbers[place];
    made.clauses.push(clause)?;
    made.numbers.push(number)?;
    Ok(())
}

/// Holds some clauses more.
fn hold_each(held: &mut Held, learned: &Kept) -> Result<(), AllocError>
    requires variables { held.old.watches.trail.variables ≡ learned.now.clauses.variables }
    requires as_many { length learned.now.numbers.items ≡ length learned.now.clauses.clauses }
    requires room { length held.old.watches.clauses + length learned.now.clauses.clauses < 2 ^ 32 - 1 }
    ensures clauses { OnOk result (held.new.watches.clauses ≡ held.old.watches.clauses ++ learned.now.clauses.clauses) }
    ensures numbers { OnOk result (held.new.numbers.items ≡ held.old.numbers.items ++ learned.now.numbers.items) }
    ensures trail { held.new.watches.trail ≡ held.old.watches.trail }
{
    let clauses = learned.clauses.clauses.as_slice();
    for place in 0..learned.numbers.len() {
        hold_one(held, &clauses[place], learned.numbers[place])?;
    }
    Ok(())
}

/// Holds a clause more, under its number in the log.
fn hold_one(held: &mut Held, clause: &Clause, number: u32) -> Result<(), AllocError>
    requires room { length held.old.watches.clauses + 1 < 2 ^ 32 - 1 }
    requires clause { IsClause held.old.watches.trail.variables clause.now }
    ensures clauses { OnOk result (held.new.watches.clauses ≡ held.old.watches.clauses ++ clause.now ∷ []) }
    ensures numbers { OnOk result (held.new.numbers.items ≡ held.old.numbers.items ++ number ∷ []) }
    ensures trail { held.new.watches.trail ≡ held.old.watches.trail }
{
    held.watches.add(clause)?;
    held.numbers.push(number)?;
    Ok(())
}
