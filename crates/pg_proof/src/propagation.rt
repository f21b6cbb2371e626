//! Unit propagation along hints: whether a step is valid.
//!
//! `Checker::add` calls `fault_of` once a step, before anything is taken or changed but marks. Its literals are set false,
//! and each hint's clause is read once, so that a step costs the length of its own clause and of its hints' clauses,
//! whatever the number of clauses held.

ghost use Rattle.std.specs.Prelude.{◌≡◌, ◌+◌, ◌*◌, ◌<◌, ◌≤◌, ◌^◌, ℕ, length, false, true, slice_set, slice_get, neg_ℤ, IfSome};
ghost use Rattle.pg_proof.specs.Places.{place, is_marked, negations, IsWithin, AreWithin};
ghost use Rattle.pg_proof.specs.Reading.{reading};
ghost use Rattle.pg_proof.specs.State.{clause_at, AreHeldWithin};
ghost use Rattle.pg_proof.specs.Refutation.{are_ascending, fault_of};
ghost use Rattle.pg_proof.specs.Marked.{with_literal, IsReadWithin, marked, walk_marked};

use crate::marks::Marks;
use crate::step::{ProofFault, Step};
use crate::store::{Store, clause_at};

/// What a clause says where some literals are true.
#[derive(Clone, Copy)]
pub enum Reading {
    /// Each of its literals is false.
    Falsified,
    /// Each is but this one, which is unset.
    Unit(i32),
    /// Two literals are not false, or one is true.
    Neither,
}

/// The place of a literal among flags.
pub fn place(literal: i32) -> usize
    ensures { result ≡ place literal }
{
    let variable = literal.unsigned_abs() as usize;
    if literal < 0 {
        2 * variable + 1
    } else {
        2 * variable
    }
}

/// The place of a literal's negation.
pub fn negation_place(literal: i32) -> usize
    ensures { result ≡ place (neg_ℤ literal) }
{
    let variable = literal.unsigned_abs() as usize;
    if literal > 0 {
        2 * variable + 1
    } else {
        2 * variable
    }
}

/// Whether the literals are of variables up to a greatest, and strictly ascend by variable from 1 on.
fn are_ascending(variables: u32, literals: &[i32]) -> bool
    ensures { result ≡ are_ascending variables 0 literals.now }
{
    let mut above = 0;
    for literal in literals {
        let variable = literal.unsigned_abs();
        if variable <= above || variables < variable {
            return false;
        }
        above = variable;
    }
    true
}

/// Marks the negation of each literal.
pub fn mark_negations(flags: &mut Marks, literals: &[i32])
    requires { AreWithin (length flags.old) literals.now }
    ensures marked { flags.new ≡ marked flags.old (negations literals.now) }
    ensures places { length flags.new ≡ length flags.old }
{
    for literal in literals {
        flags.set(negation_place(*literal));
    }
}

/// What a literal more makes of a reading, where the marked literals are true.
fn with_literal(flags: &Marks, reading: Reading, literal: i32) -> Reading
    requires { IsWithin (length flags.now) literal }
    ensures { result ≡ with_literal (is_marked flags.now) reading literal }
{
    if flags.has(negation_place(literal)) {
        return reading;
    }
    if flags.has(place(literal)) {
        return Reading::Neither;
    }
    match reading {
        Reading::Falsified => Reading::Unit(literal),
        Reading::Unit(_) | Reading::Neither => Reading::Neither,
    }
}

/// What a clause says where the marked literals are true. It costs the length of the clause.
pub fn read(flags: &Marks, clause: &[i32]) -> Reading
    requires { AreWithin (length flags.now) clause.now }
    ensures reading { result ≡ reading (is_marked flags.now) clause.now }
    ensures within { IsReadWithin (length flags.now) result }
{
    let mut reading = Reading::Falsified;
    for literal in clause {
        reading = with_literal(flags, reading, *literal);
    }
    reading
}

/// The first fault along the hints, where the marked literals are true: none where the last hint's clause is false then.
/// What they set stays marked.
fn walk(flags: &mut Marks, clauses: &Store, hints: &[u32]) -> Option<ProofFault>
    requires { AreHeldWithin (length flags.old) clauses.now }
    ensures fault { result ≡ walk_marked clauses.now flags.old hints.now }
    ensures places { length flags.new ≡ length flags.old }
{
    for (i, hint) in hints.iter().enumerate() {
        let clause = match clause_at(clauses, *hint) {
            Some(clause) => clause,
            None => return Some(ProofFault::UnknownHint),
        };
        match read(flags, clause) {
            Reading::Unit(literal) => flags.set(place(literal)),
            Reading::Neither => return Some(ProofFault::NotUnit),
            Reading::Falsified => {
                if i + 1 == hints.len() {
                    return None;
                }
                return Some(ProofFault::NotUnit);
            }
        }
    }
    Some(ProofFault::NoConflict)
}

/// The first fault of a step, or none where it is valid: its literals are looked at first, then its hints in order. It
/// leaves marks, and nothing else. It costs the length of the step and of its hints' clauses.
pub fn fault_of(
    flags: &mut Marks,
    variables: u32,
    clauses: &Store,
    step: &Step,
) -> Option<ProofFault>
    requires held { AreHeldWithin (length flags.old) clauses.now }
    requires places { length flags.old ≡ 2 * variables + 2 }
    ensures fault { result ≡ fault_of variables clauses.now step.now }
    ensures places { length flags.new ≡ length flags.old }
{
    let literals = step.lits.as_slice();
    let hints = step.hints.as_slice();
    if !are_ascending(variables, literals) {
        return Some(ProofFault::UnknownLit);
    }
    flags.clear();
    mark_negations(flags, literals);
    walk(flags, clauses, hints)
}
