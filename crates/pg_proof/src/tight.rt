//! Whether a step is tight: the resolvent of its hints' clauses, with nothing added.
//!
//! `Checker::tight` calls `is_tight`. That a literal which a hint sets is used means that its negation stands in the clause
//! of a later hint. It can stand in no earlier one, since there every literal has a value by then, and is still unset. So
//! it is enough to mark the literals of all hints' clauses first, and then to walk along the hints once more.

ghost use Rattle.std.specs.Prelude.{◌≡◌, ◌+◌, ◌*◌, ℕ, length, false, map, replicate, is_none};
ghost use Rattle.std.specs.List.{list_all};
ghost use Rattle.pg_proof.specs.Places.{is_marked, AreWithin};
ghost use Rattle.pg_proof.specs.State.{AreHeldWithin};
ghost use Rattle.pg_proof.specs.Refutation.{fault_of};
ghost use Rattle.pg_proof.specs.Tight.{literals_at, hint_clauses, is_tight};
ghost use Rattle.pg_proof.specs.Marked.{marked, marked_all, sets_marked};

use crate::marks::Marks;
use crate::propagation::{Reading, fault_of, mark_negations, negation_place, place, read};
use crate::step::Step;
use crate::store::{Store, clause_at};

/// The literals of the clause with a number, or none where it is not held.
fn literals_at(clauses: &Store, number: u32) -> &[i32]
    ensures literals { result.now ≡ literals_at clauses.now number }
    ensures within { (places : ℕ) → AreHeldWithin places clauses.now → AreWithin places result.now }
{
    match clause_at(clauses, number) {
        Some(clause) => clause,
        None => &[],
    }
}

/// Marks each literal.
fn mark_literals(flags: &mut Marks, literals: &[i32])
    requires { AreWithin (length flags.old) literals.now }
    ensures marked { flags.new ≡ marked flags.old literals.now }
    ensures places { length flags.new ≡ length flags.old }
{
    for literal in literals {
        flags.set(place(*literal));
    }
}

/// Marks the literals of all clauses that the hints name, and no other.
fn mark_clauses(flags: &mut Marks, clauses: &Store, hints: &[u32])
    requires { AreHeldWithin (length flags.old) clauses.now }
    ensures marked { flags.new ≡ marked_all (replicate (length flags.old) false) (hint_clauses clauses.now hints.now) }
    ensures places { length flags.new ≡ length flags.old }
{
    flags.clear();
    for hint in hints {
        mark_literals(flags, literals_at(clauses, *hint));
    }
}

/// Whether each literal is marked.
pub fn are_marked(flags: &Marks, literals: &[i32]) -> bool
    requires { AreWithin (length flags.now) literals.now }
    ensures { result ≡ list_all (is_marked flags.now) literals.now }
{
    for literal in literals {
        if !flags.has(place(*literal)) {
            return false;
        }
    }
    true
}

/// Whether the negation of each literal that a hint sets is marked among those that stand in clauses.
fn sets_are_marked(standing: &Marks, flags: &mut Marks, clauses: &Store, hints: &[u32]) -> bool
    requires held { AreHeldWithin (length flags.old) clauses.now }
    requires places { length standing.now ≡ length flags.old }
    ensures marked { result ≡ sets_marked standing.now flags.old (hint_clauses clauses.now hints.now) }
    ensures places { length flags.new ≡ length flags.old }
{
    for hint in hints {
        match read(flags, literals_at(clauses, *hint)) {
            Reading::Falsified => return true,
            Reading::Neither => return true,
            Reading::Unit(literal) => {
                if !standing.has(negation_place(literal)) {
                    return false;
                }
                flags.set(place(literal));
            }
        }
    }
    true
}

/// Whether a step is valid. It leaves marks, and nothing else.
fn is_valid(flags: &mut Marks, variables: u32, clauses: &Store, step: &Step) -> bool
    requires held { AreHeldWithin (length flags.old) clauses.now }
    requires places { length flags.old ≡ 2 * variables + 2 }
    ensures valid { result ≡ is_none (fault_of variables clauses.now step.now) }
    ensures places { length flags.new ≡ length flags.old }
{
    fault_of(flags, variables, clauses, step).is_none()
}

/// Whether a step is tight. It leaves marks, and nothing else, and costs the length of the step and of its hints' clauses.
pub fn is_tight(
    flags: &mut Marks,
    standing: &mut Marks,
    variables: u32,
    clauses: &Store,
    step: &Step,
) -> bool
    requires held { AreHeldWithin (2 * variables + 2) clauses.now }
    requires places { length flags.old ≡ 2 * variables + 2 }
    requires standing_places { length standing.old ≡ 2 * variables + 2 }
    ensures tight { result ≡ is_tight variables clauses.now step.now }
    ensures places { length flags.new ≡ 2 * variables + 2 }
    ensures standing_places { length standing.new ≡ 2 * variables + 2 }
{
    if !is_valid(flags, variables, clauses, step) {
        return false;
    }
    let literals = step.lits.as_slice();
    let hints = step.hints.as_slice();
    mark_clauses(standing, clauses, hints);
    if !are_marked(standing, literals) {
        return false;
    }
    flags.clear();
    mark_negations(flags, literals);
    sets_are_marked(standing, flags, clauses, hints)
}
