//! Assignments, and whether they make clauses true.

ghost use Rattle.std.specs.Prelude.{◌≡◌, true, false, slice_index_or, IfNone};
ghost use Rattle.pg_cnf.specs.Truth.{literal_true, clause_true, clauses_true};

use pg_cnf::Clause;
use std::alloc::{AllocError, Global};

/// The values of so many variables in order, where these literals are true. Variables that they do not name are false, and others are
/// passed over.
pub fn assignment_of(
    alloc: Global,
    variables: u32,
    literals: &[i32],
) -> Result<Vec<bool>, AllocError> {
    let mut values = vec![in alloc; false; variables as usize]?;
    for literal in literals {
        let variable = literal.unsigned_abs() as usize;
        if 0 < variable && variable <= values.len() {
            values[variable - 1] = *literal > 0;
        }
    }
    Ok(values)
}

/// The place of the first clause that is not true under an assignment: none where all are. It costs their length.
pub fn first_false(assignment: &[bool], clauses: &[Clause]) -> Option<usize>
    ensures { IfNone result (clauses_true assignment.now clauses.now ≡ true) }
{
    for place in 0..clauses.len() {
        if !is_true(assignment, clauses[place].lits()) {
            return Some(place);
        }
    }
    None
}

/// Whether a literal of a clause is true under an assignment.
fn is_true(assignment: &[bool], literals: &[i32]) -> bool
    ensures { result ≡ clause_true assignment.now literals.now }
{
    for literal in literals {
        if literal_is_true(assignment, *literal) {
            return true;
        }
    }
    false
}

/// Whether a literal is true under an assignment. Past its end variables are false.
fn literal_is_true(assignment: &[bool], literal: i32) -> bool
    ensures { result ≡ literal_true assignment.now literal }
{
    if literal == 0 {
        return false;
    }
    let value = value_at(assignment, literal.unsigned_abs() as usize - 1);
    if literal > 0 { value } else { !value }
}

/// The value at a place, false past the end.
fn value_at(assignment: &[bool], place: usize) -> bool
    ensures { result ≡ slice_index_or assignment.now place false }
{
    match assignment.get(place) {
        Some(value) => *value,
        None => false,
    }
}
