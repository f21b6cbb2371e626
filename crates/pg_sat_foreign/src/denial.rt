//! The literals of a clause, made false one after another.

use pg_watch::{Fix, Watches};
use std::alloc::AllocError;

/// What is met with the literals of a clause false.
pub enum Met {
    /// Nothing: the clause does not follow by unit propagation.
    Nothing,
    /// A literal of the clause itself, which is true.
    Own,
    /// The clause of this number is false.
    Conflict(u32),
}

/// Makes the literals of a clause false in order, each with what follows, until something is met. Nothing is left to propagate before it.
pub fn deny(watches: &mut Watches, literals: &[i32]) -> Result<Met, AllocError> {
    for literal in literals {
        match value_of(watches, *literal) {
            Some(true) => return Ok(Met::Own),
            Some(false) => {}
            None => {
                if let Some(number) = make_false(watches, *literal)? {
                    return Ok(Met::Conflict(number));
                }
            }
        }
    }
    Ok(Met::Nothing)
}

/// The value of a literal; none where it is of no variable that there is.
pub fn value_of(watches: &Watches, literal: i32) -> Option<bool> {
    let variable = literal.unsigned_abs();
    if variable == 0 || variable > watches.variables() {
        return None;
    }
    watches.value(literal)
}

/// Makes an unset literal false, with what follows: the number of a clause that is false then, if one is.
fn make_false(watches: &mut Watches, literal: i32) -> Result<Option<u32>, AllocError> {
    // what is tested here holds at each call; the tests say so to the prover
    let Some(denied) = literal.checked_neg() else {
        return Ok(None);
    };
    let variable = denied.unsigned_abs();
    if variable == 0 || variable > watches.variables() || !watches.is_quiet() {
        return Ok(None);
    }
    if watches.value(denied).is_some() {
        return Ok(None);
    }
    match watches.assign(denied)? {
        Fix::Quiet => Ok(None),
        Fix::Conflict(number) => Ok(Some(number)),
    }
}

/// Cuts the trail to its first literals, behind which the first that was assigned stands.
pub fn release(watches: &mut Watches, root: usize) {
    if root < watches.trail().len() && watches.reason(root).is_none() {
        watches.undo(root);
    }
}
