//! The output of a solver that found an assignment.
//!
//! A line `s SATISFIABLE` is its answer, and lines of `v` have the literals that are true, up to a 0.

use crate::bytes::Bytes;
use crate::fault::ForeignFault;
use crate::record::Place;
use crate::words::{literal_of, says_nothing, text_of};
use pg_proof::LitList;
use std::alloc::Global;

/// Whether a file is the output of a solver: its first line that says something begins with `s` or `v`.
pub fn is_answer(bytes: &[u8]) -> bool {
    let mut bytes = Bytes { left: bytes };
    while let Some(line) = bytes.line() {
        match text_of(line) {
            Some(text) if says_nothing(text) => {}
            Some(text) => return text.starts_with('s') || text.starts_with('v'),
            None => return false,
        }
    }
    false
}

/// The literals that the assignment of a solver's output makes true.
pub fn read_answer(alloc: Global, bytes: &[u8]) -> Result<LitList, ForeignFault> {
    let mut literals = LitList::new(alloc);
    let mut bytes = Bytes { left: bytes };
    let mut number = 0u64;
    let mut ended = false;
    while let Some(line) = bytes.line() {
        number = number.saturating_add(1);
        let place = Place::Line(number);
        let text = text_of(line).ok_or(ForeignFault::Malformed(place))?;
        if says_nothing(text) {
            continue;
        }
        if ended {
            return Err(ForeignFault::Malformed(place));
        }
        ended = read_line(place, text, &mut literals)?;
    }
    if ended {
        Ok(literals)
    } else {
        Err(ForeignFault::Open)
    }
}

/// Reads a line that says something, and says whether it ends the assignment.
fn read_line(place: Place, text: &str, literals: &mut LitList) -> Result<bool, ForeignFault> {
    if text == "s SATISFIABLE" {
        return Ok(false);
    }
    if text.starts_with('s') {
        return Err(ForeignFault::Unsolved(place));
    }
    match text.strip_prefix("v ") {
        Some(values) => read_values(place, values, literals),
        None => Err(ForeignFault::Malformed(place)),
    }
}

/// Reads the values of a line, and says whether a 0 ends them.
fn read_values(place: Place, values: &str, literals: &mut LitList) -> Result<bool, ForeignFault> {
    let mut ended = false;
    for word in values.split_ascii_whitespace() {
        if ended {
            return Err(ForeignFault::Malformed(place));
        }
        match word.parse::<i64>() {
            Ok(0) => ended = true,
            Ok(number) => {
                literals.push(literal_of(number).ok_or(ForeignFault::Malformed(place))?)?
            }
            Err(_) => return Err(ForeignFault::Malformed(place)),
        }
    }
    Ok(ended)
}
