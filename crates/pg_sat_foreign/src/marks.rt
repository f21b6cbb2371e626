//! Literals and variables that were seen, by stamps: a place is marked where it has the current stamp, so that all marks are taken
//! down at once. Places that there are not are never marked.

use std::alloc::{AllocError, Global};

/// The literals of a clause at hand, and the variables that were seen of its conflict.
#[derive(Drop)]
pub struct Marks {
    own: Vec<u64>,
    seen: Vec<u64>,
    clause: u64,
    trace: u64,
}

impl Marks {
    /// No mark, for so many variables.
    pub fn new(alloc: Global, variables: u32) -> Result<Marks, AllocError> {
        let places = 2 * variables as usize + 2;
        Ok(Marks {
            own: vec![in alloc; 0u64; places]?,
            seen: vec![in alloc; 0u64; places]?,
            clause: 0,
            trace: 0,
        })
    }

    /// The clause at hand is one of these literals, and nothing was seen.
    pub fn begin(&mut self, literals: &[i32]) {
        self.clause = self.clause.saturating_add(1);
        for literal in literals {
            put(&mut self.own, place(*literal), self.clause);
        }
        self.forget();
    }

    /// Nothing was seen of a conflict.
    pub fn forget(&mut self) {
        self.trace = self.trace.saturating_add(1);
    }

    /// Whether a literal stands in the clause at hand.
    pub fn is_own(&self, literal: i32) -> bool {
        at(&self.own, place(literal)) == self.clause
    }

    /// Whether the variable of a literal stands in the clause at hand.
    pub fn has_variable(&self, literal: i32) -> bool {
        let first = 2 * literal.unsigned_abs() as usize;
        at(&self.own, first) == self.clause || at(&self.own, first + 1) == self.clause
    }

    /// Whether the variable of a literal was seen.
    pub fn is_seen(&self, literal: i32) -> bool {
        at(&self.seen, literal.unsigned_abs() as usize) == self.trace
    }

    /// The variable of a literal is seen.
    pub fn see(&mut self, literal: i32) {
        put(&mut self.seen, literal.unsigned_abs() as usize, self.trace);
    }
}

/// The place of a literal: 2 v for variable v, and 2 v + 1 for its negation.
fn place(literal: i32) -> usize {
    2 * literal.unsigned_abs() as usize + usize::from(literal < 0)
}

/// The stamp at a place, or 0 where there is none.
fn at(stamps: &Vec<u64>, place: usize) -> u64 {
    match stamps.get(place) {
        Some(stamp) => *stamp,
        None => 0,
    }
}

/// Puts a stamp at a place, if there is one.
fn put(stamps: &mut Vec<u64>, place: usize, stamp: u64) {
    if place < stamps.len() {
        stamps[place] = stamp;
    }
}
