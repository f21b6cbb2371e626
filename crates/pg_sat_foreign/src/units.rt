//! Literals that follow with nothing assumed: for each of them the log has a clause of that literal alone.

use std::alloc::{AllocError, Global};

/// The numbers of these clauses, by variable; 0 where there is none.
#[derive(Drop)]
pub struct Units {
    numbers: Vec<u32>,
}

impl Units {
    /// None yet, of so many variables.
    pub fn new(alloc: Global, variables: u32) -> Result<Units, AllocError> {
        let places = variables as usize + 1;
        Ok(Units {
            numbers: vec![in alloc; 0u32; places]?,
        })
    }

    /// The number of the clause of the literal of a variable, if it follows.
    pub fn number(&self, literal: i32) -> Option<u32> {
        match self.numbers.get(literal.unsigned_abs() as usize) {
            Some(number) if *number > 0 => Some(*number),
            _ => None,
        }
    }

    /// A literal follows, by the clause of a number.
    pub fn put(&mut self, literal: i32, number: u32) {
        let place = literal.unsigned_abs() as usize;
        if place < self.numbers.len() {
            self.numbers[place] = number;
        }
    }
}
