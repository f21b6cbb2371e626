//! Clauses by a sum of their literals, whatever their order: a removal names a clause by its literals alone.

use std::alloc::{AllocError, Global};
use std::collections::HashMap;

/// The places of clauses, by their sums. Of clauses of one sum it has the last.
#[derive(Drop)]
pub struct Sums {
    places: HashMap<u64, usize>,
}

impl Sums {
    /// No clause. It takes no memory yet.
    pub fn new(alloc: Global) -> Sums {
        Sums {
            places: HashMap::new(alloc),
        }
    }

    /// A clause of these literals stands at a place.
    pub fn put(&mut self, literals: &[i32], place: usize) -> Result<(), AllocError> {
        match self.places.insert(sum_of(literals), place) {
            Ok(_) => Ok(()),
            Err(_) => Err(AllocError),
        }
    }

    /// The place of a clause whose sum is that of these literals, if there is one: it is taken out.
    pub fn take(&mut self, literals: &[i32]) -> Option<usize> {
        self.places.remove(&sum_of(literals))
    }
}

/// The sum of the literals, each multiplied with itself and with great odd numbers.
fn sum_of(literals: &[i32]) -> u64 {
    let mut sum = 0u64;
    for literal in literals {
        sum = sum.wrapping_add(mixed(*literal));
    }
    sum
}

/// A number for a literal.
fn mixed(literal: i32) -> u64 {
    let number = 2 * u64::from(literal.unsigned_abs()) + u64::from(literal < 0);
    let first = number.wrapping_mul(0x9e37_79b9_7f4a_7c15);
    (first ^ (first >> 32)).wrapping_mul(0xd6e8_feb8_6659_fd93)
}
