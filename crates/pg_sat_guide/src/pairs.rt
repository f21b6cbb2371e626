//! Pairs of variables that may be equal, or each other's opposite.

use crate::gates::Gate;
use crate::marks::marks_of;
use std::alloc::{AllocError, Global};

/// Two literals that may be equal: a variable, and one of a greater variable.
#[derive(Clone, Copy)]
pub struct Pair {
    pub first: i32,
    pub second: i32,
}

/// A variable with its mark.
#[derive(Clone, Copy, PartialEq, Eq, PartialOrd, Ord, Drop)]
struct Marked {
    sum: u64,
    variable: i32,
    turned: bool,
}

/// The variables whose marks tell them apart, those of the same sum one after another, ascending.
fn marked_of(alloc: Global, gates: &[Gate]) -> Result<Vec<Marked>, AllocError> {
    let marks = marks_of(alloc, gates)?;
    let mut marked = Vec::new(alloc);
    for (place, mark) in marks.iter().enumerate() {
        if mark.is_telling() {
            marked.push(Marked {
                sum: mark.sum,
                variable: i32::try_from(place).unwrap_or(0),
                turned: mark.turned,
            })?;
        }
    }
    marked.as_mut_slice().sort_unstable();
    Ok(marked)
}

/// The pair of two variables of the same sum.
fn pair_of(one: &Marked, other: &Marked) -> Pair {
    let second = if one.turned == other.turned {
        other.variable
    } else {
        other.variable.saturating_neg()
    };
    Pair {
        first: one.variable,
        second,
    }
}

/// The pairs that gates show: of the variables that have the same values at random, or opposite ones, the least with each of the others;
/// those of lesser second variables first. It costs the number of variables, and to sort them.
pub fn pairs_of(alloc: Global, gates: &[Gate]) -> Result<Vec<Pair>, AllocError> {
    let marked = marked_of(alloc, gates)?;
    let mut pairs = Vec::new(alloc);
    let mut least = Marked {
        sum: 0,
        variable: 0,
        turned: false,
    };
    for one in marked.as_slice() {
        if least.variable > 0 && least.sum == one.sum {
            pairs.push(pair_of(&least, one))?;
        } else {
            least = *one;
        }
    }
    pairs
        .as_mut_slice()
        .sort_unstable_by_key(|pair| pair.second.unsigned_abs());
    Ok(pairs)
}
