//! What is wrong, and where in the bytes.

use crate::sentence::Sentence;
use std::alloc::Global;

/// Where something is wrong.
#[derive(Clone, Copy)]
pub enum At {
    /// In the whole file, or no place is known.
    Whole,
    /// At this byte of those that are held, counted from 0.
    Place(usize),
    /// On the line of this number, from 1, which is not held.
    Line(u64),
}

/// What is wrong, and where.
#[derive(Drop)]
pub struct Found {
    /// Where.
    pub at: At,
    /// What.
    pub what: Sentence,
}

/// These words, said of a place.
pub fn plain(alloc: Global, at: At, words: &str) -> Found {
    Found {
        at,
        what: Sentence::new(alloc).words(words),
    }
}

/// A place, if one is known.
pub fn at_place(place: Option<usize>) -> At {
    match place {
        None => At::Whole,
        Some(place) => At::Place(place),
    }
}

/// All that is told of a file.
#[derive(Drop)]
pub struct Told {
    /// What is refused.
    pub first: Found,
    /// What is wrong beside it, of the same kind.
    pub more: Vec<Found>,
    /// How many more faults of that kind there are.
    pub left: u64,
}

/// One fault alone.
pub fn alone(alloc: Global, first: Found) -> Told {
    Told {
        first,
        more: Vec::new(alloc),
        left: 0,
    }
}
