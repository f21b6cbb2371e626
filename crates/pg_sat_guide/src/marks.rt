//! What the values of gates are known by, where those of the inputs are drawn at random.
//!
//! The values of a gate are drawn 64 at a time, as a word. Two gates that are equal have the same words; two that are not
//! have the same only by chance, and the more often values are drawn the less. The numbers that are drawn are always the
//! same, so that a search is the same each time. Nothing rests on them, so nothing is said of them in contracts.

use crate::gates::{Gate, Kind};
use std::alloc::{AllocError, Global};

/// Where the numbers that are drawn begin: any number but 0.
const SEED: u64 = 0x9e37_79b9_7f4a_7c15;

/// How many words are drawn for each gate.
const ROUNDS: u32 = 16;

/// How many values have to differ from the rest.
const LEAST: u32 = 8;

/// What the values of a variable are known by.
#[derive(Clone, Copy)]
pub struct Mark {
    /// The same for two variables that have the same values, or at each draw the other's opposite.
    pub sum: u64,
    /// Whether the value is true that was drawn first: two of the same sum have the same values where this is the same.
    pub turned: bool,
    /// How many values were not the one that was drawn first.
    others: u32,
}

impl Mark {
    /// Whether the values differ among themselves often enough: of two gates that are nearly always false they say nothing.
    pub fn is_telling(&self) -> bool {
        self.others >= LEAST && self.others <= 64 * ROUNDS - LEAST
    }
}

/// The mark of each gate, by variable. It costs the number of variables.
pub fn marks_of(alloc: Global, gates: &[Gate]) -> Result<Vec<Mark>, AllocError> {
    let mut drawn = SEED;
    let mut words = Vec::new(alloc);
    draw(gates, 0, &mut drawn, &mut words)?;
    let mut marks = first_marks(alloc, words.as_slice())?;
    for round in 0..ROUNDS {
        draw(gates, round, &mut drawn, &mut words)?;
        add_words(words.as_slice(), marks.as_mut_slice());
    }
    Ok(marks)
}

/// Marks that know the value that was drawn first.
fn first_marks(alloc: Global, words: &[u64]) -> Result<Vec<Mark>, AllocError> {
    let mut marks = Vec::new(alloc);
    for word in words {
        marks.push(Mark {
            sum: 0,
            turned: *word % 2 == 1,
            others: 0,
        })?;
    }
    Ok(marks)
}

/// Adds a word to each mark.
fn add_words(words: &[u64], marks: &mut [Mark]) {
    for (mark, &word) in marks.iter_mut().zip(words) {
        let even = if mark.turned { !word } else { word };
        mark.sum = next_number(mark.sum.rotate_left(1) ^ even);
        mark.others = mark.others.saturating_add(even.count_ones());
    }
}

/// Draws a word for each gate: that of an input at random, and what follows for the others.
fn draw(
    gates: &[Gate],
    round: u32,
    drawn: &mut u64,
    words: &mut Vec<u64>,
) -> Result<(), AllocError> {
    words.clear();
    for gate in gates {
        let first = word_of(words.as_slice(), gate.first);
        let second = word_of(words.as_slice(), gate.second);
        let word = match gate.kind() {
            Kind::Input => input_word(round, drawn),
            Kind::And => first & second,
            Kind::Equal => !(first ^ second),
        };
        words.push(word)?;
    }
    Ok(())
}

/// A word of an input: in the first two rounds half of its values are true, in the next two a quarter and then three, and so
/// on, since a long carry comes only where most are.
fn input_word(round: u32, drawn: &mut u64) -> u64 {
    *drawn = next_number(*drawn);
    let mut word = *drawn;
    for _ in 0..round / 2 {
        *drawn = next_number(*drawn);
        word &= *drawn;
    }
    if round % 2 == 1 { !word } else { word }
}

/// The word of a literal, 0 where its variable has none.
fn word_of(words: &[u64], literal: i32) -> u64 {
    match words.get(literal.unsigned_abs() as usize) {
        None => 0,
        Some(&word) => { if literal < 0 { !word } else { word } }
    }
}

/// The number that is drawn after another (Marsaglia, 2003).
fn next_number(number: u64) -> u64 {
    let one = number ^ (number << 13);
    let two = one ^ (one >> 7);
    two ^ (two << 17)
}
