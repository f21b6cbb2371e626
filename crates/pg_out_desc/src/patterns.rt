//! Patterns that are not well formed, and patterns that overlap.

use crate::limits::head_of;
use pg_out_place::{
    At, Found, Placed, Sentence, instruction, is_word, pattern_of, plain, spot_at, word_of,
};
use std::alloc::Global;

/// A pattern and its place.
#[derive(Clone, Copy)]
struct GivenPattern<'t> {
    bytes: &'t [u8],
    place: usize,
}

/// The pattern of the instruction of this number.
fn pattern_at(toks: &[Placed], number: usize) -> Option<GivenPattern<'_>> {
    let instr = match instruction(toks, number) {
        None => return None,
        Some(instr) => instr,
    };
    for tok in instr {
        if let Some(bytes) = pattern_of(tok) {
            return Some(GivenPattern {
                bytes,
                place: tok.1.from,
            });
        }
    }
    None
}

/// The name of the instruction of this number, or no byte.
fn name_at(toks: &[Placed], number: usize) -> &[u8] {
    match instruction(toks, number) {
        Some([name, ..]) => match word_of(name) {
            None => &[],
            Some(name) => name,
        },
        _ => &[],
    }
}

/// A letter of a pattern that stands in two runs.
fn split_letter(pattern: &[u8]) -> Option<u8> {
    let mut last = b'.';
    for (at, byte) in pattern.iter().enumerate() {
        if *byte != last && byte.is_ascii_lowercase() && pattern[..at].contains(byte) {
            return Some(*byte);
        }
        last = *byte;
    }
    None
}

/// What is wrong with the pattern of an instruction.
pub fn pattern(alloc: Global, toks: &[Placed], number: usize) -> Found {
    let (given, head) = match (pattern_at(toks, number), head_of(toks)) {
        (Some(given), Some(head)) => (given, head),
        _ => return plain(alloc, At::Whole, "a pattern is not well formed"),
    };
    let what = Sentence::new(alloc);
    let at = At::Place(given.place);
    match split_letter(given.bytes) {
        Some(letter) if given.bytes.len() as u64 == head.word.value => Found {
            at,
            what: what
                .words("a field is one run of its letter, and ")
                .name(&[letter])
                .words(" stands in two"),
        },
        _ => Found {
            at,
            what: what
                .words("a pattern has a place for each bit of a word, ")
                .number(head.word.value)
                .words(", and this has ")
                .number(given.bytes.len() as u64),
        },
    }
}

/// Two patterns that match one word.
pub fn overlap(alloc: Global, bytes: &[u8], toks: &[Placed], one: usize, other: usize) -> Found {
    let (first, second) = match (pattern_at(toks, one), pattern_at(toks, other)) {
        (Some(first), Some(second)) => (first, second),
        _ => return plain(alloc, At::Whole, "two patterns match one word"),
    };
    Found {
        at: At::Place(second.place),
        what: Sentence::new(alloc)
            .words("some word matches this pattern and that of ")
            .name(name_at(toks, one))
            .words(", on line ")
            .number(spot_at(bytes, first.place).line)
            .words(": fix a bit that tells them apart"),
    }
}

/// The pattern of the instruction of this name.
pub fn pattern_named<'t>(toks: &'t [Placed], name: &[u8]) -> Option<&'t [u8]> {
    let mut is_behind = false;
    let mut is_named = false;
    for tok in toks {
        if is_named {
            return pattern_of(tok);
        }
        is_named = is_behind && is_word(tok, name);
        is_behind = is_word(tok, b"instr");
    }
    None
}

/// How many bits of a pattern are this field's.
pub fn field_width(pattern: &[u8], letter: u8) -> u64 {
    let mut width: u64 = 0;
    for byte in pattern {
        if *byte == letter {
            width = width.saturating_add(1);
        }
    }
    width
}

/// The first field of a pattern, and what stands behind its run.
pub fn next_field(pattern: &[u8]) -> Option<(u8, &[u8])> {
    let behind = match pattern.iter().position(|byte| byte.is_ascii_lowercase()) {
        None => return None,
        Some(at) => &pattern[at..],
    };
    let letter = match behind.first() {
        None => return None,
        Some(letter) => *letter,
    };
    match behind.iter().position(|byte| *byte != letter) {
        None => Some((letter, &[])),
        Some(to) => Some((letter, &behind[to..])),
    }
}

/// And the fields of a pattern, from the highest bit, as a source gives them.
pub fn push_fields(what: Sentence, pattern: &[u8]) -> Sentence {
    let mut what = what;
    let mut last = b'.';
    for byte in pattern {
        if *byte != last && byte.is_ascii_lowercase() {
            what = what.words(" ").text([*byte].as_slice()).words("=..");
        }
        last = *byte;
    }
    what
}
