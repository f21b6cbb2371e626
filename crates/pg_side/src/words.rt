//! The words of the command line.

use crate::side::{Call, Side, last_part};
use std::rt::Env;

/// The most bytes of a name that the program is called by; a longer one is none of the programs'.
const NAME_BYTES: usize = 4096;

/// Which program is meant: that of the name which is called, or else that of the first word. The bytes are looked at before any
/// memory is asked for, so that words which are not UTF-8, and lack of memory, are told by the program that is meant.
pub fn called<R: Env>(rt: &R) -> Option<Call> {
    let mut bytes = [0; NAME_BYTES];
    if let Some(side) = Side::of_name(last_part(word(rt, 0, &mut bytes))) {
        return Some(Call {
            side,
            by_word: false,
        });
    }
    match Side::of_name(word(rt, 1, &mut bytes)) {
        Some(side) => Some(Call {
            side,
            by_word: true,
        }),
        None => None,
    }
}

/// The bytes of a word, where it is there and fits; else none.
fn word<'a, R: Env>(rt: &R, place: usize, bytes: &'a mut [u8]) -> &'a [u8] {
    match rt.arg(place, bytes) {
        Ok(length) => &bytes[..length],
        Err(_) => &[],
    }
}

/// What words ask for in place of work.
#[derive(Clone, Copy)]
pub enum Asked {
    /// How the program is called.
    Help,
    /// The version.
    Version,
}

/// What the first of a program's own words asks for, behind its name, if it asks for help or for the version.
pub fn asks_for(words: &[String]) -> Option<Asked> {
    match words {
        [_, word, ..] => match word.as_bytes() {
            b"--help" | b"-h" => Some(Asked::Help),
            b"--version" => Some(Asked::Version),
            _ => None,
        },
        _ => None,
    }
}

/// The words of the program that is meant, its name first.
pub fn own(call: Call, words: &[String]) -> &[String] {
    match words {
        [_, behind @ ..] if call.by_word => behind,
        _ => words,
    }
}
