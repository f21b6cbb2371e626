//! What is wrong with an image.

use crate::held::{Held, line_of, part_offset};
use pg_image::{content, split_part};
use pg_out_desc::{cut, head_of};
use pg_out_place::{At, Found, Sentence, bytes_from, plain};
use pg_report::ImageLine;
use std::alloc::{AllocError, Global};

/// What is wrong with an image, and where.
pub fn image(alloc: Global, why: &ImageLine, held: &Held<'_>) -> Result<Found, AllocError> {
    let toks = cut(alloc, held.description)?;
    let digits = match head_of(toks.as_slice()) {
        None => None,
        Some(head) => Some(head.word.value / 4),
    };
    Ok(fault(alloc, why, held, digits))
}

/// What is wrong with an image whose words have so many digits, if that is known.
fn fault(alloc: Global, why: &ImageLine, held: &Held<'_>, digits: Option<u64>) -> Found {
    match why {
        ImageLine::Long => plain(alloc, At::Whole, "an image has at most 33,554,432 bytes"),
        ImageLine::Token(place) => plain(alloc, At::Place(*place), no_byte(held.bytes, *place)),
        ImageLine::Grammar(line) => row(alloc, held, *line as u64, digits),
        ImageLine::Address(line) => plain(
            alloc,
            first_at(held, *line as u64),
            "a word of this line would stand at or past the size",
        ),
        ImageLine::Overlap(line) => plain(
            alloc,
            first_at(held, *line as u64),
            "an earlier line gives a cell of this line",
        ),
    }
}

/// Why a byte may not stand in an image.
fn no_byte(bytes: &[u8], place: usize) -> &'static str {
    let is_behind_0 = match place.checked_sub(1) {
        None => false,
        Some(before) => bytes_from(bytes, before).first() == Some(&b'0'),
    };
    match bytes_from(bytes, place) {
        [0xef, 0xbb, 0xbf, ..] => "a byte order mark stands here: save the file without one",
        [b'x', ..] | [b'X', ..] if is_behind_0 => "a word is written without `0x`",
        _ => "this may stand in a comment alone",
    }
}

/// Where the first part of a line stands.
pub fn first_at(held: &Held<'_>, line: u64) -> At {
    match line_of(held, line) {
        None => At::Line(line),
        Some(found) => At::Place(
            found
                .start
                .saturating_add(part_offset(content(found.bytes))),
        ),
    }
}

/// What is wrong with a line that is no address with words behind it.
#[derive(Clone, Copy)]
enum RowFault {
    /// It begins with no address.
    NoAddress,
    /// Something stands right behind the colon of the address.
    Glued,
    /// Its address is not 1 to 7 decimal digits.
    Digits,
    /// It has no word.
    NoWord,
    /// A word has so many digits, which are too few or too many.
    Word(usize),
    /// A colon stands in a word.
    Colon,
}

/// A fault of a line, and how many bytes of the line are left from there on.
#[derive(Clone, Copy)]
struct Broken {
    fault: RowFault,
    left: usize,
}

/// What is wrong with the address of a line, if anything.
fn address_fault(part: &[u8]) -> Option<RowFault> {
    match part {
        [digits @ .., b':'] => {
            if digits.is_empty() || digits.len() > 7 || !digits.iter().all(|d| d.is_ascii_digit()) {
                Some(RowFault::Digits)
            } else {
                None
            }
        }
        _ => {
            if part.contains(&b':') {
                Some(RowFault::Glued)
            } else {
                Some(RowFault::NoAddress)
            }
        }
    }
}

/// What is wrong with a word, if anything, where words have so many digits, if that is known.
fn word_fault(part: &[u8], digits: Option<u64>) -> Option<RowFault> {
    if part.contains(&b':') {
        return Some(RowFault::Colon);
    }
    match digits {
        Some(digits) if digits != part.len() as u64 => Some(RowFault::Word(part.len())),
        _ => None,
    }
}

/// What is wrong with the words behind an address.
fn words_fault(words: &[u8], digits: Option<u64>) -> Broken {
    let mut left = words;
    while let Some((part, behind)) = split_part(left) {
        if let Some(fault) = word_fault(part, digits) {
            return Broken {
                fault,
                left: part.len().saturating_add(behind.len()),
            };
        }
        left = behind;
    }
    Broken {
        fault: RowFault::NoWord,
        left: 0,
    }
}

/// What is wrong with a line without its comment.
fn line_fault(line: &[u8], digits: Option<u64>) -> Broken {
    match split_part(line) {
        None => Broken {
            fault: RowFault::NoAddress,
            left: 0,
        },
        Some((part, behind)) => match address_fault(part) {
            Some(fault) => Broken {
                fault,
                left: part.len().saturating_add(behind.len()),
            },
            None => words_fault(behind, digits),
        },
    }
}

/// A line of another form than a row.
fn row(alloc: Global, held: &Held<'_>, line: u64, digits: Option<u64>) -> Found {
    match line_of(held, line) {
        None => plain(
            alloc,
            At::Line(line),
            "a line is an address with `:`, and words",
        ),
        Some(found) => {
            let line = content(found.bytes);
            let broken = line_fault(line, digits);
            let at = At::Place(
                found
                    .start
                    .saturating_add(line.len().saturating_sub(broken.left)),
            );
            fault_found(alloc, at, broken.fault, digits)
        }
    }
}

/// What is told of a fault of a line.
fn fault_found(alloc: Global, at: At, fault: RowFault, digits: Option<u64>) -> Found {
    match fault {
        RowFault::NoAddress => plain(
            alloc,
            at,
            "a line begins with an address and `:`, as in `2: `",
        ),
        RowFault::Glued => plain(alloc, at, "a blank stands behind the `:` of an address"),
        RowFault::Digits => plain(alloc, at, "an address is 1 to 7 decimal digits"),
        RowFault::NoWord => plain(alloc, at, "a word is due behind the address"),
        RowFault::Colon => plain(alloc, at, "each address has a line of its own"),
        RowFault::Word(count) => word_found(alloc, at, count, digits),
    }
}

/// What is told of a word of too few or too many digits.
fn word_found(alloc: Global, at: At, count: usize, digits: Option<u64>) -> Found {
    let what = Sentence::new(alloc).words("a word has ");
    let what = match digits {
        None => what.words("another number of"),
        Some(digits) => what.number(digits),
    };
    Found {
        at,
        what: what.words(" digits, and this has ").number(count as u64),
    }
}
