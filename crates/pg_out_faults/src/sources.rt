//! What is wrong with a source of the assembler: with its bytes, and with the form of a line. What its names and values mean for
//! a machine is in `meant`.
//!
//! Each error is out of memory.

use crate::held::{Held, behind_part, first_part, line_of};
use crate::image::first_at;
use crate::meant::meant;
use pg_image::{content, is_gap};
use pg_out_place::{At, Found, bytes_from, plain};
use pg_report::SourceLine;
use std::alloc::{AllocError, Global};

/// What is wrong with a source, and where.
pub fn source(alloc: Global, why: &SourceLine, held: &Held<'_>) -> Result<Found, AllocError> {
    match why {
        SourceLine::Name(line)
        | SourceLine::Field(line)
        | SourceLine::Label(line)
        | SourceLine::Range(line) => meant(alloc, why, held, *line as u64),
        _ => Ok(formed(alloc, why, held)),
    }
}

/// What is wrong with the bytes of a source, or the form of its lines.
fn formed(alloc: Global, why: &SourceLine, held: &Held<'_>) -> Found {
    match why {
        SourceLine::Token(place) => plain(
            alloc,
            At::Place(*place),
            source_byte(bytes_from(held.bytes, *place)),
        ),
        SourceLine::Grammar(line) => plain(
            alloc,
            first_at(held, *line as u64),
            source_form(held, *line as u64),
        ),
        SourceLine::Place(line) => plain(
            alloc,
            first_at(held, *line as u64),
            "the word of this line would stand at or past the size",
        ),
        SourceLine::Overlap(line) => plain(
            alloc,
            first_at(held, *line as u64),
            "an earlier line gives the cell of this line",
        ),
        _ => plain(alloc, At::Whole, "a source has at most 1,048,576 bytes"),
    }
}

/// Why a byte may not stand in a source.
fn source_byte(rest: &[u8]) -> &'static str {
    match rest {
        [0xef, 0xbb, 0xbf, ..] => "a byte order mark stands here: save the file without one",
        [b';', ..] =>
            "`;` may not stand here: a line ends an instruction, and `#` begins a comment",
        [b',', ..] => "`,` may not stand here: blanks stand between fields",
        [b'-', ..] =>
            "`-` may not stand here: values have no sign; of n bits write -1 as `2^n - 1`",
        _ => "this may stand in a comment alone",
    }
}

/// Whether a part is no whole field: nothing stands behind its `=`, or it has none.
fn is_half(part: &[u8]) -> bool {
    match part {
        [] => false,
        [.., b'='] => true,
        _ => !part.contains(&b'='),
    }
}

/// Whether the value of a field is written in hexadecimal.
fn has_hexadecimal(text: &[u8]) -> bool {
    match text {
        [_, b'=', b'0', b'x' | b'X', ..] => true,
        _ => false,
    }
}

/// What is wrong with the form of a line of a source.
fn source_form(held: &Held<'_>, line: u64) -> &'static str {
    let line = match line_of(held, line) {
        None => return "this is no line of a source",
        Some(found) => content(found.bytes),
    };
    let rest = behind_part(line);
    match (first_part(line), first_part(rest)) {
        ([.., b':'], [_, ..]) => "a label has a line to itself",
        (b"word", _) =>
            "`word` is followed by the digits of one word, as many as it has, and no more",
        ([b'@', ..], _) => "`@` is followed by 1 to 7 decimal digits, and has a line to itself",
        _ if line.split(|byte| is_gap(*byte)).any(has_hexadecimal) =>
            "the value of a field is decimal digits or a label: `0x` may not stand there",
        (_, second) if is_half(second) =>
            "a field is written `LETTER=VALUE`, with no blank around `=`",
        _ => "this is no line of a source: `NAME FIELD=VALUE ..`, `NAME:`, `@PLACE` or `word HEX`",
    }
}
