//! What is wrong with a certificate and a saved guest: refusals that name a line.

use crate::held::{Held, HeldLine, line_of};
use pg_out_place::{At, Found, Sentence, bytes_from, plain};
use pg_report::{CertificateLine, SavedLine};
use pg_type::Kind;
use std::alloc::Global;

/// What is wrong with a certificate, and where.
pub fn certificate(alloc: Global, why: &CertificateLine, held: &Held<'_>) -> Found {
    match why {
        CertificateLine::Long => plain(
            alloc,
            At::Whole,
            "a certificate has at most 268,435,456 bytes",
        ),
        CertificateLine::Token(line) => foreign(alloc, held, u64::from(*line)),
        CertificateLine::Grammar(line) => no_line(alloc, held, u64::from(*line)),
        CertificateLine::Version => plain(
            alloc,
            start_of(held, 1),
            "this is a certificate of another version",
        ),
        CertificateLine::Missing(name, kind) => missing(alloc, name.as_slice(), *kind),
        CertificateLine::Instr(line)
        | CertificateLine::Step(line, _)
        | CertificateLine::Closed(line)
        | CertificateLine::Pair(line)
        | CertificateLine::Spent(line)
        | CertificateLine::Extra(line)
        | CertificateLine::Delete(line) => plain(
            alloc,
            start_of(held, u64::from(*line)),
            finding_words(why),
        ),
    }
}

/// What is wrong with a finding or a line of it.
fn finding_words(why: &CertificateLine) -> &'static str {
    match why {
        CertificateLine::Instr(_) =>
            "the description has no instruction of this name: the certificate is of another machine",
        CertificateLine::Step(_, 1) => "this step has a literal of no variable of the question",
        CertificateLine::Step(_, 2) => "a hint of this step names no clause that is held",
        CertificateLine::Step(_, 3) =>
            "the clause of a hint of this step sets no literal, or is false before the last hint",
        CertificateLine::Step(_, _) => "no clause is false after the last hint of this step",
        CertificateLine::Closed(_) => "the steps below this line do not end in the empty clause",
        CertificateLine::Pair(_) => "the two states below this line do not show it",
        CertificateLine::Spent(_) => "the budget is not spent as is said here",
        CertificateLine::Extra(_) => "this finding was given before",
        CertificateLine::Delete(_) => "this line takes away a clause that is not held",
        _ => "the certificate is refused",
    }
}

/// A finding that is missing.
fn missing(alloc: Global, name: &[u8], kind: Kind) -> Found {
    Found {
        at: At::Whole,
        what: Sentence::new(alloc)
            .words("the finding ")
            .name(name)
            .words(" ")
            .words(kind_text(kind))
            .words(" is missing: it is not whole, or of another machine"),
    }
}

/// The word of a kind.
fn kind_text(kind: Kind) -> &'static str {
    match kind {
        Kind::Privileged => "privileged",
        Kind::Control => "control",
        Kind::ModeDep => "mode",
        Kind::Location => "location",
        Kind::Bound => "bound",
        Kind::UControl => "ucontrol",
        Kind::ULocation => "ulocation",
        Kind::UBound => "ubound",
    }
}

/// Where a line begins.
fn start_of(held: &Held<'_>, line: u64) -> At {
    match line_of(held, line) {
        None => At::Line(line),
        Some(found) => At::Place(found.start),
    }
}

/// A byte of a line that may not stand in a certificate or a saved guest.
fn foreign(alloc: Global, held: &Held<'_>, line: u64) -> Found {
    match line_of(held, line) {
        None => plain(
            alloc,
            At::Line(line),
            "a byte of this line may not stand here",
        ),
        Some(found) => {
            let offset = match found
                .bytes
                .iter()
                .position(|byte| *byte < 0x20 || 0x7e < *byte)
            {
                None => 0,
                Some(offset) => offset,
            };
            plain(
                alloc,
                At::Place(found.start.saturating_add(offset)),
                foreign_words(bytes_from(found.bytes, offset)),
            )
        }
    }
}

/// Why a line may not go on with these bytes.
fn foreign_words(rest: &[u8]) -> &'static str {
    match rest {
        [b'\r'] => "this line ends with CR LF: lines end with LF alone",
        [0xef, 0xbb, 0xbf, ..] => "a byte order mark stands here: save the file without one",
        [b'\t', ..] => "this is a tab: one blank stands between two parts",
        _ => "this byte may not stand here",
    }
}

/// Whether a line is a heading: this word, a blank, and a number with no zero before it.
fn is_heading(line: &[u8], word: &[u8]) -> bool {
    match line.strip_prefix(word) {
        Some([b' ', b'0']) => true,
        Some([b' ', b'1'..=b'9', digits @ ..]) => digits.iter().all(|byte| byte.is_ascii_digit()),
        _ => false,
    }
}

/// Whether a line begins with a word.
fn begins_with(line: &[u8], word: &[u8]) -> bool {
    match line.strip_prefix(word) {
        None => false,
        Some([]) => true,
        Some([next, ..]) => !next.is_ascii_alphanumeric() && *next != b'_',
    }
}

/// What a line is of another kind of file, if it is one's first line.
fn other_file(line: &[u8]) -> Option<&'static str> {
    if is_heading(line, b"pghybrid") {
        Some("this is a certificate of `hcheck`, for `hybrid` alone")
    } else if is_heading(line, b"pgcert") {
        Some("this is a certificate of `check`: one of `hcheck` is due")
    } else if is_heading(line, b"pgguest") {
        Some("this is a saved guest, and no certificate")
    } else if begins_with(line, b"machine") || begins_with(line, b"instr") {
        Some("this is a description, and no certificate")
    } else {
        None
    }
}

/// Whether the text ends in a line that is not empty, and so without its LF.
fn is_cut(held: &Held<'_>, line: &HeldLine<'_>) -> bool {
    !line.bytes.is_empty() && held.bytes.len() <= line.start.saturating_add(line.bytes.len())
}

/// Whether a line is the heading of a certificate.
fn has_heading(line: &[u8]) -> bool {
    is_heading(line, b"pgcert") || is_heading(line, b"pghybrid")
}

/// A line that is none of a certificate, or may not stand where it does.
fn no_line(alloc: Global, held: &Held<'_>, line: u64) -> Found {
    let words = match line_of(held, line) {
        None => "the text ends too early, or this line may not stand there",
        Some(found) if is_cut(held, &found) && (line > 1 || has_heading(found.bytes)) => {
            "the text ends in this line: LF ends each line, and `end` is the last"
        }
        Some(found) if line == 1 => match other_file(found.bytes) {
            None => "a certificate begins with `pgcert 2`, `pgcert 1` or `pghybrid 1`",
            Some(words) => words,
        },
        Some(found) if found.bytes.is_empty() => "the text ends before `end`, or a line is empty",
        Some(_) => "this is no line of a certificate, or may not stand here",
    };
    plain(alloc, start_of(held, line), words)
}

/// What is wrong with a saved guest, and where.
pub fn saved(alloc: Global, why: &SavedLine, held: &Held<'_>) -> Found {
    match why {
        SavedLine::Long => plain(
            alloc,
            At::Whole,
            "a saved guest has at most 33,554,432 bytes",
        ),
        SavedLine::Token(line) => foreign(alloc, held, u64::from(*line)),
        SavedLine::Version(line) => plain(
            alloc,
            start_of(held, u64::from(*line)),
            "this is a saved guest of another version",
        ),
        SavedLine::Grammar(1) => plain(
            alloc,
            start_of(held, 1),
            "a saved guest begins with `pgguest 1`",
        ),
        SavedLine::Grammar(line) => plain(
            alloc,
            start_of(held, u64::from(*line)),
            "this is no line of a saved guest, or may not stand here; or the text ends before `end`",
        ),
    }
}
