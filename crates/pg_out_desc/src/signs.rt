//! Why no token begins at a place of a description: signs and numbers of other languages, and bytes of a pattern.

use pg_out_place::{At, Found, Sentence, bytes_from, plain};
use std::alloc::Global;

/// Why no token begins at this place, and where what is wrong stands.
pub fn no_token(alloc: Global, bytes: &[u8], place: usize) -> Found {
    let rest = bytes_from(bytes, place);
    match rest {
        [b'"', ..] => in_pattern(alloc, place, rest),
        [b'\'', base, digits @ ..] => {
            let width = number_before(bytes, place);
            as_number(alloc, place, sized(*base, digits, width))
        }
        [b'0', b'b' | b'B', digits @ ..] => as_number(alloc, place, binary(digits)),
        _ => plain(alloc, At::Place(place), no_sign(rest)),
    }
}

/// Why no token begins with these bytes.
fn no_sign(rest: &[u8]) -> &'static str {
    match rest {
        [0xef, 0xbb, 0xbf, ..] => "a byte order mark stands here: save the file without one",
        [b'>', ..] => "`>` is no sign: exchange the sides, and write `<`",
        [b'!', ..] => "`!` is no sign: turn an answer with `~`",
        [b'/', b'/' | b'*', ..] => "`/` is no sign: a comment begins with `#`",
        [b'/', ..] =>
            "`/` is no sign: shift by a power of two, as in `(x >> 3:8)`; no other division is there",
        [b'%', ..] =>
            "`%` is no sign: cut out the low bits, as in `cut(x, 2, 0)` for the rest by 8",
        [b'?', ..] => "`?` is no sign: a choice is `sel(c, x, y)`, x where c is 1, else y",
        [b'\'', ..] =>
            "`'` is no sign: a number is its value, `:` and how many bits it has, as in `0xff:32`",
        [b'0', b'X', ..] => "hexadecimal digits stand behind `0x`, with a small `x`",
        [b'0'..=b'9', ..] =>
            "this is no number below 2^64: decimal digits, or `0x` and 1 to 16 hexadecimal ones",
        [b'a'..=b'z', ..] | [b'A'..=b'Z', ..] => "a word has at most 32 bytes",
        [0x80..=0xff, ..] => "this may stand in a comment alone",
        _ => "this is no sign of the language",
    }
}

/// Whether a byte goes on with a word or a number.
fn is_word_byte(byte: u8) -> bool {
    byte.is_ascii_alphanumeric() || byte == b'_'
}

/// The front of a text that is letters, digits and `_`.
fn word_front(text: &[u8]) -> &[u8] {
    match text.iter().position(|byte| !is_word_byte(*byte)) {
        None => text,
        Some(at) => &text[..at],
    }
}

/// The decimal digits that stand right before a place.
fn number_before(bytes: &[u8], place: usize) -> &[u8] {
    let front = &bytes[..place.min(bytes.len())];
    match front.iter().rposition(|byte| !byte.is_ascii_digit()) {
        None => front,
        Some(at) => &front[at + 1..],
    }
}

/// The value of binary digits, with `_` between, and how many there are, from 1 to 64.
fn binary_value(digits: &[u8]) -> Option<(u64, u64)> {
    let mut value: u64 = 0;
    let mut count: u64 = 0;
    for digit in digits {
        if *digit != b'_' {
            if count >= 64 || !matches!(digit, b'0' | b'1') {
                return None;
            }
            value = (value << 1) | u64::from(*digit == b'1');
            count += 1;
        }
    }
    if count == 0 {
        None
    } else {
        Some((value, count))
    }
}

/// How a number is given.
#[derive(Clone, Copy)]
enum Digits<'t> {
    /// By its value.
    Value(u64),
    /// By its decimal digits.
    Decimal(&'t [u8]),
    /// By its hexadecimal digits.
    Hexadecimal(&'t [u8]),
}

/// A number of another language: its value, and how many bits it has.
#[derive(Clone, Copy)]
struct Number<'t> {
    value: Digits<'t>,
    width: Digits<'t>,
}

/// The number that binary digits give, if they are some.
fn binary(text: &[u8]) -> Option<Number<'_>> {
    match binary_value(word_front(text)) {
        None => None,
        Some((value, count)) => Some(Number {
            value: Digits::Value(value),
            width: Digits::Value(count),
        }),
    }
}

/// The number whose width stands before `'`, its base and its digits behind, if it is one.
fn sized<'t>(base: u8, text: &'t [u8], width: &'t [u8]) -> Option<Number<'t>> {
    if width.is_empty() {
        return None;
    }
    match digits_of(base, word_front(text)) {
        None => None,
        Some(value) => Some(Number {
            value,
            width: Digits::Decimal(width),
        }),
    }
}

/// What digits to this base give, if they are some.
fn digits_of(base: u8, digits: &[u8]) -> Option<Digits<'_>> {
    match base {
        b'h' | b'H' if !digits.is_empty() && digits.iter().all(|digit| digit.is_ascii_hexdigit()) =>
            { Some(Digits::Hexadecimal(digits)) }
        b'd' | b'D' if !digits.is_empty() && digits.iter().all(|digit| digit.is_ascii_digit()) => {
            Some(Digits::Decimal(digits))
        }
        b'b' | b'B' => match binary_value(digits) {
            None => None,
            Some((value, _)) => Some(Digits::Value(value)),
        },
        _ => None,
    }
}

/// And a number that is given so.
fn push_digits(what: Sentence, digits: Digits<'_>) -> Sentence {
    match digits {
        Digits::Value(value) => what.number(value),
        Digits::Decimal(digits) => what.text(digits),
        Digits::Hexadecimal(digits) => what.words("0x").text(digits),
    }
}

/// How a number is written, or the form of numbers where it is not known.
fn as_number(alloc: Global, place: usize, number: Option<Number<'_>>) -> Found {
    let what = Sentence::new(alloc);
    let what = match number {
        None => what.words("a number is its value, `:` and how many bits it has, as in `0xff:32`"),
        Some(number) => {
            let what = what.words("a number is its value, `:` and how many bits it has: write `");
            push_digits(push_digits(what, number.value).words(":"), number.width).words("`")
        }
    };
    Found {
        at: At::Place(place),
        what,
    }
}

/// Whether a byte may stand in a pattern.
fn is_pattern_byte(byte: u8) -> bool {
    match byte {
        b'0' | b'1' | b'.' | b'_' | b'a'..=b'z' => true,
        _ => false,
    }
}

/// What is wrong with the pattern that begins with these bytes, `"` first, at this place.
fn in_pattern(alloc: Global, place: usize, rest: &[u8]) -> Found {
    let inside = bytes_from(rest, 1);
    let front = match inside.iter().position(|byte| !is_pattern_byte(*byte)) {
        None => inside.len(),
        Some(at) => at,
    };
    let at = At::Place(place.saturating_add(1).saturating_add(front));
    let wrong = bytes_from(inside, front);
    match wrong {
        [] | [b'\n', ..] | [b'\r', ..] => plain(
            alloc,
            At::Place(place),
            "this pattern is not closed",
        ),
        [letter @ b'A'..=b'Z', ..] => Found {
            at,
            what: Sentence::new(alloc)
                .words("`")
                .text([*letter].as_slice())
                .words("` is no field: a field is a small letter, ")
                .name([letter.to_ascii_lowercase()].as_slice()),
        },
        [b' ' | b'\t', ..] => plain(
            alloc,
            at,
            "a blank cannot stand in a pattern: write `_`, or `\"` before it",
        ),
        _ => plain(
            alloc,
            at,
            "this cannot stand in a pattern, which has `0`, `1`, `.`, `_` and small letters",
        ),
    }
}
