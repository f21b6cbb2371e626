//! Characters of a text in UTF-8.
//!
//! A column counts characters. A byte that begins none is one by itself, so that every text has its characters, whatever its
//! bytes are. Nothing here takes memory.

ghost use Rattle.std.specs.Prelude.{◌≡◌, ◌<◌, ◌≤◌, ◌++◌, length, drop, slice_index};
ghost use Rattle.pg_out_place.specs.Places.{is_tail, is_two, is_three, is_four, char_len, chars};

/// The byte at a place, or 0 behind the end.
fn byte_at(text: &[u8], place: usize) -> u8
    ensures { result ≡ slice_index text.now place }
{
    if place < text.len() { text[place] } else { 0 }
}

/// A byte behind the first one of a character.
fn is_tail(byte: u8) -> bool
    ensures { result ≡ is_tail byte }
{
    128 <= byte && byte < 192
}

/// Whether these are a character of two bytes.
fn is_two(a: u8, b: u8) -> bool
    ensures { result ≡ is_two a b }
{
    194 <= a && a < 224 && is_tail(b)
}

/// Whether these are a character of three bytes.
fn is_three(a: u8, b: u8, c: u8) -> bool
    ensures { result ≡ is_three a b c }
{
    224 <= a
        && a < 240
        && is_tail(b)
        && is_tail(c)
        && !(a == 224 && b < 160)
        && !(a == 237 && 160 <= b)
}

/// Whether these are a character of four bytes.
fn is_four(a: u8, b: u8, c: u8, d: u8) -> bool
    ensures { result ≡ is_four a b c d }
{
    240 <= a
        && a < 245
        && is_tail(b)
        && is_tail(c)
        && is_tail(d)
        && !(a == 240 && b < 144)
        && !(a == 244 && 144 <= b)
}

/// How many bytes the character at the front has: 1 to 4, and 1 where none begins there.
#[tactic(auto, unfolding(crate::specs::Places::char_len))]
fn char_len(text: &[u8]) -> usize
    ensures len { result ≡ char_len text.now }
    ensures least { 1 ≤ result }
    ensures most { result ≤ 4 }
{
    let a = byte_at(text, 0);
    let b = byte_at(text, 1);
    let c = byte_at(text, 2);
    let d = byte_at(text, 3);
    if is_two(a, b) {
        2
    } else if is_three(a, b, c) {
        3
    } else if is_four(a, b, c, d) {
        4
    } else {
        1
    }
}

/// How many bytes the character at a place has.
fn char_len_at(text: &[u8], at: usize) -> usize
    requires { at ≤ length text.now }
    ensures len { result ≡ char_len (drop at text.now) }
    ensures least { 1 ≤ result }
    ensures most { result ≤ 4 }
{
    char_len(&text[at..])
}

/// How many characters a text has.
#[tactic(auto, unfolding(crate::specs::Places::chars_behind))]
pub fn chars(text: &[u8]) -> usize
    ensures count { result ≡ chars text.now }
    ensures most { result ≤ length text.now }
{
    let mut count = 0;
    let mut due = 0;
    for at in 0..text.len() {
        if due == 0 {
            count += 1;
            due = char_len_at(text, at) - 1;
        } else {
            due -= 1;
        }
    }
    count
}

/// The character at the front, and what stands behind it.
pub fn split_char(text: &[u8]) -> (&[u8], &[u8])
    requires { 0 < length text.now }
    ensures whole { result.0.now ++ result.1.now ≡ text.now }
    ensures some { 0 < length result.0.now }
    ensures most { length result.0.now ≤ 4 }
    ensures shorter { length result.1.now < length text.now }
{
    text.split_at(char_len(text).min(text.len()))
}

/// What stands behind so many characters.
pub fn behind_chars(text: &[u8], count: usize) -> &[u8]
    ensures { length result.now ≤ length text.now }
{
    let mut left = text;
    for _ in 0..count {
        if left.is_empty() {
            return left;
        }
        left = split_char(left).1;
    }
    left
}
