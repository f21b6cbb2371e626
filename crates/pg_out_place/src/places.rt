//! Lines and columns.
//!
//! A place is a byte's, counted from 0; lines and columns are numbered from 1. `spot_at` finds the line of a place and cuts it
//! there, and `place_of_line` finds where the line of a number begins. Nothing here takes memory.

ghost use Rattle.std.specs.Prelude.{◌≡◌, ◌+◌, ◌≤◌, length, take, drop, IfSome};
ghost use Rattle.pg_out_place.specs.Places.{feeds, IsLineStart, chars};

use crate::chars::chars;

/// A place of a text: its line and column, and its line, cut there.
#[derive(Clone, Copy)]
pub struct Spot<'t> {
    /// The number of its line, from 1: one more than the line feeds before it.
    pub line: u64,
    /// Its column, from 1: one more than the characters before it in its line.
    pub column: u64,
    /// The bytes of its line that stand before it.
    pub before: &'t [u8],
    /// The bytes from it on, up to the end of its line, without LF or CR LF.
    pub behind: &'t [u8],
}

/// The bytes from a place on; none where it lies behind the end.
pub fn bytes_from(bytes: &[u8], place: usize) -> &[u8] {
    &bytes[place.min(bytes.len())..]
}

/// How many line feeds there are.
#[tactic(auto, unfolding(crate::specs::Places::feeds))]
fn feeds(text: &[u8]) -> usize
    ensures count { result ≡ feeds text.now }
    ensures most { result ≤ length text.now }
{
    let mut count = 0;
    for byte in text {
        if *byte == b'\n' {
            count += 1;
        }
    }
    count
}

/// Where the line of a place begins.
fn line_start(text: &[u8], place: usize) -> usize
    requires { place ≤ length text.now }
    ensures { IsLineStart text.now place result }
{
    let mut start = place;
    while start > 0 && text[start - 1] != b'\n' {
        start -= 1;
    }
    start
}

/// The front of a text up to the end of its first line, without LF or CR LF.
fn first_line(text: &[u8]) -> &[u8]
    ensures { length result.now ≤ length text.now }
{
    let line = match text.iter().position(|byte| *byte == b'\n') {
        None => text,
        Some(at) => &text[..at],
    };
    match line {
        [front @ .., b'\r'] => front,
        _ => line,
    }
}

/// The line and column of a place, which is the text's end where it lies behind it.
pub fn spot_at(text: &[u8], place: usize) -> Spot<'_>
    ensures line { result.line ≡ 1 + feeds (take place text.now) }
    ensures column { result.column ≡ 1 + chars result.before.now }
{
    let place = place.min(text.len());
    let start = line_start(text, place);
    let before = &text[start..place];
    Spot {
        line: feeds(&text[..place]) as u64 + 1,
        column: chars(before) as u64 + 1,
        before,
        behind: first_line(&text[place..]),
    }
}

/// Where the line of this number begins; `None` where the text has fewer lines. What stands behind the last LF is one.
#[tactic(auto, unfolding(crate::specs::Places::feeds))]
pub fn place_of_line(text: &[u8], line: u64) -> Option<usize>
    ensures within { IfSome result (λ place. place ≤ length text.now) }
    ensures line { IfSome result (λ place. 1 ≤ line → feeds (take place text.now) + 1 ≡ line) }
{
    if line <= 1 {
        return Some(0);
    }
    let mut left = line - 1;
    for (at, byte) in text.iter().enumerate() {
        if *byte == b'\n' {
            left -= 1;
            if left == 0 {
                return Some(at + 1);
            }
        }
    }
    None
}
