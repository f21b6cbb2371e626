//! Whether a text has the form of an image.
//!
//! Two readings of the whole text, line by line, since what they look for comes before anything else that may be wrong:
//! first a byte that may not stand where it does, then a line that is neither blank nor a row.

ghost use Rattle.std.specs.Prelude.{◌≡◌, ◌<◌, ◌≤◌, length, not, position, IfSome, MatchBool};
ghost use Rattle.std.specs.Option.{option_map};
ghost use Rattle.std.specs.Result.{result_err};
ghost use Rattle.pg_image.specs.declared.fault.ImageFault.TheVariants.{Grammar};
ghost use Rattle.pg_image.specs.Images.{most_image_bytes, content, may_stand, lines_of, parts_of, foreign_place, rows_from};
ghost use Rattle.pg_image.specs.Forms.{MakeNone, AddNoFault};

use crate::cutting::{content, is_gap, split_line};
use crate::row::{Form, form_of};

/// What may stand in a line outside its comment.
fn may_stand(byte: u8) -> bool
    ensures { result ≡ may_stand byte }
{
    byte.is_ascii_hexdigit() || byte == b':' || is_gap(byte)
}

/// The place in a line of the first byte outside its comment that may not stand there.
fn foreign_in(line: &[u8]) -> Option<usize>
    ensures value { result ≡ position (λ c. not (may_stand c)) (content line.now) }
    ensures within { IfSome result (λ k. k < length line.now) }
{
    content(line).iter().position(|byte| !may_stand(*byte))
}

/// The place in a text of the first byte outside comments that may not stand there.
pub fn foreign_place(bytes: &[u8]) -> Option<usize>
    requires { length bytes.now ≤ most_image_bytes }
    ensures { result ≡ foreign_place 0 (lines_of bytes.now) }
{
    let mut place = 0usize;
    let mut left = Some(bytes);
    while let Some(text) = left {
        let (line, rest) = split_line(text);
        if let Some(k) = foreign_in(line) {
            return Some(place + k);
        }
        place += line.len() + 1;
        left = rest;
    }
    None
}

/// Whether a line has parts and is no row.
fn is_other(w: u32, line: &[u8]) -> bool
    ensures { MatchBool result (MakeNone w (parts_of (content line.now))) (AddNoFault w (parts_of (content line.now))) }
{
    match form_of(w, line) {
        Form::Other => true,
        Form::Blank => false,
        Form::Row(_) => false,
    }
}

/// The number of the first line that has parts and is no row, counted from 1.
pub fn other_line(w: u32, bytes: &[u8]) -> Option<usize>
    requires { length bytes.now ≤ most_image_bytes }
    ensures { result_err (rows_from w 1 (lines_of bytes.now)) ≡ option_map (λ n. Grammar n) result }
{
    let mut n = 1usize;
    let mut left = Some(bytes);
    while let Some(text) = left {
        let (line, rest) = split_line(text);
        if is_other(w, line) {
            return Some(n);
        }
        n += 1;
        left = rest;
    }
    None
}
