//! The bytes of a refused file that are held, and their lines.

ghost use Rattle.std.specs.Prelude.{◌≤◌, length};

use pg_image::split_part;
use pg_out_place::{bytes_from, place_of_line};
use pg_text::len_before;

/// The bytes of a refused file, or a part of them, and what is known beside them.
#[derive(Clone, Copy)]
pub struct Held<'t> {
    /// The bytes: all of the file, or the last of it that was read, from the begin of a line on.
    pub bytes: &'t [u8],
    /// How many line feeds stand in the file before them: 0 where they are its front.
    pub feeds: u64,
    /// The description of the machine that the file is for, or no byte where it is not held.
    pub description: &'t [u8],
}

/// A line of the bytes that are held.
#[derive(Clone, Copy)]
pub struct HeldLine<'t> {
    /// The place of its first byte.
    pub start: usize,
    /// Its bytes, without LF.
    pub bytes: &'t [u8],
}

/// The line of this number, from 1, of the file, where all of its front is held.
pub fn line_of<'t>(held: &Held<'t>, line: u64) -> Option<HeldLine<'t>> {
    if line <= held.feeds {
        return None;
    }
    match place_of_line(held.bytes, line - held.feeds) {
        None => None,
        Some(start) => {
            let rest = bytes_from(held.bytes, start);
            Some(HeldLine {
                start,
                bytes: &rest[..len_before(rest, b'\n')],
            })
        }
    }
}

/// Where in a line its first part begins, or 0 where it has none.
pub fn part_offset(line: &[u8]) -> usize {
    match split_part(line) {
        None => 0,
        Some((part, behind)) => line
            .len()
            .saturating_sub(behind.len())
            .saturating_sub(part.len()),
    }
}

/// The first part of a line, or no byte.
pub fn first_part(line: &[u8]) -> &[u8] {
    match split_part(line) {
        None => &[],
        Some((part, _)) => part,
    }
}

/// What stands behind the first part of a line.
pub fn behind_part(line: &[u8]) -> &[u8]
    ensures { length result.now ≤ length line.now }
{
    match split_part(line) {
        None => &[],
        Some((_, behind)) => behind,
    }
}
