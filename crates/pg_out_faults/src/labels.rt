//! Labels of a source, looked for in its lines.

use crate::held::{behind_part, first_part};
use pg_image::content;
use pg_out_place::is_near;
use pg_text::dec_number;

/// The cell of the first word.
const FIRST_PLACE: u64 = 2;

/// The name of the label that a line gives, which has a line to itself.
pub fn label_of(line: &[u8]) -> Option<&[u8]> {
    let line = content(line);
    match first_part(line) {
        [name @ .., b':'] if first_part(behind_part(line)).is_empty() => Some(name),
        _ => None,
    }
}

/// Whether a line gives this label.
fn gives(line: &[u8], name: &[u8]) -> bool {
    match label_of(line) {
        None => false,
        Some(given) => given == name,
    }
}

/// The number of the first line, from 1, that gives a label.
pub fn first_line_of(bytes: &[u8], name: &[u8]) -> Option<u64> {
    let mut number: u64 = 1;
    for line in bytes.split(|byte| *byte == b'\n') {
        if gives(line, name) {
            return Some(number);
        }
        number = number.saturating_add(1);
    }
    None
}

/// The first label that a line gives and that is near to this name.
pub fn near_label<'t>(bytes: &'t [u8], name: &[u8]) -> Option<&'t [u8]> {
    for line in bytes.split(|byte| *byte == b'\n') {
        if let Some(given) = label_of(line) {
            if is_near(given, name) {
                return Some(given);
            }
        }
    }
    None
}

/// The place of the word behind a line, where that of the next word before it is this.
fn place_behind(line: &[u8], place: u64) -> u64 {
    match first_part(content(line)) {
        [] | [.., b':'] => place,
        [b'@', digits @ ..] => match dec_number(digits) {
            None => place,
            Some(at) => at,
        },
        _ => place.saturating_add(1),
    }
}

/// The cell that a label stands for, where a line gives it.
pub fn place_of_label(bytes: &[u8], name: &[u8]) -> Option<u64> {
    let mut place = FIRST_PLACE;
    for line in bytes.split(|byte| *byte == b'\n') {
        if gives(line, name) {
            return Some(place);
        }
        place = place_behind(line, place);
    }
    None
}
