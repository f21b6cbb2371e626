//! Lists of strings.

use crate::value::{push_in_string, push_string};
use pg_out_place::Text;

/// Where a list of lines stands.
#[derive(Clone, Copy)]
enum Place {
    /// Before its first line.
    First,
    /// Behind a line.
    Behind,
    /// Inside a line.
    Inside,
}

/// Pushes the lines of a text, as a list of strings.
pub fn push_lines(text: &mut Text, lines: &[u8]) {
    text.push(b"[");
    let mut place = Place::First;
    for byte in lines {
        place = push_of_line(text, place, *byte);
    }
    text.push(match place {
        Place::Inside => b"\"]",
        Place::First | Place::Behind => b"]",
    })
}

/// Pushes a byte of a line, or ends the line.
fn push_of_line(text: &mut Text, place: Place, byte: u8) -> Place {
    text.push(match place {
        Place::First => b"\"",
        Place::Behind => b",\"",
        Place::Inside => b"",
    });
    if byte == b'\n' {
        text.push(b"\"");
        return Place::Behind;
    }
    push_in_string(text, byte);
    Place::Inside
}

/// Pushes a list of those names that are marked.
pub(crate) fn push_marked(text: &mut Text, names: &[(&[u8], bool)]) {
    text.push(b"[");
    let mut is_first = true;
    for (name, is_marked) in names {
        if *is_marked {
            text.push(if is_first { b"" } else { b"," });
            push_string(text, name);
            is_first = false;
        }
    }
    text.push(b"]");
}
