//! A line that is put together, part by part.

use crate::program::Program;
use pg_out_place::Text;
use std::alloc::{AllocError, Global};

/// The most characters that are shown of a word.
const SHOWN_CHARS: usize = 100;

/// A line, of which this is what stands there so far.
#[derive(Drop)]
pub struct Line {
    text: Text,
}

impl Line {
    /// A line that begins with a program's name.
    pub fn of(alloc: Global, program: Program) -> Line {
        let line = Line {
            text: Text::new(alloc),
        };
        line.words(program.name()).words(": ")
    }

    /// And these words.
    pub fn words(mut self, words: &str) -> Line {
        self.text.push(words.as_bytes());
        self
    }

    /// And a number, with a comma between each three digits.
    pub fn number(mut self, number: u64) -> Line {
        self.text.push_count(number);
        self
    }

    /// And a word as a shell takes it: as it is, or, where a shell would read it as something else, in quotes. A control character
    /// is shown as `?`.
    pub fn word(self, word: &str) -> Line {
        if is_plain(word.as_bytes()) {
            self.words(word)
        } else {
            self.quoted(word.as_bytes())
        }
    }

    /// And a word in quotes, as a shell takes it.
    fn quoted(mut self, word: &[u8]) -> Line {
        self.text.push(b"'");
        for byte in word {
            match *byte {
                b'\'' => self.text.push(b"'\\''"),
                byte => self
                    .text
                    .push(&[if byte.is_ascii_control() { b'?' } else { byte }]),
            }
        }
        self.text.push(b"'");
        self
    }

    /// And a word in quotes, each control character of it as `?`, and no more of it than a line holds.
    pub fn shown(mut self, word: &str) -> Line {
        self.text.push(b"'");
        for one in word.chars().take(SHOWN_CHARS) {
            let shown = if one.is_control() { '?' } else { one };
            self.text.push(shown.encode_utf8(&mut [0; 4]).as_bytes());
        }
        self.text.push(b"'");
        self
    }

    /// And its end: the whole line. An error is out of memory, for some part of it.
    pub fn end(mut self) -> Result<Vec<u8>, AllocError> {
        self.text.push(b"\n");
        self.text.finish()
    }
}

/// Whether a shell takes a word as it is, and no program takes it for an option.
fn is_plain(word: &[u8]) -> bool {
    match word {
        [] | [b'-', ..] => false,
        _ => word.iter().all(|byte| is_plain_byte(*byte)),
    }
}

/// Whether a byte means nothing to a shell.
fn is_plain_byte(byte: u8) -> bool {
    match byte {
        b'_' | b'.' | b'/' | b'+' | b',' | b'@' | b'%' | b'=' | b':' | b'-' => true,
        _ => byte.is_ascii_alphanumeric() || 0x80 <= byte,
    }
}
