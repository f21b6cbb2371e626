//! A sentence that says what is wrong.
//!
//! It is made piece by piece, by value, so that a sentence is one expression where it is told. A byte of a name that may not be
//! shown is `?`.

use crate::text::Text;
use std::alloc::{AllocError, Global};

/// What is said so far.
#[derive(Drop)]
pub struct Sentence {
    text: Text,
}

impl Sentence {
    /// Nothing.
    pub fn new(alloc: Global) -> Sentence {
        Sentence {
            text: Text::new(alloc),
        }
    }

    /// What is said. An error is out of memory, for some piece of it.
    pub fn finish(self) -> Result<Vec<u8>, AllocError> {
        self.text.finish()
    }

    /// And these words.
    pub fn words(mut self, words: &str) -> Sentence {
        self.text.push(words.as_bytes());
        self
    }

    /// And a number, in decimal digits.
    pub fn number(mut self, number: u64) -> Sentence {
        self.text.push_number(number);
        self
    }

    /// And these bytes, `?` for each that is no letter, digit, sign or blank.
    pub fn text(mut self, text: &[u8]) -> Sentence {
        for byte in text {
            let is_shown = byte.is_ascii_graphic() || *byte == b' ';
            self.text.push(&[if is_shown { *byte } else { b'?' }]);
        }
        self
    }

    /// And a name of letters, digits and `_`, between backticks.
    pub fn name(self, name: &[u8]) -> Sentence {
        self.words("`").text(name).words("`")
    }
}
