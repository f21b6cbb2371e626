//! A text that is put together piece by piece.

use pg_text::dec;
use std::alloc::{AllocError, Global};

/// A text so far. A piece for which there is no memory is left out, and `whole` and `finish` say so: who makes a text asks once, at its
/// end.
#[derive(Drop)]
pub struct Text {
    bytes: Vec<u8>,
    /// Whether there was memory for each piece.
    is_whole: bool,
}

impl Text {
    /// No byte.
    pub fn new(alloc: Global) -> Text {
        Text {
            bytes: Vec::new(alloc),
            is_whole: true,
        }
    }

    /// No byte, and room for so many if there is memory for it.
    pub fn with_room(alloc: Global, room: usize) -> Text {
        let bytes = match Vec::with_capacity(alloc, room) {
            Ok(made) => made,
            Err(_) => Vec::new(alloc),
        };
        Text {
            bytes,
            is_whole: true,
        }
    }

    /// Pushes bytes.
    pub fn push(&mut self, bytes: &[u8]) {
        self.is_whole &= self.bytes.extend_from_slice(bytes).is_ok();
    }

    /// Pushes a number, as decimal digits.
    pub fn push_number(&mut self, number: u64) {
        self.push(dec(number).as_slice());
    }

    /// Pushes a number, as decimal digits with a comma between each three.
    pub fn push_count(&mut self, number: u64) {
        let digits = dec(number);
        let digits = digits.as_slice();
        for (at, digit) in digits.iter().enumerate() {
            if at > 0 && digits.len().saturating_sub(at) % 3 == 0 {
                self.push(b",");
            }
            self.push(&[*digit]);
        }
    }

    /// How many bytes there are.
    pub fn len(&self) -> usize {
        self.bytes.len()
    }

    /// Whether there is none.
    pub fn is_empty(&self) -> bool {
        self.bytes.is_empty()
    }

    /// Begins anew, with the room that there is.
    pub fn clear(&mut self) {
        self.bytes.clear();
        self.is_whole = true;
    }

    /// The bytes of the whole text. An error is out of memory, for some piece of it.
    pub fn whole(&self) -> Result<&[u8], AllocError> {
        if self.is_whole {
            Ok(self.bytes.as_slice())
        } else {
            Err(AllocError)
        }
    }

    /// The bytes of the whole text. An error is out of memory, for some piece of it.
    pub fn finish(self) -> Result<Vec<u8>, AllocError> {
        if self.is_whole {
            Ok(self.bytes)
        } else {
            Err(AllocError)
        }
    }
}
