//! A file, part by part.

ghost use Rattle.std.specs.Prelude.{◌<◌, ◌≤◌, length, OnSome};

/// What is left of a file.
#[derive(Clone, Copy)]
pub struct Bytes<'a> {
    pub left: &'a [u8],
}

impl<'a> Bytes<'a> {
    /// The next byte.
    pub fn byte(&mut self) -> Option<u8>
        ensures shorter { OnSome result (length self.new.left.now < length self.old.left.now) }
        ensures rest { length self.new.left.now ≤ length self.old.left.now }
    {
        match self.left {
            [] => None,
            [first, rest @ ..] => {
                self.left = rest;
                Some(*first)
            }
        }
    }

    /// The next line, without its LF. The last one may have none.
    pub fn line(&mut self) -> Option<&'a [u8]>
        ensures shorter { OnSome result (length self.new.left.now < length self.old.left.now) }
    {
        if self.left.is_empty() {
            return None;
        }
        match self.left.iter().position(|byte| *byte == b'\n') {
            Some(end) if end < self.left.len() => {
                let (line, rest) = self.left.split_at(end);
                self.left = &rest[1..];
                Some(line)
            }
            _ => {
                let line = self.left;
                self.left = &[];
                Some(line)
            }
        }
    }
}
