//! The parts of a line.
//!
//! A line is cut at each space. What stands between two is a part, also where it is empty.

ghost use Rattle.std.specs.Prelude.{◌≡◌, ◌==◌, [], length, map, slice_index_or, IfOk};
ghost use Rattle.std.specs.List.{slice_split};

use std::alloc::{AllocError, Global};
use std::marker::Model;

/// What stands between the spaces of a line.
fn pieces(alloc: Global, line: &[u8]) -> Result<Vec<&[u8]>, AllocError>
    ensures { IfOk result (λ pieces. map (λ p. p.now) pieces.items ≡ slice_split (λ c. c == 32) line.now) }
{
    line.split(|byte| *byte == b' ').collect(alloc)
}

/// The parts of a line, in order.
#[derive(Debug, Drop)]
pub struct Parts<'a> {
    parts: Vec<&'a [u8]>,
}

impl<'a> Model for Parts<'a> {
    ghost use Rattle.std.specs.Prelude.{ℕ, List, map};

    ghost Value = { List (List ℕ) };

    ghost view = { λ s. map (λ p. p.now) s.parts.items };
}

impl<'a> Parts<'a> {
    /// The parts of a line.
    pub fn cut(alloc: Global, line: &'a [u8]) -> Result<Parts<'a>, AllocError>
        ensures { IfOk result (λ parts. parts ≡ slice_split (λ c. c == 32) line.now) }
    {
        Ok(Parts {
            parts: pieces(alloc, line)?,
        })
    }

    /// How many there are: one at least.
    pub fn len(&self) -> usize
        ensures { result ≡ length self.now }
    {
        self.parts.len()
    }

    /// The part at a place, or nothing behind the last one.
    pub fn part(&self, at: usize) -> &[u8]
        ensures { result.now ≡ slice_index_or self.now at [] }
    {
        if at < self.parts.len() {
            self.parts[at]
        } else {
            &[]
        }
    }
}
