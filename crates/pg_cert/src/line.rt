//! What one line of a certificate says.
//!
//! A line is a list of parts with one space between and LF behind the last, and has one spelling. `specs/Lines.antt` has
//! the spelling, and which lines there are.

use pg_proof::{HintList, Step};
use pg_type::Kind;
use pg_word::Psw;
use sqlite_items::Items;

/// What a certificate begins with: its family, and the version of its text.
#[derive(Clone, Copy, Debug, PartialEq, Eq)]
pub enum Heading {
    /// `pgcert 1`: the kinds of Theorem 1. No line takes clauses away.
    PlainOne,
    /// `pgcert 2`: the kinds of Theorem 1.
    PlainTwo,
    /// `pghybrid 1`: the kinds of Theorem 3.
    HybridOne,
}

/// What the header of a finding says of it.
#[derive(Clone, Copy, Debug, PartialEq, Eq)]
pub enum Found {
    /// `refuted`
    Refuted,
    /// `shown`
    Shown,
    /// `spent K`: so many steps, from 1 to 1,000,000.
    Spent(u32),
}

/// What a line says.
#[derive(Debug, Drop)]
pub enum Line {
    /// The first line.
    First(Heading),
    /// `finding NAME KIND` and what was found: of the instruction of this name, which is a word, and this kind.
    Header(Items<u8>, Kind, Found),
    /// `s LIT.. 0 HINT.. 0`: literals of variables below `2^31`, ascending by variable, and hints from 1 on.
    Step(Step),
    /// `d NUM.. 0`: one number or more, from 1 on and ascending.
    Remove(HintList),
    /// `size N`: how many cells, from 2 to the greatest size.
    Size(u32),
    /// `psw M P L B`: fields below `2^A`.
    Psw(Psw),
    /// `K: ` and words: the first cell, a multiple of 8, and from 1 to 8 words, not all zero.
    Cells(u32, Items<u64>),
    /// `end`
    End,
}
