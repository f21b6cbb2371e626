//! Where names of a description stand.
//!
//! `find_twice` finds the name that is given a second time, and `find_unknown` the name that means nothing where it stands. Both walk over
//! the tokens once, and take no memory.

use crate::tokens::{Placed, is_sign, is_word, pattern_of, word_of};
use pg_lang_token::Sign;

/// The places of a name that is given twice.
#[derive(Clone, Copy)]
pub struct Twice {
    /// Where it stands first, or the pattern that has it as a field.
    pub first: usize,
    /// Where it is given again.
    pub second: usize,
}

/// A name behind the word that gives it.
#[derive(Clone, Copy, PartialEq, Eq)]
enum Giver {
    /// `instr`
    Instr,
    /// `let`
    Let,
    /// Any other token.
    Other,
}

/// What a token gives a name to, which stands behind it.
fn giver_of(tok: &Placed) -> Giver {
    if is_word(tok, b"instr") {
        Giver::Instr
    } else if is_word(tok, b"let") {
        Giver::Let
    } else {
        Giver::Other
    }
}

/// Whether a token is a pattern that has this name as a field.
fn is_field(tok: &Placed, name: &[u8]) -> bool {
    match (pattern_of(tok), name) {
        (Some(pattern), [letter]) => pattern.contains(letter),
        _ => false,
    }
}

/// The second instruction that has this name, and the first.
fn instr_twice(toks: &[Placed], name: &[u8]) -> Option<Twice> {
    let mut first = None;
    let mut before = Giver::Other;
    for tok in toks {
        if before == Giver::Instr && is_word(tok, name) {
            match first {
                None => first = Some(tok.1.from),
                Some(first) => {
                    return Some(Twice {
                        first,
                        second: tok.1.from,
                    });
                }
            }
        }
        before = giver_of(tok);
    }
    None
}

/// The let that gives this name again, and the field or the let of its instruction that has it.
fn let_twice(toks: &[Placed], name: &[u8]) -> Option<Twice> {
    let mut first = None;
    let mut before = Giver::Other;
    for tok in toks {
        if before == Giver::Let && is_word(tok, name) {
            match first {
                None => first = Some(tok.1.from),
                Some(first) => {
                    return Some(Twice {
                        first,
                        second: tok.1.from,
                    });
                }
            }
        }
        before = giver_of(tok);
        if before == Giver::Instr {
            first = None;
        } else if is_field(tok, name) {
            first = Some(tok.1.from);
        }
    }
    None
}

/// Where a name is given twice: two instructions have it, or else a let and an earlier let or a field of its instruction.
pub fn find_twice(toks: &[Placed], name: &[u8]) -> Option<Twice> {
    match instr_twice(toks, name) {
        Some(twice) => Some(twice),
        None => let_twice(toks, name),
    }
}

/// Where a name stands that means nothing there.
#[derive(Clone, Copy)]
pub struct Unknown {
    /// The place of the name.
    pub place: usize,
    /// Where the instruction has a let of this name, if it has one.
    pub given: Option<usize>,
}

/// Which blocks are open, and from which on the let of a name is visible.
#[derive(Clone, Copy)]
struct Sight {
    /// How many blocks are open.
    depth: u64,
    /// The depth of the block that the let is of, where it is visible.
    seen: Option<u64>,
    /// Whether its statement is not at an end.
    is_begun: bool,
}

impl Sight {
    /// What is seen behind a token.
    fn behind(self, tok: &Placed) -> Sight {
        if is_sign(tok, Sign::OpenBrace) {
            Sight {
                depth: self.depth.saturating_add(1),
                ..self
            }
        } else if is_sign(tok, Sign::CloseBrace) {
            self.closed()
        } else if is_sign(tok, Sign::Semicolon) && self.is_begun {
            Sight {
                seen: Some(self.depth),
                is_begun: false,
                ..self
            }
        } else {
            self
        }
    }

    /// What is seen behind the end of a block: nothing of its lets.
    fn closed(self) -> Sight {
        let depth = self.depth.saturating_sub(1);
        let seen = match self.seen {
            Some(of) if of <= depth => Some(of),
            _ => None,
        };
        Sight {
            depth,
            seen,
            is_begun: self.is_begun,
        }
    }
}

/// Where in the tokens of an instruction a name, which is none of its fields, stands and no let of it is visible.
fn first_unseen(instr: &[Placed], name: &[u8]) -> Option<usize> {
    let mut sight = Sight {
        depth: 0,
        seen: None,
        is_begun: false,
    };
    let mut before = Giver::Instr;
    for tok in instr {
        if is_word(tok, name) && before == Giver::Let {
            sight.is_begun = true;
        } else if is_word(tok, name) && before == Giver::Other && sight.seen.is_none() {
            return Some(tok.1.from);
        }
        sight = sight.behind(tok);
        before = giver_of(tok);
    }
    None
}

/// Where a let of this name stands in the tokens of an instruction.
fn let_place(instr: &[Placed], name: &[u8]) -> Option<usize> {
    let mut before = Giver::Other;
    for tok in instr {
        if before == Giver::Let && is_word(tok, name) {
            return Some(tok.1.from);
        }
        before = giver_of(tok);
    }
    None
}

/// Where in the tokens of an instruction a name, which is none of its fields, means nothing.
pub fn find_unknown(instr: &[Placed], name: &[u8]) -> Option<Unknown> {
    match first_unseen(instr, name) {
        None => None,
        Some(place) => Some(Unknown {
            place,
            given: let_place(instr, name),
        }),
    }
}
