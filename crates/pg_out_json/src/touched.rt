//! What a body reads and sets of the mode and of the window.

use pg_lang_token::{Sign, Tok};
use pg_text::{TextFault, tokens};
use std::alloc::{AllocError, Global};

/// Some of the mode, the relocation and the bound.
#[derive(Clone, Copy, Default)]
pub(crate) struct Parts {
    pub mode: bool,
    pub rel: bool,
    pub bound: bool,
}

/// What a body does with them.
#[derive(Clone, Copy, Default)]
pub(crate) struct Touched {
    pub reads: Parts,
    pub writes: Parts,
}

impl Parts {
    /// These, and those of others.
    fn with(self, more: Parts) -> Parts {
        Parts {
            mode: self.mode || more.mode,
            rel: self.rel || more.rel,
            bound: self.bound || more.bound,
        }
    }
}

/// What a body does with the mode and the window, by its text. What is no text of a body does nothing.
pub(crate) fn touches_of(alloc: Global, body: &[u8]) -> Result<Touched, AllocError> {
    let list = match tokens(alloc, body) {
        Ok(list) => list,
        Err(TextFault::Memory) => return Err(AllocError),
        Err(_) => return Ok(Touched::default()),
    };
    let mut done = Touched::default();
    let mut before = Parts::default();
    for (tok, _) in list.as_slice() {
        if is_equals(tok) {
            done.writes = done.writes.with(before);
        } else {
            done.reads = done.reads.with(before);
        }
        before = parts_of(tok);
    }
    Ok(done)
}

/// Whether a token is the `=` behind what a statement sets.
fn is_equals(tok: &Tok) -> bool {
    matches!(tok, Tok::Sign(Sign::Equals))
}

/// Which of them a token names.
fn parts_of(tok: &Tok) -> Parts {
    match tok {
        Tok::Word(word) => part_of(word.as_slice()),
        Tok::Number(_) | Tok::Pattern(_) | Tok::Sign(_) => Parts::default(),
    }
}

/// Which of them a word is.
fn part_of(word: &[u8]) -> Parts {
    let mut part = Parts::default();
    match word {
        b"mode" => part.mode = true,
        b"rel" => part.rel = true,
        b"bound" => part.bound = true,
        _ => {}
    }
    part
}
