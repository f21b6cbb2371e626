//! A wrong token, and what stands around it.

use pg_lang_token::Sign;
use pg_out_place::{Placed, is_sign, is_word};

/// A token, those before it and those behind it.
#[derive(Clone, Copy)]
pub struct Near<'t> {
    /// The tokens before it.
    pub before: &'t [Placed],
    /// The token.
    pub here: &'t Placed,
    /// The tokens behind it.
    pub behind: &'t [Placed],
}

/// The token at a place, and those around it.
pub fn near_of(toks: &[Placed], place: usize) -> Option<Near<'_>> {
    match toks.iter().position(|tok| tok.1.from == place) {
        None => None,
        Some(at) => Some(Near {
            before: &toks[..at],
            here: &toks[at],
            behind: &toks[at + 1..],
        }),
    }
}

/// The place of the brace that opens what the last tokens are of, a body or the head, where it is not closed.
pub fn opened(toks: &[Placed]) -> Option<usize> {
    let mut first = None;
    let mut depth: u64 = 0;
    for tok in toks {
        if is_word(tok, b"instr") {
            (first, depth) = (None, 0);
        } else if is_sign(tok, Sign::OpenBrace) {
            if depth == 0 {
                first = Some(tok.1.from);
            }
            depth = depth.saturating_add(1);
        } else if is_sign(tok, Sign::CloseBrace) {
            depth = depth.saturating_sub(1);
        }
    }
    if depth == 0 { None } else { first }
}
