//! What to write in place of forms of other languages: bits of a value, and assignments to a name.

use crate::grammar::{ends_expression, last_instr};
use crate::near::Near;
use pg_lang_token::{Sign, is_reserved};
use pg_out_place::{Placed, Sentence, is_sign, is_word, number_of, pattern_of, word_of};
use std::alloc::Global;

/// Whether an instruction, of which these are the tokens up to some place, has a let of this name before that.
fn has_let(instr: &[Placed], name: &[u8]) -> bool {
    let mut is_given = false;
    for tok in instr {
        if is_given && is_word(tok, name) {
            return true;
        }
        is_given = is_word(tok, b"let");
    }
    false
}

/// Whether its pattern has a field of this name.
fn has_field(instr: &[Placed], name: &[u8]) -> bool {
    let [letter] = name else {
        return false;
    };
    instr.iter().any(|tok| match pattern_of(tok) {
        None => false,
        Some(pattern) => pattern.contains(letter),
    })
}

/// Which bits stand in brackets.
#[derive(Clone, Copy)]
struct Bits {
    high: u64,
    low: u64,
}

/// Whether two numbers with `:` between stand in the brackets whose first token is behind these.
fn is_range(behind: &[Placed]) -> bool {
    match behind {
        [_, colon, ..] => is_sign(colon, Sign::Colon),
        _ => false,
    }
}

/// Whether a name means something in an instruction, of which these are the tokens up to some place.
fn has_name(instr: &[Placed], name: &[u8]) -> bool {
    has_let(instr, name) || has_field(instr, name) || is_reserved(name)
}

/// The bits in brackets whose first is behind these tokens, where they are given by numbers.
fn bits_of(behind: &[Placed]) -> Option<Bits> {
    match behind {
        [high, colon, low, close, ..]
            if is_sign(colon, Sign::Colon) && is_sign(close, Sign::CloseBracket) => {
            match (number_of(high), number_of(low)) {
                (Some(high), Some(low)) => Some(Bits { high, low }),
                _ => None,
            }
        }
        [bit, close, ..] if is_sign(close, Sign::CloseBracket) => match number_of(bit) {
            None => None,
            Some(bit) => Some(Bits {
                high: bit,
                low: bit,
            }),
        },
        _ => None,
    }
}

/// That there are no registers.
const NO_REGISTERS: &str =
    "there are no registers and no arrays: a cell stands for each, as in `mem[cat(1:5, x)]`";

/// What to write for brackets behind a value, if the token is such a bracket.
pub fn bits_cut(alloc: Global, near: Near<'_>) -> Option<Sentence> {
    let [.., before] = near.before else {
        return None;
    };
    if !is_sign(near.here, Sign::OpenBracket) || !ends_expression(before) {
        return None;
    }
    let what = Sentence::new(alloc);
    let instr = last_instr(near.before);
    let value = match word_of(before) {
        None => b"..".as_slice(),
        Some(name) => {
            if !is_range(near.behind) && !has_name(instr, name) {
                return Some(what.words(NO_REGISTERS));
            }
            name
        }
    };
    let what = what
        .words("bits are cut out by `cut`: write `cut(")
        .text(value);
    let what = match bits_of(near.behind) {
        None => what.words(", HIGH, LOW)`"),
        Some(bits) => what
            .words(", ")
            .number(bits.high)
            .words(", ")
            .number(bits.low)
            .words(")`"),
    };
    Some(what)
}

/// Whether a statement may begin behind a token.
fn ends_statement(tok: &Placed) -> bool {
    is_sign(tok, Sign::OpenBrace) || is_sign(tok, Sign::CloseBrace) || is_sign(tok, Sign::Semicolon)
}

/// What to write for a name that begins a statement, if the token is one.
pub fn named(alloc: Global, near: Near<'_>) -> Option<Sentence> {
    let ([.., before], Some(name)) = (near.before, word_of(near.here)) else {
        return None;
    };
    let instr = last_instr(near.before);
    if !ends_statement(before) || instr.is_empty() || is_reserved(name) {
        return None;
    }
    let what = Sentence::new(alloc);
    let what = match near.behind {
        [next, ..] if is_sign(next, Sign::OpenBracket) => what.words(NO_REGISTERS),
        _ if has_let(instr, name) => what.name(name).words(
            " is a let, which has one value: give the new value a name of its own, `let NAME = ..;`",
        ),
        _ if has_field(instr, name) => what.name(name).words(
            " is a field, which is not assigned: give the value a name, `let NAME = ..;`",
        ),
        [next, ..] if is_sign(next, Sign::Equals) => what
            .words("`let` is due before a name that is given a value: write `let ")
            .text(name)
            .words(" = ..;`"),
        _ => what.words(
            "a statement begins with `let`, `mem[`, `pc`, `mode`, `rel`, `bound`, `trap` or `if`",
        ),
    };
    Some(what)
}
