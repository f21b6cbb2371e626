//! The tokens of a description, looked at one by one.
//!
//! What is told of a description is found in its tokens, with their places, and not in its tree, which has none. Whatever the
//! tokens are, each answer is safe to ask for; where they are those of a description, it is the part that is named. Nothing
//! here takes memory.

ghost use Rattle.std.specs.Prelude.{◌<◌, ◌≤◌, length, IfSome};

use pg_lang_token::{Sign, Tok};
use pg_text::Span;

/// A token and its place.
pub type Placed = (Tok, Span);

/// The bytes of a token, where it is a word.
pub fn word_of(tok: &Placed) -> Option<&[u8]> {
    match &tok.0 {
        Tok::Word(bytes) => Some(bytes.as_slice()),
        _ => None,
    }
}

/// Whether a token is this word.
pub fn is_word(tok: &Placed, word: &[u8]) -> bool {
    match word_of(tok) {
        None => false,
        Some(found) => found == word,
    }
}

/// Whether a token is this sign.
pub fn is_sign(tok: &Placed, sign: Sign) -> bool {
    match tok.0 {
        Tok::Sign(found) => found == sign,
        _ => false,
    }
}

/// The pattern of a token, where it is one.
pub fn pattern_of(tok: &Placed) -> Option<&[u8]> {
    match &tok.0 {
        Tok::Pattern(bytes) => Some(bytes.as_slice()),
        _ => None,
    }
}

/// The value of a token, where it is a number.
pub fn number_of(tok: &Placed) -> Option<u64> {
    match tok.0 {
        Tok::Number(value) => Some(value),
        _ => None,
    }
}

/// Where this word stands for the time of this number, counted from 0.
pub fn nth_word(toks: &[Placed], word: &[u8], number: usize) -> Option<usize>
    ensures { IfSome result (λ at. at < length toks.now) }
{
    let mut left = number;
    for (at, tok) in toks.iter().enumerate() {
        if is_word(tok, word) {
            if left == 0 {
                return Some(at);
            }
            left -= 1;
        }
    }
    None
}

/// How often this word stands there.
pub fn count_word(toks: &[Placed], word: &[u8]) -> u64 {
    let mut count: u64 = 0;
    for tok in toks {
        if is_word(tok, word) {
            count = count.saturating_add(1);
        }
    }
    count
}

/// The tokens of the instruction of this number, counted from 0: its name, its pattern, and its body in braces.
pub fn instruction(toks: &[Placed], number: usize) -> Option<&[Placed]>
    ensures { IfSome result (λ found. length found.now ≤ length toks.now) }
{
    let rest = match nth_word(toks, b"instr", number) {
        None => return None,
        Some(at) => &toks[at + 1..],
    };
    match nth_word(rest, b"instr", 0) {
        None => Some(rest),
        Some(to) => Some(&rest[..to]),
    }
}

/// Whether a statement may begin behind this token.
pub fn ends_statement(tok: &Placed) -> bool {
    match tok.0 {
        Tok::Sign(Sign::OpenBrace) | Tok::Sign(Sign::Semicolon) | Tok::Sign(Sign::CloseBrace) =>
            true,
        _ => false,
    }
}

/// Whether a statement begins with this token, behind one that ends another.
pub fn begins_statement(tok: &Placed) -> bool {
    match word_of(tok) {
        None => false,
        Some(word) => word != b"else".as_slice(),
    }
}

/// The tokens of an instruction from its statement of this number on, counted from 0.
pub fn statement(instr: &[Placed], number: usize) -> Option<&[Placed]>
    ensures { IfSome result (λ found. length found.now ≤ length instr.now) }
{
    let mut left = number;
    let mut may_begin = false;
    for (at, tok) in instr.iter().enumerate() {
        if may_begin && begins_statement(tok) {
            if left == 0 {
                return Some(&instr[at..]);
            }
            left -= 1;
        }
        may_begin = ends_statement(tok);
    }
    None
}

/// How many statements an instruction has.
pub fn count_statements(instr: &[Placed]) -> u64 {
    let mut count: u64 = 0;
    let mut may_begin = false;
    for tok in instr {
        if may_begin && begins_statement(tok) {
            count = count.saturating_add(1);
        }
        may_begin = ends_statement(tok);
    }
    count
}

/// The place of the first token, if there is one.
pub fn first_place(toks: &[Placed]) -> Option<usize> {
    match toks.first() {
        None => None,
        Some(tok) => Some(tok.1.from),
    }
}
