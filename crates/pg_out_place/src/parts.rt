//! Where the expressions of a statement stand in its tokens.
//!
//! Expressions of a statement are numbered from 0 in the order of the text, each before its parts. Whatever the tokens are, each
//! answer is safe to ask for. Nothing here takes memory.

ghost use Rattle.std.specs.Prelude.{◌≤◌, length, IfSome};

use crate::tokens::{Placed, is_sign, is_word, word_of};
use pg_lang_token::{Sign, Tok};

/// Whether a word has its operands in parentheses behind it.
fn takes_operands(tok: &Placed) -> bool {
    match word_of(tok) {
        Some(b"cat" | b"cut" | b"ext" | b"sext" | b"sel") => true,
        _ => false,
    }
}

/// Whether an expression begins with a token, behind one token and before another.
fn begins_expression(before: &Placed, tok: &Placed, behind: &Placed) -> bool {
    match tok.0 {
        Tok::Number(_) => is_sign(behind, Sign::Colon),
        Tok::Word(_) => !is_word(before, b"let"),
        Tok::Sign(Sign::Tilde) => true,
        Tok::Sign(Sign::OpenParen) => !takes_operands(before),
        _ => false,
    }
}

/// Whether an expression of a statement begins with a token. Its first word is none, and what ends a text neither.
fn is_part(before: Option<&Placed>, tok: &Placed, behind: Option<&Placed>) -> bool {
    match (before, behind) {
        (Some(before), Some(behind)) => begins_expression(before, tok, behind),
        _ => false,
    }
}

/// The tokens of a statement from its expression of this number on.
pub fn expression(stmt: &[Placed], number: u64) -> Option<&[Placed]>
    ensures { IfSome result (λ found. length found.now ≤ length stmt.now) }
{
    let mut left = number;
    let mut before: Option<&Placed> = None;
    for (at, tok) in stmt.iter().enumerate() {
        if is_part(before, tok, stmt.get(at.saturating_add(1))) {
            if left == 0 {
                return Some(&stmt[at..]);
            }
            left -= 1;
        }
        before = Some(tok);
    }
    None
}

/// The sign of an operation, if a token is one.
pub fn operation(tok: &Placed) -> Option<Sign> {
    match tok.0 {
        Tok::Sign(
            sign @ (Sign::Plus
            | Sign::Minus
            | Sign::Star
            | Sign::Ampersand
            | Sign::Bar
            | Sign::Caret
            | Sign::DoubleEquals
            | Sign::LessThan
            | Sign::DoubleLess
            | Sign::DoubleGreater),
        ) => Some(sign),
        _ => None,
    }
}

/// Whether a token opens a parenthesis or a bracket.
fn opens(tok: &Placed) -> bool {
    is_sign(tok, Sign::OpenParen) || is_sign(tok, Sign::OpenBracket)
}

/// Whether a token closes one.
fn closes(tok: &Placed) -> bool {
    is_sign(tok, Sign::CloseParen) || is_sign(tok, Sign::CloseBracket)
}

/// The token of the sign between the two sides of an operation, whose parenthesis is the first token.
pub fn operator(expr: &[Placed]) -> Option<&Placed> {
    let mut depth: u64 = 0;
    for tok in expr {
        if depth == 1 && operation(tok).is_some() {
            return Some(tok);
        }
        if opens(tok) {
            depth = depth.saturating_add(1);
        } else if closes(tok) {
            depth = depth.saturating_sub(1);
        }
    }
    None
}
