//! What stands at the front of a text.
//!
//! The first byte says what begins there, and then the longest run of bytes that belong to it is
//! taken: a blank, a comment, a word, a number, a pattern or a sign. There is one function for each,
//! exact against its part of the definition. A word or a pattern makes at most one allocation, the
//! others none.

ghost use Rattle.std.specs.Prelude.{◌≡◌, ◌<◌, length, slice_index, filter, IfOk};
ghost use Rattle.pg_lang_token.specs.Words.{is_pattern_byte};
ghost use Rattle.pg_text.specs.Cutting.{IsCutDue, word_at, number_at, pattern_at, sign_at, sign_of_two, front};

use crate::classes::{inner_len, is_blank, len_before, sign_of_one, sign_of_two, word_len};
use crate::number::number_of;
use crate::place::TextFault;
use pg_lang_token::{NAME_BYTES, Sign, Tok, is_letter, is_pattern_byte};
use sqlite_items::Items;
use std::alloc::{AllocError, Global};

/// The bytes at the front of a text: how many, and the token that they make, if they make one.
#[derive(Drop)]
pub struct Piece {
    /// The token; `None` of a blank and of a comment.
    pub tok: Option<Tok>,
    /// How many bytes it takes, at least 1: for a word or a number the whole run of letters, digits and `_`, for a
    /// pattern its quotes too, for a comment all before its LF.
    pub len: usize,
}

/// Bytes that make no token.
fn skip(len: usize) -> Piece
    ensures tok { result.tok ≡ None }
    ensures len { result.len ≡ len }
{
    Piece { tok: None, len }
}

/// Bytes that make this token.
fn made(tok: Tok, len: usize) -> Piece
    ensures tok { result.tok ≡ Some tok }
    ensures len { result.len ≡ len }
{
    Piece {
        tok: Some(tok),
        len,
    }
}

/// The word at the front, where a letter stands first. `BadWord` where it has more than `NAME_BYTES` bytes.
#[tactic(auto, unfolding(crate::specs::Cutting::word_at))]
fn word(alloc: Global, text: &[u8], at: usize) -> Result<Piece, TextFault>
    ensures { IsCutDue result (word_at at text.now) }
{
    let len = word_len(text);
    if len > NAME_BYTES {
        return Err(TextFault::BadWord(at));
    }
    let bytes = Items::from_slice(alloc, &text[..len])?;
    Ok(made(Tok::Word(bytes), len))
}

/// The number at the front, where a digit stands first. `BadNumber` where the run of letters, digits
/// and `_` there is no number below 2^64.
#[tactic(auto, unfolding(crate::specs::Cutting::number_at))]
fn number(text: &[u8], at: usize) -> Result<Piece, TextFault>
    ensures { IsCutDue result (number_at at text.now) }
{
    let len = word_len(text);
    match number_of(&text[..len]) {
        Some(value) => Ok(made(Tok::Number(value), len)),
        None => Err(TextFault::BadNumber(at)),
    }
}

/// The pattern bytes among these, in their order.
fn pattern_bytes(alloc: Global, inner: &[u8]) -> Result<Items<u8>, AllocError>
    ensures { IfOk result (λ bytes. bytes ≡ filter is_pattern_byte inner.now) }
{
    let mut bytes = Vec::with_capacity(alloc, inner.len())?;
    for byte in inner {
        if is_pattern_byte(*byte) {
            bytes.push(*byte)?;
        }
    }
    Ok(Items::from_vec(bytes))
}

/// The pattern at the front, where a quote stands first. `BadPattern` where another byte, or the end,
/// comes before the closing quote.
#[tactic(auto, unfolding(crate::specs::Cutting::pattern_at))]
fn pattern(alloc: Global, text: &[u8], at: usize) -> Result<Piece, TextFault>
    requires { 0 < length text.now }
    ensures { IsCutDue result (pattern_at at text.now) }
{
    let inner = &text[1..];
    let len = inner_len(inner);
    if len == inner.len() || inner[len] != b'"' {
        return Err(TextFault::BadPattern(at));
    }
    let bytes = pattern_bytes(alloc, &inner[..len])?;
    Ok(made(Tok::Pattern(bytes), len + 2))
}

/// The sign that the first two bytes make, if there are two and they make one.
fn double_sign(text: &[u8]) -> Option<Sign>
    ensures { result ≡ sign_of_two (slice_index text.now 0) (slice_index text.now 1) }
{
    match text {
        [first, second, ..] => sign_of_two(*first, *second),
        _ => None,
    }
}

/// The sign at the front, of two bytes where they make one. `BadByte` where no sign begins there.
#[tactic(auto, unfolding(crate::specs::Cutting::sign_at))]
fn sign(text: &[u8], at: usize) -> Result<Piece, TextFault>
    requires { 0 < length text.now }
    ensures { IsCutDue result (sign_at at text.now) }
{
    if let Some(sign) = double_sign(text) {
        return Ok(made(Tok::Sign(sign), 2));
    }
    match sign_of_one(text[0]) {
        Some(sign) => Ok(made(Tok::Sign(sign), 1)),
        None => Err(TextFault::BadByte(at)),
    }
}

/// What stands at the front of a text that is not empty and begins at the place `at`.
#[tactic(auto, unfolding(crate::specs::Cutting::front))]
pub fn piece_at(alloc: Global, text: &[u8], at: usize) -> Result<Piece, TextFault>
    requires { 0 < length text.now }
    ensures { IsCutDue result (front at text.now) }
{
    let first = text[0];
    if is_blank(first) {
        Ok(skip(1))
    } else if first == b'#' {
        Ok(skip(len_before(text, b'\n')))
    } else if is_letter(first) {
        word(alloc, text, at)
    } else if first.is_ascii_digit() {
        number(text, at)
    } else if first == b'"' {
        pattern(alloc, text, at)
    } else {
        sign(text, at)
    }
}
