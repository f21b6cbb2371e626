//! Which bytes make what.
//!
//! Tests of one byte, how many bytes of a kind stand at the front, and the signs: what `piece` asks of
//! the text before it. The classes of first bytes do not meet, so the order in which it asks says
//! nothing; but of signs it asks for two bytes before one, since `=` and `<` begin longer ones. What a
//! word byte and a pattern byte are is defined below, beside the tokens, since a tree's names and
//! patterns rest on it too. Nothing here refuses or allocates.

ghost use Rattle.std.specs.Prelude.{◌≡◌, ◌≤◌, length, not, ◌==◌};
ghost use Rattle.std.specs.List.{prefix_len};
ghost use Rattle.pg_lang_token.specs.Words.{is_word_byte};
ghost use Rattle.pg_text.specs.Cutting.{is_blank, is_inner, sign_of_one, sign_of_two};

use pg_lang_token::{Sign, is_pattern_byte, is_word_byte};

/// What separates tokens: space, tab, CR or LF.
pub fn is_blank(byte: u8) -> bool
    ensures { result ≡ is_blank byte }
{
    byte == b' ' || byte == b'\t' || byte == b'\r' || byte == b'\n'
}

/// What may stand between the quotes of a pattern.
fn is_inner(byte: u8) -> bool
    ensures { result ≡ is_inner byte }
{
    is_pattern_byte(byte) || byte == b'_'
}

/// How many letters, digits and `_` stand at the front.
pub fn word_len(text: &[u8]) -> usize
    ensures len { result ≡ prefix_len is_word_byte text.now }
    ensures within { result ≤ length text.now }
{
    let mut n = 0;
    while n < text.len() && is_word_byte(text[n]) {
        n += 1;
    }
    n
}

/// How many bytes that may stand in a pattern are at the front.
pub fn inner_len(text: &[u8]) -> usize
    ensures len { result ≡ prefix_len is_inner text.now }
    ensures within { result ≤ length text.now }
{
    let mut n = 0;
    while n < text.len() && is_inner(text[n]) {
        n += 1;
    }
    n
}

/// How many bytes stand before the first one that is this byte, or in all.
pub fn len_before(text: &[u8], byte: u8) -> usize
    ensures len { result ≡ prefix_len (λ c. not (c == byte)) text.now }
    ensures within { result ≤ length text.now }
{
    let mut n = 0;
    while n < text.len() && text[n] != byte {
        n += 1;
    }
    n
}

/// The sign that two bytes make, if they make one.
pub fn sign_of_two(first: u8, second: u8) -> Option<Sign>
    ensures { result ≡ sign_of_two first second }
{
    match (first, second) {
        (b'=', b'=') => Some(Sign::DoubleEquals),
        (b'<', b'<') => Some(Sign::DoubleLess),
        (b'>', b'>') => Some(Sign::DoubleGreater),
        _ => None,
    }
}

/// The sign that one byte makes, if it makes one.
pub fn sign_of_one(byte: u8) -> Option<Sign>
    ensures { result ≡ sign_of_one byte }
{
    match byte {
        b'{' => Some(Sign::OpenBrace),
        b'}' => Some(Sign::CloseBrace),
        b'(' => Some(Sign::OpenParen),
        b')' => Some(Sign::CloseParen),
        b'[' => Some(Sign::OpenBracket),
        b']' => Some(Sign::CloseBracket),
        b';' => Some(Sign::Semicolon),
        b',' => Some(Sign::Comma),
        b':' => Some(Sign::Colon),
        b'=' => Some(Sign::Equals),
        b'~' => Some(Sign::Tilde),
        b'+' => Some(Sign::Plus),
        b'-' => Some(Sign::Minus),
        b'*' => Some(Sign::Star),
        b'&' => Some(Sign::Ampersand),
        b'|' => Some(Sign::Bar),
        b'^' => Some(Sign::Caret),
        b'<' => Some(Sign::LessThan),
        _ => None,
    }
}
