//! What one line of an image says.
//!
//! A line has no part and says nothing, or its parts are an address and words and make a row, or it is of another form.
//! `scan` asks for the form alone, and `placing` puts the row. A row is not copied out: its words stay text, of which it is
//! known that each part is a word, and how many there are, so that they can be put as they are read. What digits are worth
//! is `pg_text`'s to know. No memory is taken.

ghost use Rattle.std.specs.Prelude.{◌≡◌, ◌%◌, ◌^◌, ◌<◌, ◌≤◌, length, IsTrue, if◌then◌else◌, Some, None};
ghost use Rattle.std.specs.List.{list_all};
ghost use Rattle.std.specs.Str.Parse.{digits_value};
ghost use Rattle.pg_image.specs.Images.{content, parts_of, is_address, address_digits, is_word};
ghost use Rattle.pg_image.specs.Forms.{IsForm};

use crate::cutting::{content, split_part};
use pg_text::{are_digits, are_hex_digits, dec_number, hex_word_of};

/// The row of a line, whose words are still text.
#[derive(Drop)]
pub struct RowText<'a> {
    /// The number of the first cell that it gives: at most 9,999,999, which may be past the size.
    pub first: usize,
    /// How many cells it gives: 1 or more, one for each part of `words`.
    pub count: usize,
    /// What stands behind the address, up to the comment or the end of the line: words, and what separates them.
    pub words: &'a [u8],
}

/// What a line says.
#[derive(Drop)]
pub enum Form<'a> {
    /// Nothing: it has no part.
    Blank,
    /// A row.
    Row(RowText<'a>),
    /// Its parts make no row.
    Other,
}

/// The most digits that an address has.
pub const ADDRESS_DIGITS: usize = 7;

/// Whether a part is an address: at least one decimal digit, at most `ADDRESS_DIGITS`, and a colon behind them.
#[tactic(auto, unfolding(crate::specs::Images::is_address))]
fn is_address(part: &[u8]) -> bool
    ensures { result ≡ is_address part.now }
{
    match part {
        [digits @ .., b':'] => !digits.is_empty()
            && digits.len() <= ADDRESS_DIGITS
            && are_digits(digits),
        _ => false,
    }
}

/// The number of an address.
fn address(part: &[u8]) -> usize
    requires { IsTrue (is_address part.now) }
    ensures { result ≡ digits_value 10 (address_digits part.now) }
{
    dec_number(&part[..part.len() - 1]).unwrap() as usize
}

/// Whether a part is a word of `w` bits: `w / 4` hexadecimal digits.
#[tactic(auto, unfolding(crate::specs::Images::is_word))]
fn is_word(w: u32, part: &[u8]) -> bool
    ensures { result ≡ is_word w part.now }
{
    part.len() == (w / 4) as usize && are_hex_digits(part)
}

/// The value of a word of `w` bits.
pub fn word(w: u32, part: &[u8]) -> u64
    requires bytes { w % 8 ≡ 0 }
    requires most { w ≤ 64 }
    requires word { IsTrue (is_word w part.now) }
    ensures value { result ≡ digits_value 16 part.now }
    ensures fits { result < 2 ^ w }
{
    hex_word_of(w, part).unwrap()
}

/// How many parts there are, where each of them is a word.
fn count_words(w: u32, text: &[u8]) -> Option<usize>
    ensures { result ≡ (if list_all (is_word w) (parts_of text.now) then Some (length (parts_of text.now)) else None) }
{
    let mut count = 0usize;
    let mut left = text;
    while let Some((part, rest)) = split_part(left) {
        if !is_word(w, part) {
            return None;
        }
        count += 1;
        left = rest;
    }
    Some(count)
}

/// What a line says.
pub fn form_of(w: u32, line: &[u8]) -> Form<'_>
    ensures { IsForm w (parts_of (content line.now)) result }
{
    match split_part(content(line)) {
        None => Form::Blank,
        Some((head, words)) => match count_words(w, words) {
            Some(count) if count > 0 && is_address(head) => Form::Row(RowText {
                first: address(head),
                count,
                words,
            }),
            _ => Form::Other,
        },
    }
}
