//! What one line of a source says.
//!
//! A line has no part, or is a place, a label, a word or an instruction; or it has none of these forms. Nothing is copied out:
//! what a line names stays text, of which it is known that it is a name, and the operands of an instruction stay text, of
//! which it is known that each part is one. No memory is taken.

ghost use Rattle.std.specs.Prelude.{◌≡◌, ◌==◌, ◌%◌, ◌<◌, ◌≤◌, ◌^◌, ◌∷◌, length, is_some, bytes_eq, codes, IfSome};
ghost use Rattle.std.specs.Option.{option_copied};
ghost use Rattle.pg_image.specs.Images.{content, parts_of};
ghost use Rattle.pg_asm.specs.Said.{value_said, begins_operand, operand_said, operands_said, place_said, label_said, mark_said, word_said, said_of};
ghost use Rattle.pg_asm.specs.Lines.{IsLineOf};

use pg_image::{content, split_part};
use pg_lang_token::is_name;
use pg_text::{dec_number, hex_word_of};

/// An instruction, whose operands are still text.
#[derive(Drop)]
pub struct InstrText<'a> {
    /// Its name.
    pub name: &'a [u8],
    /// What stands behind the name, up to the comment or the end of the line: parts `f=V`, and what separates them.
    pub operands: &'a [u8],
}

/// What a line says.
#[derive(Drop)]
pub enum Line<'a> {
    /// Nothing: it has no part.
    Blank,
    /// The place of the next word: at most 9,999,999, which may be past the size.
    At(usize),
    /// A label for the place that is reached.
    Label(&'a [u8]),
    /// A word.
    Word(u64),
    /// An instruction.
    Instr(InstrText<'a>),
}

/// The most digits of a place.
pub const PLACE_DIGITS: usize = 7;

/// Whether a text is a value: decimal digits of a number below 2^64, or a name.
fn is_value(text: &[u8]) -> bool
    ensures { result ≡ is_some (value_said text.now) }
{
    dec_number(text).is_some() || is_name(text)
}

/// Whether a part begins with a letter from `a` to `z` and `=`.
fn begins_operand(part: &[u8]) -> bool
    ensures { result ≡ begins_operand part.now }
{
    part.len() >= 2 && part[0].is_ascii_lowercase() && part[1] == b'='
}

/// Whether a part is `f=V`.
fn is_operand(part: &[u8]) -> bool
    ensures { result ≡ is_some (operand_said part.now) }
{
    begins_operand(part) && is_value(&part[2..])
}

/// Whether each part is `f=V`.
#[tactic(auto, unfolding(crate::specs::Said::operands_said))]
fn are_operands(text: &[u8]) -> bool
    ensures { result ≡ is_some (operands_said (parts_of text.now)) }
{
    let mut left = text;
    while let Some((part, rest)) = split_part(left) {
        if !is_operand(part) {
            return false;
        }
        left = rest;
    }
    true
}

/// Whether a text has no part.
fn is_blank(text: &[u8]) -> bool
    ensures { result ≡ (length (parts_of text.now) == 0) }
{
    split_part(text).is_none()
}

/// The number of from 1 to `PLACE_DIGITS` decimal digits.
fn place_of(digits: &[u8]) -> Option<usize>
    ensures value { result ≡ place_said digits.now }
    ensures few { IfSome result (λ n. n < 10 ^ 7) }
{
    if digits.len() > PLACE_DIGITS {
        return None;
    }
    match dec_number(digits) {
        Some(n) => Some(n as usize),
        None => None,
    }
}

/// The name of a label: all before the colon at the end.
fn label_of(part: &[u8]) -> Option<&[u8]>
    ensures { option_copied result ≡ label_said part.now }
{
    match part {
        [name @ .., b':'] => { if is_name(name) { Some(name) } else { None } }
        _ => None,
    }
}

/// A line of one part, which is no name: a place or a label.
fn mark_line(w: u32, part: &[u8]) -> Option<Line<'_>>
    ensures { IsLineOf w (mark_said part.now) result }
{
    match part {
        [b'@', digits @ ..] => match place_of(digits) {
            Some(n) => Some(Line::At(n)),
            None => None,
        },
        _ => match label_of(part) {
            Some(name) => Some(Line::Label(name)),
            None => None,
        },
    }
}

/// A line that begins with `word`: what stands behind it is one part, a word.
fn word_line(w: u32, behind: &[u8]) -> Option<Line<'_>>
    requires bytes { w % 8 ≡ 0 }
    requires most { w ≤ 64 }
    ensures { IsLineOf w (word_said w (parts_of behind.now)) result }
{
    match split_part(behind) {
        None => None,
        Some((part, rest)) => {
            if !is_blank(rest) {
                return None;
            }
            match hex_word_of(w, part) {
                Some(word) => Some(Line::Word(word)),
                None => None,
            }
        }
    }
}

/// What a line says whose first part is `head`, before this text.
fn line_behind<'a>(w: u32, head: &'a [u8], behind: &'a [u8]) -> Option<Line<'a>>
    requires bytes { w % 8 ≡ 0 }
    requires most { w ≤ 64 }
    ensures { IsLineOf w (said_of w (head.now ∷ parts_of behind.now)) result }
{
    if is_word_mark(head) {
        word_line(w, behind)
    } else if is_name(head) {
        if are_operands(behind) {
            Some(Line::Instr(InstrText {
                name: head,
                operands: behind,
            }))
        } else {
            None
        }
    } else if is_blank(behind) {
        mark_line(w, head)
    } else {
        None
    }
}

/// Whether a part is `word`.
fn is_word_mark(part: &[u8]) -> bool
    ensures { result ≡ bytes_eq part.now (codes "word") }
{
    part == b"word".as_slice()
}

/// What a line says, for words of `w` bits. `None` where it has none of the forms of lines.
pub fn line_of(w: u32, line: &[u8]) -> Option<Line<'_>>
    requires bytes { w % 8 ≡ 0 }
    requires most { w ≤ 64 }
    ensures { IsLineOf w (said_of w (parts_of (content line.now))) result }
{
    match split_part(content(line)) {
        None => Some(Line::Blank),
        Some((head, behind)) => line_behind(w, head, behind),
    }
}
