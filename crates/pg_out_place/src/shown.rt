//! A line, and the caret below it.
//!
//! A line of at most `MOST` characters is shown whole. Of a longer one at most `BEFORE` characters before the place are shown,
//! and with those from it on `MOST`; `...` stands for what is cut off. A control character, and a byte that is of no character,
//! is shown as `?`, and a tab as a tab, in the line of the caret too, so that the caret stands below the place. Each error is
//! out of memory.

ghost use Rattle.std.specs.Prelude.{IsTrue};
ghost use Rattle.pg_out_place.specs.Shown.{is_shown};

use crate::chars::{behind_chars, chars, split_char};
use crate::places::Spot;
use std::alloc::{AllocError, Global};

/// The most characters of a line that are shown.
const MOST: usize = 100;

/// The most characters before the place, where a line is cut.
const BEFORE: usize = 60;

/// A line as it is shown, and the line below it.
#[derive(Drop)]
pub struct Shown {
    /// The line: no byte of it is a control character but tabs.
    pub line: Vec<u8>,
    /// Blanks and tabs, and `^` below the place.
    pub caret: Vec<u8>,
}

/// The byte that is shown for a character: itself where it is one of ASCII that can be, else `?`.
fn shown_byte(byte: u8) -> u8
    ensures { IsTrue (is_shown result) }
{
    if byte.is_ascii_graphic() || byte == b' ' || byte == b'\t' {
        byte
    } else {
        b'?'
    }
}

/// Pushes a character of several bytes; those from U+0080 to U+009F are control characters, and shown as `?`.
fn push_wide(line: &mut Vec<u8>, character: &[u8]) -> Result<(), AllocError> {
    match character {
        [0xc2, 0x80..=0x9f] => line.push(b'?')?,
        _ => line.extend_from_slice(character)?,
    }
    Ok(())
}

/// Pushes a character as it is shown.
fn push_char(line: &mut Vec<u8>, character: &[u8]) -> Result<(), AllocError> {
    match character {
        [byte] => line.push(shown_byte(*byte))?,
        _ => push_wide(line, character)?,
    }
    Ok(())
}

/// Pushes at most so many characters as they are shown, and `...` where there are more.
fn push_shown(line: &mut Vec<u8>, text: &[u8], most: usize) -> Result<(), AllocError> {
    let mut left = text;
    for _ in 0..most {
        if left.is_empty() {
            return Ok(());
        }
        let (character, behind) = split_char(left);
        push_char(line, character)?;
        left = behind;
    }
    if left.is_empty() {
        Ok(())
    } else {
        line.extend_from_slice(b"...")
    }
}

/// What stands below a character: a tab below a tab, else a blank.
fn blank_for(character: &[u8]) -> u8
    ensures { IsTrue (is_shown result) }
{
    match character {
        [b'\t'] => b'\t',
        _ => b' ',
    }
}

/// Pushes a blank for each character, and a tab for a tab.
fn push_blanks(caret: &mut Vec<u8>, text: &[u8]) -> Result<(), AllocError> {
    let mut left = text;
    for _ in 0..text.len() {
        if left.is_empty() {
            return Ok(());
        }
        let (character, behind) = split_char(left);
        caret.push(blank_for(character))?;
        left = behind;
    }
    Ok(())
}

/// How many characters are cut off at the front, where so many stand before the place and so many from it on.
fn cut_off(before: usize, behind: usize) -> usize {
    if before.saturating_add(behind) <= MOST {
        0
    } else {
        before.saturating_sub(BEFORE)
    }
}

/// The line of a place as it is shown, and the caret below the place.
pub fn show(alloc: Global, spot: &Spot<'_>) -> Result<Shown, AllocError> {
    let before = chars(spot.before);
    let off = cut_off(before, chars(spot.behind));
    let front = behind_chars(spot.before, off);
    let mut line = Vec::new(alloc);
    let mut caret = Vec::new(alloc);
    if off > 0 {
        line.extend_from_slice(b"...")?;
        caret.extend_from_slice(b"   ")?;
    }
    push_shown(&mut line, front, MOST)?;
    push_blanks(&mut caret, front)?;
    push_shown(
        &mut line,
        spot.behind,
        MOST.saturating_sub(before.saturating_sub(off)),
    )?;
    caret.push(b'^')?;
    Ok(Shown { line, caret })
}
