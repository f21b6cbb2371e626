//! A line of a certificate, read from its bytes.

ghost use Rattle.std.specs.Prelude.{◌≡◌, ◌&&◌, ◌==◌, bytes_eq, IfOk};
ghost use Rattle.std.specs.List.{list_any};
ghost use Rattle.pg_word.specs.Shape.{IsShape};
ghost use Rattle.pg_cert.specs.Lines.{is_line, line_text};
ghost use Rattle.pg_cert.specs.Reading.{last_byte};
ghost use Rattle.pg_cert.specs.Parsing.{is_foreign, before_end, parts_of, is_decimal, family_word, is_first, said_of_no_line, said, IsAnswer};
ghost use Rattle.pg_cert.specs.declared.parse.LineFault.TheVariants.{Memory};

use crate::cert::Family;
use crate::line::Line;
use crate::parts::Parts;
use crate::put::put_line;
use crate::ranges::is_line;
use crate::reading::{but_last, is_same, line_of};
use pg_text::are_digits;
use pg_word::Shape;
use std::alloc::{AllocError, Global};
use thiserror::Error;

/// Why bytes are no line of a certificate, or out of memory.
#[derive(Clone, Copy, Debug, PartialEq, Eq, Error)]
pub enum LineFault {
    /// A byte before the LF is none of those from hexadecimal 20 to 7e.
    #[error("a byte is foreign")]
    Token,
    /// They are not the one spelling of a line whose numbers are in range, with its LF.
    #[error("this is no line")]
    Grammar,
    /// They are the first line of a certificate of this family, of a version that is unknown.
    #[error("the version is unknown")]
    Version(Family),
    /// Memory ran out. It says nothing of the bytes.
    #[error("out of memory")]
    Memory,
}

impl From<AllocError> for LineFault {
    ghost from_gives = { λ _ fault. fault ≡ Memory };

    fn from(_error: AllocError) -> LineFault {
        LineFault::Memory
    }
}

/// Whether no line has a byte, but for the LF at its end.
fn is_foreign(byte: u8) -> bool
    ensures { result ≡ is_foreign byte }
{
    !(b' '..=b'~').contains(&byte)
}

/// Whether LF is the last byte.
fn ends_in_lf(bytes: &[u8]) -> bool
    ensures { result ≡ (last_byte bytes.now == 10) }
{
    if bytes.is_empty() {
        return false;
    }
    bytes[bytes.len() - 1] == b'\n'
}

/// Bytes but for the LF at their end, if there is one.
fn before_end(bytes: &[u8]) -> &[u8]
    ensures { result.now ≡ before_end bytes.now }
{
    if ends_in_lf(bytes) {
        return but_last(bytes);
    }
    bytes
}

/// Whether one of these bytes is foreign.
fn has_foreign(bytes: &[u8]) -> bool
    ensures { result ≡ list_any is_foreign bytes.now }
{
    bytes.iter().any(|byte| is_foreign(*byte))
}

/// Whether these are the digits of a number, with no 0 before others.
fn is_decimal(bytes: &[u8]) -> bool
    ensures { result ≡ is_decimal bytes.now }
{
    match bytes.split_first() {
        None => false,
        Some((first, rest)) => are_digits(bytes) && (*first != b'0' || rest.is_empty()),
    }
}

/// The word that the certificates of a family begin with.
fn family_word(family: Family) -> &'static [u8]
    ensures { result.now ≡ family_word family }
{
    match family {
        Family::Plain => b"pgcert",
        Family::Hybrid => b"pghybrid",
    }
}

/// Whether these bytes begin a certificate of a family, of any version.
#[tactic(auto, unfolding(crate::specs::Parsing::is_first))]
fn is_first(family: Family, bytes: &[u8], parts: &Parts<'_>) -> bool
    requires { parts.now ≡ parts_of bytes.now }
    ensures { result ≡ is_first family bytes.now }
{
    ends_in_lf(bytes)
        && parts.len() == 2
        && is_same(parts.part(0), family_word(family))
        && is_decimal(parts.part(1))
}

/// Why bytes without a foreign one that are no line are refused.
fn fault_of(bytes: &[u8], parts: &Parts<'_>) -> LineFault
    requires { parts.now ≡ parts_of bytes.now }
    ensures { IsAnswer (said_of_no_line bytes.now) (Err result) }
{
    if is_first(Family::Plain, bytes, parts) {
        return LineFault::Version(Family::Plain);
    }
    if is_first(Family::Hybrid, bytes, parts) {
        return LineFault::Version(Family::Hybrid);
    }
    LineFault::Grammar
}

/// Whether a line is in range and these bytes are its text.
fn is_spelled(alloc: Global, shape: &Shape, line: &Line, bytes: &[u8]) -> Result<bool, AllocError>
    requires { IsShape shape.now }
    ensures { IfOk result (λ is. is ≡ (is_line shape.now line.now && bytes_eq bytes.now (line_text shape.now line.now))) }
{
    if !is_line(shape, line) {
        return Ok(false);
    }
    let mut text = Vec::new(alloc);
    put_line(shape, line, &mut text)?;
    Ok(is_same(bytes, text.as_slice()))
}

/// The line that bytes say, with its LF, for a machine of this shape.
///
/// It is linear in the bytes, and takes memory only for parts, for the line, and for its text, which is compared: a line has
/// one spelling. `Token` comes where a byte before the LF is foreign; else `Version` where they begin a certificate of a
/// version that is unknown; else `Grammar` where they are no line in range; and `Memory` where memory ran out.
#[tactic(auto, unfolding(crate::specs::Parsing::said))]
pub fn parse_line(alloc: Global, shape: &Shape, bytes: &[u8]) -> Result<Line, LineFault>
    requires { IsShape shape.now }
    ensures { IsAnswer (said shape.now bytes.now) result }
{
    if has_foreign(before_end(bytes)) {
        return Err(LineFault::Token);
    }
    let parts = Parts::cut(alloc, but_last(bytes))?;
    match line_of(alloc, shape.w, &parts)? {
        None => Err(fault_of(bytes, &parts)),
        Some(line) => {
            if is_spelled(alloc, shape, &line, bytes)? {
                return Ok(line);
            }
            Err(fault_of(bytes, &parts))
        }
    }
}
