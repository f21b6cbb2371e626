//! The lines of a saved text that no certificate has: the first one, and that of the steps.

ghost use Rattle.std.specs.Prelude.{◌≡◌, ◌≤◌, ◌==◌, ◌&&◌, bytes_eq, IfOk, IfSome};
ghost use Rattle.arrayvec.specs.ArrayVec.{array_vec_len};
ghost use Rattle.pg_cert.specs.Parsing.{is_decimal};
ghost use Rattle.pg_cert.specs.Reading.{last_byte};
ghost use Rattle.pg_move.specs.Texts.{first_text, steps_text, most_steps};
ghost use Rattle.pg_move.specs.Reading.{is_version, number_of_steps};

use crate::saved::MOST_STEPS;
use pg_cert::parts::Parts;
use pg_cert::reading::{but_last, is_same, number};
use pg_image::{Line, push};
use pg_text::{are_digits, dec};
use std::alloc::{AllocError, Global};

/// The first line.
pub(crate) fn first_line() -> &'static [u8]
    ensures { result.now ≡ first_text }
{
    b"pgguest 1\n"
}

/// The line that says how many steps were made.
#[tactic(auto, unfolding(crate::specs::Texts::steps_text))]
pub(crate) fn steps_line(steps: u32) -> Line
    ensures text { result.items ≡ steps_text steps }
    ensures len { array_vec_len result ≤ 17 }
{
    let mut line = Line::new();
    push(&mut line, b"steps ");
    push(&mut line, dec(u64::from(steps)).as_slice());
    line.push(b'\n');
    line
}

/// Whether these are the digits of a number, with no 0 before others.
fn is_decimal(digits: &[u8]) -> bool
    ensures { result ≡ is_decimal digits.now }
{
    match digits.split_first() {
        None => false,
        Some((first, rest)) => are_digits(digits) && (*first != b'0' || rest.is_empty()),
    }
}

/// Whether LF is the last byte.
fn ends_in_lf(bytes: &[u8]) -> bool
    ensures { result ≡ (last_byte bytes.now == 10) }
{
    if bytes.is_empty() {
        return false;
    }
    bytes[bytes.len() - 1] == b'\n'
}

/// Whether these bytes are the first line of a saved text of any version.
#[tactic(auto, unfolding(crate::specs::Reading::is_version))]
pub(crate) fn is_version(alloc: Global, bytes: &[u8]) -> Result<bool, AllocError>
    ensures { IfOk result (λ is. is ≡ is_version bytes.now) }
{
    let parts = Parts::cut(alloc, but_last(bytes))?;
    Ok(
        ends_in_lf(bytes)
            && parts.len() == 2
            && is_same(parts.part(0), b"pgguest")
            && is_decimal(parts.part(1)),
    )
}

/// The number that stands where that of the steps does, if one does.
pub(crate) fn number_of_steps(bytes: &[u8]) -> Option<u32>
    ensures number { result ≡ number_of_steps bytes.now }
    ensures within { IfSome result (λ n. n ≤ most_steps) }
{
    let body = but_last(bytes);
    number(MOST_STEPS, &body[body.len().min(6)..])
}

/// Whether bytes are the line that says how many steps were made.
pub(crate) fn are_steps(bytes: &[u8], steps: u32) -> bool
    ensures { result ≡ bytes_eq bytes.now (steps_text steps) }
{
    is_same(bytes, steps_line(steps).as_slice())
}
