//! A text that stands in memory.
//!
//! `pg_tool` puts a printed description so. Unlike the other texts it may be of any length, and it is not copied: the bytes
//! go out as they stand, each line with its LF as one `put`, and what stands behind the last LF as one more.

ghost use Rattle.std.specs.Prelude.{◌≡◌, ◌<◌, ◌++◌, length};
ghost use Rattle.pg_edge.specs.Sink.{Puts};

use pg_edge::{Failed, Sink};

/// Puts a text, a line a put. The cost is linear in its bytes.
///
/// # Errors
/// `Failed` where not all of the text went through. A front of it may have.
pub fn put_text<S: Sink>(out: &mut S, text: &[u8]) -> Result<(), Failed>
    ensures { Puts (S.written out.old) (S.written out.new) (S.faults out.old) (S.faults out.new)
        text.now result }
{
    let mut rest = text;
    while !rest.is_empty() {
        let (line, behind) = split_line(rest);
        out.put(line)?;
        rest = behind;
    }
    Ok(())
}

/// The first line of a text, with its LF where it has one, and what stands behind it.
fn split_line(text: &[u8]) -> (&[u8], &[u8])
    requires { 0 < length text.now }
    ensures whole { result.0.now ++ result.1.now ≡ text.now }
    ensures shorter { length result.1.now < length text.now }
{
    match text.iter().position(|byte| *byte == b'\n') {
        None => text.split_at(text.len()),
        Some(at) => text.split_at(at + 1),
    }
}
