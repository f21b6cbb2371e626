//! What is wrong with words that are refused, on standard error.

use pg_cli_parse::complaint;
use pg_cli_says::Program;
use pg_cli_version::VERSION;
use pg_io_host::streams::write_whole;
use std::alloc::{AllocError, Global};
use std::io::Write;

/// The most characters that are shown of what is wrong with the words.
const SHOWN_CHARS: usize = 200;

/// Where the manual is.
const MANUAL: &[u8] = b"pgv: the manual is the page pgv(1), docs/pgv.1\n";

/// Writes what refused words ask for, where it is the version or the manual, and else what is wrong with them, in the words of
/// `clap`. Where memory is refused nothing is written.
pub fn say_complaint<W: Write>(alloc: Global, to: &mut W, words: &[String]) {
    match asked(words) {
        Some(line) => {
            let _ = write_whole(to, line);
        }
        None => say_fault(alloc, to, words),
    }
}

/// The line that words ask for behind the program's name, if they do: the version, or where the manual is.
fn asked(words: &[String]) -> Option<&'static [u8]> {
    match words {
        [_, word] => match word.as_bytes() {
            b"--version" | b"-V" => Some(VERSION),
            b"--help" | b"-h" | b"help" => Some(MANUAL),
            _ => None,
        },
        _ => None,
    }
}

/// Writes what is wrong with words that were refused.
fn say_fault<W: Write>(alloc: Global, to: &mut W, words: &[String]) {
    if let Ok(Some(line)) = complaint_line(alloc, words) {
        let _ = write_whole(to, line.as_slice());
    }
}

/// The line of it: `PROGRAM: WHAT`, with `?` for each control character, and cut where it is long.
fn complaint_line(alloc: Global, words: &[String]) -> Result<Option<Vec<u8>>, AllocError> {
    let Some(said) = complaint(alloc, words)? else {
        return Ok(None);
    };
    let mut line = Vec::new(alloc);
    line.extend_from_slice(Program::Pgv.name().as_bytes())?;
    line.extend_from_slice(b": ")?;
    for one in said.chars().take(SHOWN_CHARS) {
        let shown = if one.is_control() { '?' } else { one };
        line.extend_from_slice(shown.encode_utf8(&mut [0; 4]).as_bytes())?;
    }
    line.push(b'\n')?;
    Ok(Some(line))
}
