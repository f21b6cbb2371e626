//! The words of the command line, and what is said where one is no text.

use crate::program::Program;
use pg_io_host::streams::write_whole;
use pg_out_place::Text;
use std::alloc::{AllocError, Global};
use std::io::{ErrorKind, Write};
use std::rt::Env;
use std::{env, str};

/// The most bytes of a word that is shown.
const SHOWN_BYTES: usize = 200;

/// The words, the program's name first. One that is not UTF-8 makes the line one without words, which no program takes.
pub fn words<R: Env + AllocGlobal>(rt: &R) -> Result<Vec<String>, AllocError> {
    match env::args(rt) {
        Ok(args) => args.collect(rt.alloc()),
        Err(error) if error.kind() == ErrorKind::OutOfMemory => Err(AllocError),
        Err(_) => Ok(Vec::new(rt.alloc())),
    }
}

/// Says of the first word that is not UTF-8 that it is none. Where memory is refused nothing is written.
pub fn say_no_text<R: Env + AllocGlobal, W: Write>(rt: &R, to: &mut W, program: Program) {
    if let Ok(line) = no_text_line(rt, program) {
        let _ = write_whole(to, line.as_slice());
    }
}

/// The line of it: `PROGRAM: this word is not UTF-8: WORD`, where it is short enough to be shown.
fn no_text_line<R: Env + AllocGlobal>(rt: &R, program: Program) -> Result<Vec<u8>, AllocError> {
    let mut line = Text::new(rt.alloc());
    line.push(program.name().as_bytes());
    let mut bytes = [0; SHOWN_BYTES];
    match no_text(rt, &mut bytes) {
        None => line.push(b": a word is not UTF-8"),
        Some(length) => {
            line.push(b": this word is not UTF-8: ");
            for byte in bytes.iter().take(length) {
                line.push(&[shown(*byte)]);
            }
        }
    }
    line.push(b"\n");
    line.finish()
}

/// How many bytes the first word has that is not UTF-8, which are put to the begin of the buffer; none where it has more than fit.
fn no_text<R: Env>(rt: &R, bytes: &mut [u8; SHOWN_BYTES]) -> Option<usize> {
    for place in 0..usize::MAX {
        let length = rt.arg(place, bytes).ok()?;
        if str::from_utf8(&bytes[..length]).is_err() {
            return Some(length);
        }
    }
    None
}

/// A byte of a word that is no text, as it is shown.
fn shown(byte: u8) -> u8 {
    if byte.is_ascii_graphic() || byte == b' ' {
        byte
    } else {
        b'?'
    }
}
