//! A line on a terminal that says how far a long command has come.
//!
//! It is written over each time, and erased before anything else is written. Where it is off, or once a write has failed, nothing is
//! written: a program puts it on where its writer is a terminal. No memory is taken. On a terminal that is narrower than the line, the
//! rest of it is not shown, and takes no second row: the terminal is told not to wrap, and to wrap again behind it.

ghost use Rattle.std.specs.Prelude.{◌≡◌, ◌+◌, ◌≤◌, ◌++◌, length, IsTrue, IsFalse, OnOk, OnErr};
ghost use Rattle.std.specs.Io.KnownBytes.{Appends};
ghost use Rattle.arrayvec.specs.ArrayVec.{array_vec_len};
ghost use Rattle.pg_io_host.specs.Streams.{AppendsFront};
ghost use Rattle.pg_io_host.specs.Telling.{progress_text, erase_text};

use crate::push::{front, push, push_shown};
use crate::streams::write_whole;
use arrayvec::ArrayVec;
use std::io::{ErrorKind, Write};

/// The most bytes of a line.
const LINE_BYTES: usize = 192;

/// The most bytes that are shown of a text: behind a program's name of three letters, 79 columns.
const SHOWN_BYTES: usize = 74;

/// The line, over the writer that it goes to.
#[derive(Drop)]
pub struct Progress<W: Write + Drop> {
    to: W,
    is_on: bool,
    is_shown: bool,
}

impl<W: Write + Drop> Progress<W> {
    /// A line that is written if it is on, of which nothing is shown yet.
    pub fn new(to: W, is_on: bool) -> Progress<W>
        ensures to { result.to ≡ to }
        ensures on { result.is_on ≡ is_on }
        ensures shown { IsFalse result.is_shown }
    {
        Progress {
            to,
            is_on,
            is_shown: false,
        }
    }

    /// The writer.
    pub fn writer(&self) -> &W
        ensures { result.now ≡ self.now.to }
    {
        &self.to
    }

    /// Writes the line `PROGRAM: TEXT` over the one that is shown. The program's name has at most 32 bytes; of the text 74 are shown,
    /// each control character as `?`. A write that fails puts the line off for good, with what it left.
    pub fn show(&mut self, program: &str, text: &[u8])
        requires program { length program.now ≤ 32 }
        ensures silent { IsFalse self.old.is_on → self.new ≡ self.old }
        ensures shown { IsTrue self.old.is_on → self.new.is_shown ≡ self.new.is_on }
        ensures whole { IsTrue self.new.is_on → Appends (W.contents self.old.to) (W.contents self.new.to) (progress_text program.now text.now) }
        ensures front { IsTrue self.old.is_on → IsFalse self.new.is_on → AppendsFront (W.contents self.old.to) (W.contents self.new.to)
            (progress_text program.now text.now) }
    {
        if self.is_on {
            let written = put_line(&mut self.to, program, text);
            self.is_on = written.is_ok();
            self.is_shown = self.is_on;
        }
    }

    /// Erases what is shown. A write that fails puts the line off.
    #[tactic(auto, unfolding(crate::specs::Telling::erase_text))]
    pub fn erase(&mut self)
        ensures silent { IsFalse self.old.is_shown → self.new ≡ self.old }
        ensures shown { IsFalse self.new.is_shown }
        ensures whole { IsTrue self.old.is_shown → IsTrue self.new.is_on
            → Appends (W.contents self.old.to) (W.contents self.new.to) erase_text }
        ensures front { IsTrue self.old.is_shown → IsFalse self.new.is_on → AppendsFront (W.contents self.old.to) (W.contents self.new.to) erase_text }
    {
        if self.is_shown {
            let written = write_whole(&mut self.to, b"\r\x1b[K");
            self.is_shown = false;
            self.is_on = written.is_ok();
        }
    }
}

/// Writes the line of a text, which is written over.
fn put_line<W: Write>(to: &mut W, program: &str, text: &[u8]) -> Result<(), ErrorKind>
    requires program { length program.now ≤ 32 }
    ensures whole { OnOk result (Appends (W.contents to.old) (W.contents to.new) (progress_text program.now text.now)) }
    ensures front { OnErr result (AppendsFront (W.contents to.old) (W.contents to.new) (progress_text program.now text.now)) }
{
    let mut line = ArrayVec::new();
    push_line(&mut line, program, text);
    write_whole(to, line.as_slice())
}

/// Pushes the line of a text into an empty one.
#[tactic(auto, unfolding(crate::specs::Telling::progress_text))]
fn push_line(line: &mut ArrayVec<u8, LINE_BYTES>, program: &str, text: &[u8])
    requires empty { array_vec_len line.old ≡ 0 }
    requires program { length program.now ≤ 32 }
    ensures { line.new.items ≡ line.old.items ++ progress_text program.now text.now }
{
    push(line, b"\r\x1b[?7l");
    push(line, program.as_bytes());
    push(line, b": ");
    push_shown(line, front(text, SHOWN_BYTES));
    push(line, b"\x1b[K\x1b[?7h");
}
