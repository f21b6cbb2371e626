//! Standard output and the line of progress, which may lie on one terminal.
//!
//! Both reach the line through a cell: who watches (`watching`) writes it, and standard output erases it before it writes, so that no
//! text stands behind it. Nothing is said of what reaches the terminal; `Progress` says it of its writer.

use arrayvec::ArrayVec;
use pg_io_host::Progress;
use std::cell::RefCell;
use std::io;
use std::io::{ErrorKind, Write};

/// The most bytes that are kept of what was written: more than the line of an open question has.
const LAST_BYTES: usize = 64;

/// A writer that erases the line before it writes, and keeps the error of the last write that failed, and the last
/// bytes of the last that did not.
#[derive(Drop)]
pub struct Beside<'a, O: Write + Drop, E: Write + Drop> {
    to: O,
    line: &'a RefCell<Progress<E>>,
    failed: Option<ErrorKind>,
    /// The last bytes of the last piece.
    last: ArrayVec<u8, LAST_BYTES>,
}

impl<'a, O: Write + Drop, E: Write + Drop> Beside<'a, O, E> {
    /// One that writes to `to`.
    pub fn new(to: O, line: &'a RefCell<Progress<E>>) -> Beside<'a, O, E> {
        Beside {
            to,
            line,
            failed: None,
            last: ArrayVec::new(),
        }
    }

    /// The error of the last write that failed.
    pub fn failed(&self) -> Option<ErrorKind> {
        self.failed
    }

    /// The last bytes of the last piece that was written: at most 64.
    pub fn last(&self) -> &[u8] {
        self.last.as_slice()
    }

    /// Keeps the last bytes of a piece.
    fn keep(&mut self, piece: &[u8]) {
        self.last.clear();
        let front = piece.len().saturating_sub(LAST_BYTES);
        let _ = self.last.try_extend_from_slice(&piece[front..]);
    }
}

impl<O: Write + Drop, E: Write + Drop> Write for Beside<'_, O, E> {
    fn write(&mut self, buf: &[u8]) -> io::Result<usize> {
        clear(self.line);
        let answer = self.to.write(buf);
        match &answer {
            Ok(_) => self.keep(buf),
            Err(error) => self.failed = Some(error.kind()),
        }
        answer
    }

    fn flush(&mut self) -> io::Result<()> {
        self.to.flush()
    }
}

/// Erases the line, where it is shown.
pub fn clear<E: Write + Drop>(line: &RefCell<Progress<E>>) {
    if let Ok(mut line) = line.try_borrow_mut() {
        line.erase();
    }
}
