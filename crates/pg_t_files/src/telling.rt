//! What is said on standard error: the line of a refused call, and the line of progress, over a writer in memory.

use pg_edge::Shelf;
use pg_io_host::telling::{note, tell, tell_refused};
use pg_io_host::{Cause, Deed, DirShelf, Progress, Refused};
use std::io;
use std::io::{ErrorKind, Write};
use std::test::Fail;

/// A writer that takes three bytes a call, and fails where it was told to.
#[derive(Drop)]
struct Paper {
    taken: Vec<u8>,
    calls: u8,
    fails_at: u8,
}

impl Write for Paper {
    fn write(&mut self, buf: &[u8]) -> io::Result<usize> {
        self.calls = self.calls.saturating_add(1);
        if self.calls == self.fails_at {
            return Err(io::Error::from(ErrorKind::BrokenPipe));
        }
        let count = buf.len().min(3);
        self.taken.extend_from_slice(&buf[..count])?;
        Ok(count)
    }

    fn flush(&mut self) -> io::Result<()> {
        Ok(())
    }
}

/// A writer that fails at the call of this number, if it is not 0.
fn blank_paper(rt: &impl AllocGlobal, fails_at: u8) -> Paper {
    Paper {
        taken: Vec::new(rt.alloc()),
        calls: 0,
        fails_at,
    }
}

/// Refusals, and the lines that say them.
const SAID: [(Deed, Cause, &str, &str); 6] = [
    (
        Deed::Read,
        Cause::Missing,
        "a.isa",
        "pgv: a.isa: no such file\n",
    ),
    (Deed::Size, Cause::Missing, "", "pgv: : no such file\n"),
    (
        Deed::Read,
        Cause::System(ErrorKind::PermissionDenied),
        "a\nb\x7fc",
        "pgv: a?b?c: cannot be read: permission denied\n",
    ),
    (
        Deed::Size,
        Cause::System(ErrorKind::IsADirectory),
        "d",
        "pgv: d: cannot be read: is a directory\n",
    ),
    (
        Deed::Save,
        Cause::System(ErrorKind::NotFound),
        "d/é",
        "pgv: d/é: cannot be written: no such file or directory\n",
    ),
    (
        Deed::Save,
        Cause::System(ErrorKind::Uncategorized),
        "c",
        "pgv: c: cannot be written: input/output error\n",
    ),
];

#[test]
fn refusals_are_said(rt: HostRuntime) -> Result<(), Fail> {
    for (deed, cause, name, want) in SAID {
        let mut to = blank_paper(&rt, 0);
        let said = tell_refused(&mut to, "pgv", &Refused::new(deed, cause, name));
        assert!(rt; said.is_ok());
        assert!(rt; to.taken.as_slice() == want.as_bytes(), "{want}");
    }
    let mut to = blank_paper(&rt, 2);
    assert!(rt; tell(&mut to, "pgv", "out of memory") == Err(ErrorKind::BrokenPipe));
    assert!(rt; to.taken.as_slice() == b"pgv".as_slice());
    Ok(())
}

#[test]
fn the_last_refusal_is_kept(rt: HostRuntime) -> Result<(), Fail> {
    let mut shelf = DirShelf::new(&rt);
    let mut into = Vec::new(rt.alloc());
    assert!(rt; shelf.refused().is_none());
    let _ = shelf.save("none/below", b"x");
    let _ = shelf.load("none", 9, &mut into);
    let _ = shelf.save("kept", b"xy");
    let mut more = Vec::new(rt.alloc());
    let _ = shelf.load("kept", 1, &mut more);
    let mut to = blank_paper(&rt, 0);
    if let Some(refused) = shelf.refused() {
        assert!(rt; refused.deed() == Deed::Read && refused.cause() == Cause::Missing);
        assert!(rt; refused.name() == b"none".as_slice() && !refused.is_cut());
        let _ = tell_refused(&mut to, "pgv", refused);
    }
    assert!(rt; to.taken.as_slice() == b"pgv: none: no such file\n".as_slice());
    std::fs::remove_file(&rt, "kept")?;
    Ok(())
}

#[test]
fn progress_is_written_over(rt: HostRuntime) -> Result<(), Fail> {
    let mut line = Progress::new(blank_paper(&rt, 0), true);
    line.erase();
    line.show("pgv", b"add mode");
    line.show("pgv", b"r\x1bt bound");
    line.erase();
    line.erase();
    let want =
        "\r\x1b[?7lpgv: add mode\x1b[K\x1b[?7h\r\x1b[?7lpgv: r?t bound\x1b[K\x1b[?7h\r\x1b[K";
    assert!(rt; line.writer().taken.as_slice() == want.as_bytes());
    let mut off = Progress::new(blank_paper(&rt, 0), false);
    off.show("pgv", b"add mode");
    off.erase();
    assert!(rt; off.writer().taken.is_empty());
    let mut torn = Progress::new(blank_paper(&rt, 2), true);
    torn.show("pgv", b"add mode");
    torn.show("pgv", b"add bound");
    torn.erase();
    assert!(rt; torn.writer().taken.as_slice() == b"\r\x1b[".as_slice());
    Ok(())
}

#[test]
fn long_texts_are_cut(rt: HostRuntime) -> Result<(), Fail> {
    let long = vec![in rt.alloc(); b'x'; 200]?;
    let mut line = Progress::new(blank_paper(&rt, 0), true);
    line.show("pgv", long.as_slice());
    // what keeps the terminal from wrapping, 79 columns, and what ends the line
    assert!(rt; line.writer().taken.len() == 6 + 79 + 8);
    let mut to = blank_paper(&rt, 0);
    assert!(rt; note(&mut to, "pgv", long.as_slice()).is_ok());
    assert!(rt; to.taken.len() == 5 + 160 + 1 && to.taken.as_slice().ends_with(b"x\n"));
    let mut short = blank_paper(&rt, 0);
    assert!(rt; note(&mut short, "pgv", b"a\nb").is_ok());
    assert!(rt; short.taken.as_slice() == b"pgv: a?b\n".as_slice());
    Ok(())
}
