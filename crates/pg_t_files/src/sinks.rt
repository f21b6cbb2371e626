//! Sinks: puts that go through, and puts that fail, in memory and over a writer.
//!
//! A put of no bytes is a put: it may fail, and counts then.

use pg_edge::{MemSink, Sink};
use pg_io_host::StdSink;
use std::alloc::{AllocError, Global};
use std::io;
use std::io::{ErrorKind, Write};
use std::test::Fail;

/// Of each piece whether it goes through, `+`, or not, `-`.
fn taken<S: Sink>(alloc: Global, sink: &mut S, pieces: &[&str]) -> Result<String, AllocError> {
    let mut taken = String::new(alloc);
    for piece in pieces {
        let is_taken = sink.put(piece.as_bytes()).is_ok();
        taken.push(if is_taken { '+' } else { '-' })?;
    }
    Ok(taken)
}

/// A writer that takes three bytes a call, is interrupted at the second call and fails at the sixth.
#[derive(Drop)]
struct Slow {
    taken: Vec<u8>,
    calls: u8,
}

impl Write for Slow {
    fn write(&mut self, buf: &[u8]) -> io::Result<usize> {
        self.calls = self.calls.saturating_add(1);
        match self.calls {
            2 => Err(io::Error::from(ErrorKind::Interrupted)),
            6 => Err(io::Error::from(ErrorKind::StorageFull)),
            _ => {
                let count = buf.len().min(3);
                self.taken.extend_from_slice(&buf[..count])?;
                Ok(count)
            }
        }
    }

    fn flush(&mut self) -> io::Result<()> {
        Ok(())
    }
}

#[test]
fn sinks_take_a_front(rt: HostRuntime) -> Result<(), Fail> {
    let failing = [(2, 2), (5, 0)].to_vec(rt.alloc())?;
    let mut sink = MemSink::new(rt.alloc(), 8, failing)?;
    let told = taken(
        rt.alloc(),
        &mut sink,
        &["one", "two", "four", "", "", "end"],
    )?;
    assert!(rt; told.as_str() == "+--+-+", "{told}");
    assert!(rt; sink.bytes() == b"onetwend".as_slice() && sink.faults() == 3);
    let taken_none = Vec::new(rt.alloc());
    let mut slow = StdSink::new(Slow {
        taken: taken_none,
        calls: 0,
    });
    let told = taken(rt.alloc(), &mut slow, &["abcdef", "ghijklmnop"])?;
    assert!(rt; told.as_str() == "+-", "{told}");
    assert!(rt; slow.writer().taken.as_slice() == b"abcdefghijkl".as_slice() && slow.faults() == 1);
    Ok(())
}
