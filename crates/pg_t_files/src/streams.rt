//! Reads of a stream that is slow, is interrupted, and fails in the middle.
//!
//! What was read before a fault is not kept, and a stream that is longer than the limit is refused at one byte beyond it.

use pg_io_host::Fault;
use pg_io_host::streams::{read_up_to, read_within};
use std::alloc::Global;
use std::io;
use std::io::{ErrorKind, Read};
use std::test::Fail;

/// A reader that gives one byte a call, the digit of the call's number. It is interrupted at the second call, fails at the fifth,
/// and ends at the eighth.
#[derive(Drop)]
struct Torn {
    calls: u8,
}

impl Read for Torn {
    fn read(&mut self, buf: &mut [u8]) -> io::Result<usize> {
        self.calls = self.calls.saturating_add(1);
        match self.calls {
            2 => Err(io::Error::from(ErrorKind::Interrupted)),
            5 => Err(io::Error::from(ErrorKind::TimedOut)),
            calls if calls >= 8 => Ok(0),
            calls => match buf.first_mut() {
                None => Ok(0),
                Some(place) => {
                    *place = b'0'.saturating_add(calls);
                    Ok(1)
                }
            },
        }
    }
}

/// Whether a read came to this, and left these bytes, none where it failed.
fn is(got: Result<(), Fault>, into: &[u8], fault: &str, bytes: &str) -> bool {
    let why = match got {
        Ok(()) => "none",
        Err(Fault::Long) => "too long",
        Err(Fault::System(ErrorKind::TimedOut)) => "timed out",
        Err(_) => "another",
    };
    why == fault && into == bytes.as_bytes()
}

/// A read of at most two bytes goes on behind an interruption, and the next one fails.
fn goes_on(alloc: Global) -> Result<(), Fail> {
    let mut from = Torn { calls: 0 };
    let mut into = Vec::new(alloc);
    let first = read_up_to(&mut from, 2, &mut into);
    if !is(first, &into, "none", "13") {
        return Err("the first bytes are read".into());
    }
    into.clear();
    let next = read_up_to(&mut from, 9, &mut into);
    if !is(next, &into, "timed out", "") {
        return Err("the fault is told".into());
    }
    Ok(())
}

/// Reads behind the fifth call, whose limit is two bytes, and one.
fn limited(alloc: Global) -> Result<(), Fail> {
    let mut into = Vec::new(alloc);
    let whole = read_within(&mut Torn { calls: 5 }, 2, &mut into);
    if !is(whole, &into, "none", "67") {
        return Err("two bytes are read".into());
    }
    into.clear();
    let long = read_within(&mut Torn { calls: 5 }, 1, &mut into);
    if !is(long, &into, "too long", "") {
        return Err("the second byte is too many".into());
    }
    Ok(())
}

#[test]
fn reads_end_at_a_fault_or_the_limit(rt: HostRuntime) -> Result<(), Fail> {
    goes_on(rt.alloc())?;
    limited(rt.alloc())
}
