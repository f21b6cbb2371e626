//! The file that parts are read from, kept open.
//!
//! A pipe has no places: what was read is gone. So the file of the last part stays open, with the place behind that part, and a
//! part that begins there is read on without a seek. Any other part has its file opened anew.

ghost use Rattle.std.specs.Prelude.{◌≡◌, ◌≤◌, [], length, OnOk, OnErr, IsErrOf};
ghost use Rattle.pg_io_host.specs.declared.fault.Fault.{Fault as Faults};

use crate::fault::{Fault, fault_of};
use crate::push::{front, push};
use crate::refused::NAME_BYTES;
use crate::streams::read_up_to;
use arrayvec::ArrayVec;
use std::fs;
use std::io::{Read, Seek, SeekFrom};
use std::rt::Files;

/// A file that is open for reading, its name, and the place of the byte that comes next.
#[derive(Drop)]
pub struct Opened<F: Read + Drop> {
    name: ArrayVec<u8, NAME_BYTES>,
    file: F,
    at: u64,
}

impl<F: Read + Drop> Opened<F> {
    /// Whether a part of the file `name` from the place `at` on is what comes next. Of a name that is longer than any path, no file
    /// is open.
    fn goes_on(&self, name: &str, at: u64) -> bool {
        self.at == at && self.name.as_slice() == name.as_bytes()
    }

    /// Reads at most `most` bytes into the empty buffer `into`: fewer only at the file's end.
    fn read(&mut self, most: u64, into: &mut Vec<u8>) -> Result<(), Fault>
        requires empty { into.old.items ≡ [] }
        ensures within { OnOk result (length into.new.items ≤ most) }
        ensures empty { OnErr result (into.new.items ≡ []) }
        ensures never_long { ¬ IsErrOf result Fault.Long }
    {
        read_up_to(&mut self.file, most, into)?;
        self.at = self.at.saturating_add(into.len() as u64);
        Ok(())
    }
}

/// The file `name`, open at the place `at`.
fn open_at<R: Files>(system: &R, name: &str, at: u64) -> Result<Opened<R::File>, Fault>
    ensures never_long { ¬ IsErrOf result Fault.Long }
{
    let mut file = match fs::open(system, name) {
        Ok(file) => file,
        Err(error) => return Err(fault_of(&error)),
    };
    // (a pipe has no other place than its begin)
    if at > 0 {
        if let Err(error) = file.seek(SeekFrom::Start(at)) {
            return Err(Fault::System(error.kind()));
        }
    }
    let mut kept = ArrayVec::new();
    push(&mut kept, front(name.as_bytes(), NAME_BYTES));
    Ok(Opened {
        name: kept,
        file,
        at,
    })
}

/// Reads at most `most` bytes of the file `name` from the place `at` on into the empty buffer `into`: fewer only at its end. The
/// file that is open goes on where it can; else it is closed, and this one opened. It stays open unless the read fails.
pub fn load_part<R: Files>(
    system: &R,
    opened: &mut Option<Opened<R::File>>,
    name: &str,
    at: u64,
    most: u64,
    into: &mut Vec<u8>,
) -> Result<(), Fault>
    requires empty { into.old.items ≡ [] }
    ensures within { OnOk result (length into.new.items ≤ most) }
    ensures empty { OnErr result (into.new.items ≡ []) }
    ensures never_long { ¬ IsErrOf result Fault.Long }
{
    let mut from = match opened.take() {
        Some(was) if was.goes_on(name, at) => was,
        _ => open_at(system, name, at)?,
    };
    from.read(most, into)?;
    *opened = Some(from);
    Ok(())
}
