//! Whole reads and writes, made of the system's small ones.
//!
//! One read or write moves as many bytes as the system likes, or none where a signal interrupts it. The loops here go
//! on until all is moved, and say what was moved where something fails on the way: a file that is read may end sooner
//! than what is wanted of it, and a writer may have taken a front of what it was given. An interrupted read or write is
//! tried again. `dir_shelf` and `std_sink` call these.

ghost use Rattle.std.specs.Prelude.{◌≡◌, ◌<◌, ◌≤◌, [], length, take, OnOk, OnErr, IfOk, IfSome, IsErrOf};
ghost use Rattle.std.specs.Io.KnownBytes.{Appends, IsAtEnd, Keeps};
ghost use Rattle.pg_io_host.specs.Streams.{AppendsFront, Gains};

use crate::fault::Fault;
use std::io::{ErrorKind, Read, Write};

/// How many bytes are asked for at a time.
const PIECE: u64 = 4096;

/// Whether a reader may have more.
#[derive(Clone, Copy)]
enum Went {
    /// It may.
    On,
    /// It is at its end.
    End,
}

/// Writes all of `bytes`.
///
/// # Errors
/// The kind of the system's error where a write fails, and `WriteZero` where one takes nothing of what is left. A front of the bytes may have been written.
pub fn write_whole<W: Write>(to: &mut W, bytes: &[u8]) -> Result<(), ErrorKind>
    ensures whole { OnOk result (Appends (W.contents to.old) (W.contents to.new) bytes.now) }
    ensures front { OnErr result (AppendsFront (W.contents to.old) (W.contents to.new) bytes.now) }
{
    let mut rest = bytes;
    for _ in 0..u64::MAX {
        if rest.is_empty() {
            return Ok(());
        }
        let taken = write_piece(to, rest)?;
        rest = &rest[taken..];
    }
    Err(ErrorKind::Interrupted)
}

/// How many bytes one write takes, which is none where it is interrupted.
///
/// # Errors
/// The kind of the system's error where it fails, and `WriteZero` where it takes none though it is not interrupted.
fn write_piece<W: Write>(to: &mut W, bytes: &[u8]) -> Result<usize, ErrorKind>
    ensures within { IfOk result (λ taken. taken ≤ length bytes.now) }
    ensures taken { IfOk result (λ taken. Appends (W.contents to.old) (W.contents to.new) (take taken bytes.now)) }
    ensures kept { OnErr result (Keeps (W.contents to.old) (W.contents to.new)) }
{
    match to.write(bytes) {
        Ok(0) => Err(ErrorKind::WriteZero),
        Ok(taken) => Ok(taken),
        Err(e) if e.kind() == ErrorKind::Interrupted => Ok(0),
        Err(e) => Err(e.kind()),
    }
}

/// Reads all that the reader has into the empty buffer `into`, if it is at most `limit` bytes.
///
/// # Errors
/// `Long` where it is more, `System` where a read fails, and `Memory` where there is none for the bytes. `into` is then
/// empty.
pub fn read_within<R: Read>(from: &mut R, limit: u64, into: &mut Vec<u8>) -> Result<(), Fault>
    requires empty { into.old.items ≡ [] }
    ensures whole { OnOk result (IfSome (R.remaining from.old) (λ bytes. into.new.items ≡ bytes)) }
    ensures within { OnOk result (length into.new.items ≤ limit) }
    ensures empty { OnErr result (into.new.items ≡ []) }
    ensures long { IsErrOf result Fault.Long
        → IfSome (R.remaining from.old) (λ bytes. limit < length bytes) }
    ensures never_missing { ¬ IsErrOf result Fault.Missing }
{
    read_up_to(from, limit.saturating_add(1), into)?;
    if into.len() as u64 > limit {
        into.clear();
        return Err(Fault::Long);
    }
    Ok(())
}

/// Reads into the empty buffer `into` until it has `most` bytes or the reader is at its end.
///
/// # Errors
/// `System` where a read fails, and `Memory` where there is none for the bytes. `into` is then empty.
pub fn read_up_to<R: Read>(from: &mut R, most: u64, into: &mut Vec<u8>) -> Result<(), Fault>
    requires empty { into.old.items ≡ [] }
    ensures bytes { OnOk result (IfSome (R.remaining from.old) (λ bytes. into.new.items ≡ take most bytes)) }
    ensures within { OnOk result (length into.new.items ≤ most) }
    ensures empty { OnErr result (into.new.items ≡ []) }
    ensures never_missing { ¬ IsErrOf result Fault.Missing }
    ensures never_long { ¬ IsErrOf result Fault.Long }
{
    let result = fill(from, most, into);
    if result.is_err() {
        into.clear();
    }
    result
}

/// Appends to the empty buffer `into` until it has `most` bytes or the reader is at its end.
fn fill<R: Read>(from: &mut R, most: u64, into: &mut Vec<u8>) -> Result<(), Fault>
    requires empty { into.old.items ≡ [] }
    ensures bytes { OnOk result (IfSome (R.remaining from.old) (λ bytes. into.new.items ≡ take most bytes)) }
    ensures within { OnOk result (length into.new.items ≤ most) }
    ensures never_missing { ¬ IsErrOf result Fault.Missing }
    ensures never_long { ¬ IsErrOf result Fault.Long }
{
    for _ in 0..u64::MAX {
        let left = most.saturating_sub(into.len() as u64);
        if left == 0 {
            return Ok(());
        }
        match read_piece(from, left.min(PIECE) as usize, into)? {
            Went::End => return Ok(()),
            Went::On => {}
        }
    }
    Err(Fault::System(ErrorKind::Interrupted))
}

/// Appends what one read of at most `most` bytes gives, which is nothing where it is interrupted.
fn read_piece<R: Read>(from: &mut R, most: usize, into: &mut Vec<u8>) -> Result<Went, Fault>
    requires some { 1 ≤ most }
    requires piece { most ≤ 4096 }
    ensures gains { OnOk result (Gains (R.remaining from.old) (R.remaining from.new) into.old.items into.new.items most) }
    ensures end { IfOk result (λ went. went ≡ Went.End → IsAtEnd (R.remaining from.new)) }
    ensures never_missing { ¬ IsErrOf result Fault.Missing }
    ensures never_long { ¬ IsErrOf result Fault.Long }
{
    let mut piece = [0u8; PIECE as usize];
    match from.read(&mut piece[..most]) {
        Ok(0) => Ok(Went::End),
        Ok(n) => match into.extend_from_slice(&piece[..n]) {
            Ok(()) => Ok(Went::On),
            Err(_) => Err(Fault::Memory),
        },
        Err(e) if e.kind() == ErrorKind::Interrupted => Ok(Went::On),
        Err(e) => Err(Fault::System(e.kind())),
    }
}
