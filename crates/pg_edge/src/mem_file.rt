//! The files that a shelf in memory keeps, with the steps that reads and saves are made of.
//!
//! `MemShelf` counts the calls and says which are to fail; what is done to the files is done here, over
//! slices. A file is found by its name, byte for byte, and where several have one name it is the first in
//! each of these functions: a save is seen by the reads that follow it.
//!
//! Each file's storage has room for whatever may be saved to it (`HasRoom`), so that a save never allocates:
//! it clears the content and fills it again, which leaves the room as it was. Reads take memory for what the
//! caller's buffer is to hold, and for nothing else.
ghost use Rattle.std.specs.Prelude.{◌≡◌, ◌↔◌, ◌≤◌, ◌<◌, [], length, take, drop, position, option_copied, slice_set, string_bytes, vec_capacity, All, OnOk, IfOk, OnErr, IfErr, is_some, map, IsTrue, IsSome, IsSomeAnd, IsErrOf, Some, None};
ghost use Rattle.std.specs.Bool.{OnTrue, OnFalse};
ghost use Rattle.std.specs.List.{HoldsAt};
ghost use Rattle.std.specs.Str.{bytes_eq};
ghost use Rattle.pg_edge.specs.MemFile.{all_shown, HasRoom};
ghost use Rattle.pg_edge.specs.ShelfView.{content_of, with_content, files_left};

use crate::shelf::LoadFault;
use std::alloc::{AllocError, Global};

/// A file's name and content.
#[derive(Drop)]
pub(crate) struct MemFile {
    /// The name, which others may have too.
    pub(crate) name: String,
    /// The content, in a storage that may be larger.
    pub(crate) bytes: Vec<u8>,
}

/// The files given by name and content, each with room for `room` bytes.
///
/// # Errors
/// Where there is no memory for them.
pub(crate) fn with_room(
    alloc: Global,
    given: Vec<(String, Vec<u8>)>,
    room: usize,
) -> Result<Vec<MemFile>, AllocError>
    ensures shown { IfOk result (λ files. all_shown files.items
        ≡ map (λ file. (string_bytes file.0, file.1.items)) given.items) }
    ensures roomy { IfOk result (λ files. All (HasRoom room) files.items) }
{
    let mut files = Vec::with_capacity(alloc, given.len())?;
    for (name, mut bytes) in given {
        bytes.reserve(room.saturating_sub(bytes.len()))?;
        files.push(MemFile { name, bytes })?;
    }
    Ok(files)
}

/// The place of the first file of the name.
fn place_of(files: &[MemFile], name: &str) -> Option<usize>
    ensures { result ≡ position (λ file. bytes_eq (string_bytes file.name) name.now) files.now }
{
    files.iter().position(|file| file.name.as_str() == name)
}

/// The content of the first file of the name.
pub(crate) fn content<'a>(files: &'a [MemFile], name: &str) -> Option<&'a [u8]>
    ensures { option_copied result ≡ content_of (all_shown files.now) name.now }
{
    let place = place_of(files, name)?;
    Some(&files[place].bytes)
}

/// Reads the first file of the name into the empty buffer `into`, if it has at most `limit` bytes.
pub(crate) fn load_from(
    files: &[MemFile],
    name: &str,
    limit: u64,
    into: &mut Vec<u8>,
) -> Result<(), LoadFault>
    requires { into.old.items ≡ [] }
    ensures ok { OnOk result ((content_of (all_shown files.now) name.now ≡ Some into.new.items)
        × (length into.new.items ≤ limit)) }
    ensures empty { OnErr result (into.new.items ≡ []) }
    ensures missing { IsErrOf result LoadFault.Missing ↔ (content_of (all_shown files.now) name.now ≡ None) }
    ensures long { IsErrOf result LoadFault.Long
        ↔ IsSomeAnd (content_of (all_shown files.now) name.now) (λ bytes. limit < length bytes) }
    ensures never_failed { ¬ IsErrOf result LoadFault.Failed }
{
    let Some(bytes) = content(files, name) else {
        return Err(LoadFault::Missing);
    };
    if bytes.len() as u64 > limit {
        return Err(LoadFault::Long);
    }
    copy_out(bytes, into)
}

/// Appends the bytes to the empty buffer `into`.
fn copy_out(bytes: &[u8], into: &mut Vec<u8>) -> Result<(), LoadFault>
    requires { into.old.items ≡ [] }
    ensures ok { OnOk result (into.new.items ≡ bytes.now) }
    ensures empty { OnErr result (into.new.items ≡ []) }
    ensures only_memory { IfErr result (λ fault. fault ≡ LoadFault.Memory) }
{
    match into.extend_from_slice(bytes) {
        Ok(()) => Ok(()),
        Err(_) => Err(LoadFault::Memory),
    }
}

/// Reads at most `most` bytes of the first file of the name from the place `at` on into the empty buffer.
pub(crate) fn part_from(
    files: &[MemFile],
    name: &str,
    at: u64,
    most: u64,
    into: &mut Vec<u8>,
) -> Result<(), LoadFault>
    requires { into.old.items ≡ [] }
    ensures ok { OnOk result (IsSomeAnd (content_of (all_shown files.now) name.now)
        (λ bytes. into.new.items ≡ take most (drop at bytes))) }
    ensures empty { OnErr result (into.new.items ≡ []) }
    ensures missing { IsErrOf result LoadFault.Missing ↔ (content_of (all_shown files.now) name.now ≡ None) }
    ensures never_long { ¬ IsErrOf result LoadFault.Long }
    ensures never_failed { ¬ IsErrOf result LoadFault.Failed }
{
    let Some(bytes) = content(files, name) else {
        return Err(LoadFault::Missing);
    };
    copy_out(piece_of(bytes, at, most), into)
}

/// The bytes from the place `at` on, at most `most` of them.
fn piece_of(bytes: &[u8], at: u64, most: u64) -> &[u8]
    ensures { result.now ≡ take most (drop at bytes.now) }
{
    let start = at.min(bytes.len() as u64) as usize;
    let rest = &bytes[start..];
    let count = most.min(rest.len() as u64) as usize;
    &rest[..count]
}

/// Makes `bytes` the content of the first file of the name, or the front of them that `failing` lets
/// through, and tells whether all went well.
pub(crate) fn save_to(
    files: &mut [MemFile],
    room: usize,
    failing: Option<usize>,
    name: &str,
    bytes: &[u8],
) -> bool
    requires { All (HasRoom room) files.old }
    ensures passes { IsTrue result ↔ ((failing ≡ None)
        × IsSome (content_of (all_shown files.old) name.now)
        × (length bytes.now ≤ room)) }
    ensures saved { OnTrue result (all_shown files.new
        ≡ with_content (all_shown files.old) name.now bytes.now) }
    ensures left { OnFalse result (all_shown files.new
        ≡ files_left (all_shown files.old) room failing name.now bytes.now) }
    ensures roomy { All (HasRoom room) files.new }
{
    if bytes.len() > room {
        return false;
    }
    match failing {
        None => replace(files, room, name, bytes),
        Some(taken) => {
            let _ = replace(files, room, name, &bytes[..taken.min(bytes.len())]);
            false
        }
    }
}

/// Makes `bytes` the content of the first file of the name, and tells whether there is one.
fn replace(files: &mut [MemFile], room: usize, name: &str, bytes: &[u8]) -> bool
    requires fits { length bytes.now ≤ room }
    requires roomy { All (HasRoom room) files.old }
    ensures found { result ≡ is_some (content_of (all_shown files.old) name.now) }
    ensures replaced { all_shown files.new ≡ with_content (all_shown files.old) name.now bytes.now }
    ensures kept { OnFalse result (all_shown files.new ≡ all_shown files.old) }
    ensures roomy { All (HasRoom room) files.new }
{
    match place_of(files, name) {
        None => false,
        Some(place) => {
            refill_at(files, place, room, bytes);
            true
        }
    }
}

/// Makes `bytes` the content of the file at the place.
fn refill_at(files: &mut [MemFile], place: usize, room: usize, bytes: &[u8])
    requires place { place < length files.old }
    requires fits { length bytes.now ≤ room }
    requires roomy { All (HasRoom room) files.old }
    ensures replaced { HoldsAt (λ file. all_shown files.new
        ≡ slice_set (all_shown files.old) place (string_bytes file.name, bytes.now))
        files.old place }
    ensures roomy { All (HasRoom room) files.new }
{
    refill(&mut files[place].bytes, bytes);
}

/// Makes `bytes` the content, where the capacity is known to suffice.
fn refill(content: &mut Vec<u8>, bytes: &[u8])
    requires { length bytes.now ≤ vec_capacity content.old }
    ensures items { content.new.items ≡ bytes.now }
    ensures capacity { vec_capacity content.old ≤ vec_capacity content.new }
{
    content.clear();
    content.extend_from_slice(bytes).unwrap();
}
