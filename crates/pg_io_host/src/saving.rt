//! Saving a file whole: what is new is written beside the old, and takes its name at the end.
//!
//! So a disk that fills, or a kill, leaves the old file as it was, where writing over it would leave a front of the new bytes. The
//! new file stands in the same folder, under the name of the old with `.new00` behind it, or another number up to 99 where that is
//! taken: it is made only where no file has its name. It gets the old file's permissions. Where anything fails on the way it is
//! removed, and a kill leaves it.
//!
//! What has no owner of its own is written over: a link, a file of several names, of another owner or group, a device, a pipe. So
//! is a file in a folder that takes no new one. A file that may not be written is refused either way. No memory is taken.

ghost use Rattle.std.specs.Prelude.{◌≤◌, IfSome};
ghost use Rattle.arrayvec.specs.ArrayVec.{array_vec_len};

use crate::push::push;
use crate::refused::NAME_BYTES;
use crate::streams::write_whole;
use arrayvec::ArrayVec;
use std::fs::{File, Metadata, OpenFile, OpenOptions};
use std::io::ErrorKind;
use std::os::unix::fs::MetadataExt;
use std::rt::Files;
use std::{fs, str};

/// The most bytes of the name of a new file: six more than that of the old.
const NEW_BYTES: usize = NAME_BYTES + 6;

/// How many names are tried for a new file.
const NAMES: u8 = 100;

/// What stands under a name before it is saved to.
#[derive(Drop)]
enum Held {
    /// No file.
    Nothing,
    /// A file that may be replaced.
    Own(Metadata),
    /// Anything else, which is written over.
    Other,
}

/// A new file that is being written, and its name.
#[derive(Drop)]
struct New<F: Drop> {
    file: F,
    name: ArrayVec<u8, NEW_BYTES>,
}

/// Makes `bytes` the content of the file `name`.
///
/// # Errors
/// The kind of the system's error where the file may not be written, or where the bytes may not.
pub fn save_file<R: Files>(system: &R, name: &str, bytes: &[u8]) -> Result<(), ErrorKind> {
    let held = held_under(system, name)?;
    match made_beside(system, name, &held) {
        None => write_over(system, name, bytes),
        Some(new) => replace(system, name, bytes, new),
    }
}

/// What stands under the name. The error is the kind of the system's, where a file that may be replaced may not be written.
fn held_under<R: Files>(system: &R, name: &str) -> Result<Held, ErrorKind> {
    match fs::symlink_metadata(system, name) {
        Ok(data) if data.is_file() && data.nlink() == 1 => {
            // (opened, and neither cut nor written)
            match OpenOptions::new().write(true).open(system, name) {
                Ok(_) => Ok(Held::Own(data)),
                Err(error) => Err(error.kind()),
            }
        }
        Ok(_) => Ok(Held::Other),
        Err(error) if error.kind() == ErrorKind::NotFound => Ok(Held::Nothing),
        Err(_) => Ok(Held::Other),
    }
}

/// The new file that is to be written in place of what is held, made like it. None where that is written over.
fn made_beside<R: Files>(system: &R, name: &str, held: &Held) -> Option<New<R::File>> {
    match held {
        Held::Other => None,
        Held::Nothing => new_file(system, name),
        Held::Own(old) => {
            let new = new_file(system, name)?;
            if is_made_like(&new.file, old) {
                Some(new)
            } else {
                remove(system, &new);
                None
            }
        }
    }
}

/// A new file beside the one of the name, under the first number that is free. None where there can be none.
fn new_file<R: Files>(system: &R, name: &str) -> Option<New<R::File>> {
    for number in 0..NAMES {
        let beside = new_name(name, number)?;
        match File::create_new(system, text_of(&beside)?) {
            Ok(file) => return Some(New { file, name: beside }),
            Err(error) if error.kind() == ErrorKind::AlreadyExists => continue,
            Err(_) => return None,
        }
    }
    None
}

/// The name with `.new` and two digits behind it; none where it has more bytes than any path.
fn new_name(name: &str, number: u8) -> Option<ArrayVec<u8, NEW_BYTES>> {
    let bytes = name.as_bytes();
    if bytes.len() > NAME_BYTES {
        return None;
    }
    let mut made = ArrayVec::new();
    push(&mut made, bytes);
    push(&mut made, b".new");
    push(&mut made, &[b'0' + number / 10 % 10, b'0' + number % 10]);
    Some(made)
}

/// A name as text.
fn text_of(name: &ArrayVec<u8, NEW_BYTES>) -> Option<&str> {
    str::from_utf8(name.as_slice()).ok()
}

/// Whether a new file has the owner and group of the old, and could be given its permissions.
fn is_made_like<F: OpenFile>(new: &F, old: &Metadata) -> bool {
    match new.metadata() {
        Ok(data) if data.uid() == old.uid() && data.gid() == old.gid() => {
            new.set_permissions(old.permissions()).is_ok()
        }
        _ => false,
    }
}

/// Writes the bytes to a new file, and gives it the name. Where that fails the new file is removed.
fn replace<R: Files>(
    system: &R,
    name: &str,
    bytes: &[u8],
    mut new: New<R::File>,
) -> Result<(), ErrorKind> {
    let written = write_whole(&mut new.file, bytes);
    if written.is_err() {
        remove(system, &new);
        return written;
    }
    if is_renamed(system, &new, name) {
        Ok(())
    } else {
        remove(system, &new);
        write_over(system, name, bytes)
    }
}

/// Gives a new file the name, and says whether it could.
fn is_renamed<F: Drop, R: Files>(system: &R, new: &New<F>, name: &str) -> bool {
    match text_of(&new.name) {
        None => false,
        Some(from) => fs::rename(system, from, name).is_ok(),
    }
}

/// Removes a new file, where it can.
fn remove<F: Drop, R: Files>(system: &R, new: &New<F>) {
    if let Some(name) = text_of(&new.name) {
        let _ = fs::remove_file(system, name);
    }
}

/// Makes `bytes` the content of the file, which is made or cut off first.
fn write_over<R: Files>(system: &R, name: &str, bytes: &[u8]) -> Result<(), ErrorKind> {
    match fs::create(system, name) {
        Ok(mut file) => write_whole(&mut file, bytes),
        Err(error) => Err(error.kind()),
    }
}
