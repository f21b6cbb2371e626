//! A warning before a long search, where its certificate could not be saved, or would replace what is read or written.
//!
//! Nothing is made for it, and nothing but plain files and what the system says of this process is opened. What it sees may change
//! while the search goes on.

use crate::named::Named;
use crate::program::Program;
use pg_io_host::streams::read_within;
use pg_io_host::telling::{tell, tell_refused};
use pg_io_host::{Cause, Deed, Refused};
use std::alloc::Global;
use std::fs::{Metadata, OpenOptions};
use std::io::{ErrorKind, Write};
use std::os::unix::fs::MetadataExt;
use std::path::Path;
use std::rt::Files;
use std::{fs, str};

/// The name of what standard output goes to.
const OUTPUT: &str = "/dev/stdout";

/// What the system says of this process. It belongs to the user and the group for which files are opened.
const PROCESS: &str = "/proc/self";

/// Its other groups, among other lines.
const STATUS: &str = "/proc/self/status";

/// The most bytes of these lines.
const STATUS_BYTES: u64 = 1 << 20;

/// Warns, where the certificate could not be saved, or its file is standard output's or the description's.
pub fn warn<R: Files, W: Write>(
    alloc: Global,
    files: &R,
    to: &mut W,
    program: Program,
    named: &Named<'_>,
) {
    let Some(cert) = named.saved else {
        return;
    };
    let warning = program.warning();
    if let Some(kind) = refusal(alloc, files, cert) {
        let refused = Refused::new(Deed::Save, Cause::System(kind), cert);
        let _ = tell_refused(to, warning, &refused);
    } else if is_output(files, cert) {
        let _ = tell(
            to,
            warning,
            "the certificate and the verdict go to one file",
        );
    } else if named.desc.is_some_and(|desc| is_same(files, desc, cert)) {
        let _ = tell(to, warning, "the certificate will replace the description");
    }
}

/// Whether a name leads to the plain file that standard output goes to.
fn is_output<R: Files>(files: &R, name: &str) -> bool {
    match fs::metadata(files, OUTPUT) {
        Ok(data) => data.is_file() && is_same(files, OUTPUT, name),
        Err(_) => false,
    }
}

/// Whether two names lead to one file.
fn is_same<R: Files>(files: &R, one: &str, other: &str) -> bool {
    match (fs::metadata(files, one), fs::metadata(files, other)) {
        (Ok(one), Ok(other)) => one.dev() == other.dev() && one.ino() == other.ino(),
        _ => false,
    }
}

/// Why a file of this name could not be written, as far as can be seen without making it.
fn refusal<R: Files>(alloc: Global, files: &R, name: &str) -> Option<ErrorKind> {
    match fs::metadata(files, name) {
        Ok(data) if data.is_dir() => Some(ErrorKind::IsADirectory),
        Ok(data) if data.is_file() => opened(files, name),
        Ok(_) => None,
        Err(error) if error.kind() == ErrorKind::NotFound => folder_refusal(alloc, files, name),
        Err(error) => Some(error.kind()),
    }
}

/// Why a plain file cannot be opened to be written. It is not cut.
fn opened<R: Files>(files: &R, name: &str) -> Option<ErrorKind> {
    match OpenOptions::new().write(true).open(files, name) {
        Ok(_) => None,
        Err(error) => Some(error.kind()),
    }
}

/// Why no file of this name, which none has, could be made: its folder is not there, is none, or takes no new file.
fn folder_refusal<R: Files>(alloc: Global, files: &R, name: &str) -> Option<ErrorKind> {
    let Some(folder) = Path::new(name).parent() else {
        return Some(ErrorKind::NotFound);
    };
    let folder = if folder.as_str().is_empty() {
        "."
    } else {
        folder.as_str()
    };
    match fs::metadata(files, folder) {
        Ok(data) if !data.is_dir() => Some(ErrorKind::NotADirectory),
        Ok(_) if is_read_only(files, name) => Some(ErrorKind::ReadOnlyFilesystem),
        Ok(data) if !may_add(alloc, files, &data) => Some(ErrorKind::PermissionDenied),
        Ok(_) => None,
        Err(error) => Some(error.kind()),
    }
}

/// Whether the file system of a name that no file has takes no change. The name is to be its own new one, which changes nothing, also
/// where a file has it by now.
fn is_read_only<R: Files>(files: &R, name: &str) -> bool {
    match fs::rename(files, name, name) {
        Ok(()) => false,
        Err(error) => error.kind() == ErrorKind::ReadOnlyFilesystem,
    }
}

/// Whether this process may add a file to a folder, by the folder's permissions. Where the system does not say who it is, it may.
fn may_add<R: Files>(alloc: Global, files: &R, folder: &Metadata) -> bool {
    let Ok(me) = fs::metadata(files, PROCESS) else {
        return true;
    };
    let mode = folder.mode();
    if me.uid() == 0 {
        true
    } else if me.uid() == folder.uid() {
        adds(mode >> 6)
    } else if me.gid() == folder.gid() || is_member(alloc, files, folder.gid()) {
        adds(mode >> 3)
    } else {
        adds(mode)
    }
}

/// Whether permissions whose last three bits are those of a user let this one add a file.
fn adds(mode: u32) -> bool {
    mode & 0o3 == 0o3
}

/// Whether a group is one of the other groups of this process.
fn is_member<R: Files>(alloc: Global, files: &R, group: u32) -> bool {
    let mut text = Vec::new(alloc);
    let Ok(mut file) = fs::open(files, STATUS) else {
        return false;
    };
    if read_within(&mut file, STATUS_BYTES, &mut text).is_err() {
        return false;
    }
    match str::from_utf8(text.as_slice()) {
        Ok(text) => text.lines().any(|line| has_group(line, group)),
        Err(_) => false,
    }
}

/// Whether a line is that of the groups, and has this one.
fn has_group(line: &str, group: u32) -> bool {
    match line.strip_prefix("Groups:") {
        None => false,
        Some(groups) => groups
            .split_ascii_whitespace()
            .any(|word| word.parse::<u32>() == Ok(group)),
    }
}
