//! What a program says on standard error where it ends without a text.
//!
//! A line begins with the program's name. It is made whole, in a buffer that lies in the value itself, and then written,
//! so that it takes no memory and, where the writer is not torn, comes in one piece. A control character in the name of a
//! file is shown as `?`, so that the line stays one.

ghost use Rattle.std.specs.Prelude.{◌≡◌, ◌+◌, ◌≤◌, if◌then◌else◌, [], ◌++◌, length, codes, OnOk, OnErr};
ghost use Rattle.std.specs.Io.KnownBytes.{Appends};
ghost use Rattle.arrayvec.specs.ArrayVec.{array_vec_len};
ghost use Rattle.pg_io_host.specs.Streams.{AppendsFront};
ghost use Rattle.pg_io_host.specs.Telling.{told_line, noted_line, name_text, why_text, deed_text, cause_text, refusal_text};

use crate::push::{front, push, push_shown};
use crate::refused::{Cause, Deed, Refused};
use crate::streams::write_whole;
use arrayvec::ArrayVec;
use std::io::{ErrorKind, Write};

/// The most bytes of a line, with its LF.
const LINE_BYTES: usize = 4224;

/// The most bytes that are shown of a note.
const NOTE_BYTES: usize = 160;

/// Writes the line `PROGRAM: TEXT`, of a program's name of at most 32 bytes and a text of at most 64.
///
/// # Errors
/// The kind of the system's error where a write fails. A front of the line may have been written.
pub fn tell<W: Write>(to: &mut W, program: &str, text: &str) -> Result<(), ErrorKind>
    requires program { length program.now ≤ 32 }
    requires text { length text.now ≤ 64 }
    ensures whole { OnOk result (Appends (W.contents to.old) (W.contents to.new) (told_line program.now text.now)) }
    ensures front { OnErr result (AppendsFront (W.contents to.old) (W.contents to.new) (told_line program.now text.now)) }
{
    let mut line = ArrayVec::new();
    push_line(&mut line, program, text);
    write_whole(to, line.as_slice())
}

/// Writes the line `PROGRAM: TEXT`, of a program's name of at most 32 bytes and the first 160 bytes of a text, each control character as
/// `?`.
///
/// # Errors
/// The kind of the system's error where a write fails. A front of the line may have been written.
pub fn note<W: Write>(to: &mut W, program: &str, text: &[u8]) -> Result<(), ErrorKind>
    requires program { length program.now ≤ 32 }
    ensures whole { OnOk result (Appends (W.contents to.old) (W.contents to.new) (noted_line program.now text.now)) }
    ensures front { OnErr result (AppendsFront (W.contents to.old) (W.contents to.new) (noted_line program.now text.now)) }
{
    let mut line = ArrayVec::new();
    push_note(&mut line, program, text);
    write_whole(to, line.as_slice())
}

/// Writes the line of a refused call, `PROGRAM: NAME: TEXT`, of a program's name of at most 32 bytes.
///
/// The text is `no such file` where the file is missing, else `cannot be read: WHY` or `cannot be written: WHY`.
///
/// # Errors
/// The kind of the system's error where a write fails. A front of the line may have been written.
pub fn tell_refused<W: Write>(to: &mut W, program: &str, refused: &Refused) -> Result<(), ErrorKind>
    requires program { length program.now ≤ 32 }
    ensures whole { OnOk result (Appends (W.contents to.old) (W.contents to.new) (told_line program.now (refusal_text refused.now))) }
    ensures front { OnErr result (AppendsFront (W.contents to.old) (W.contents to.new) (told_line program.now (refusal_text refused.now))) }
{
    let mut line = ArrayVec::new();
    push_refused(&mut line, program, refused);
    write_whole(to, line.as_slice())
}

/// Pushes the line of a program's name and a text into an empty one.
#[tactic(auto, unfolding(crate::specs::Telling::told_line))]
fn push_line(line: &mut ArrayVec<u8, LINE_BYTES>, program: &str, text: &str)
    requires empty { array_vec_len line.old ≡ 0 }
    requires program { length program.now ≤ 32 }
    requires text { length text.now ≤ 64 }
    ensures { line.new.items ≡ line.old.items ++ told_line program.now text.now }
{
    push(line, program.as_bytes());
    push(line, b": ");
    push(line, text.as_bytes());
    push(line, b"\n");
}

/// Pushes the line of a note into an empty one.
#[tactic(auto, unfolding(crate::specs::Telling::told_line))]
fn push_note(line: &mut ArrayVec<u8, LINE_BYTES>, program: &str, text: &[u8])
    requires empty { array_vec_len line.old ≡ 0 }
    requires program { length program.now ≤ 32 }
    ensures { line.new.items ≡ line.old.items ++ noted_line program.now text.now }
{
    push(line, program.as_bytes());
    push(line, b": ");
    push_shown(line, front(text, NOTE_BYTES));
    push(line, b"\n");
}

/// Pushes the line of a refused call into an empty one.
#[tactic(auto, unfolding(crate::specs::Telling::told_line, crate::specs::Telling::refusal_text))]
fn push_refused(line: &mut ArrayVec<u8, LINE_BYTES>, program: &str, refused: &Refused)
    requires empty { array_vec_len line.old ≡ 0 }
    requires program { length program.now ≤ 32 }
    ensures { line.new.items ≡ line.old.items ++ told_line program.now (refusal_text refused.now) }
{
    push(line, program.as_bytes());
    push(line, b": ");
    push_name(line, refused);
    push(line, b": ");
    push_cause(line, refused.deed(), refused.cause());
    push(line, b"\n");
}

/// Pushes the name of a refused call, with dots behind it where not all of it was kept.
#[tactic(auto, unfolding(crate::specs::Telling::name_text))]
fn push_name(line: &mut ArrayVec<u8, LINE_BYTES>, refused: &Refused)
    requires { array_vec_len line.old + 4099 ≤ 4224 }
    ensures items { line.new.items ≡ line.old.items ++ name_text refused.now }
    ensures len { array_vec_len line.new ≤ array_vec_len line.old + 4099 }
{
    push_shown(line, refused.name());
    push(line, dots(refused.is_cut()));
}

/// What stands behind a name, of which not all was kept.
fn dots(is_cut: bool) -> &'static [u8]
    ensures text { result.now ≡ (if is_cut then codes "..." else []) }
    ensures short { length result.now ≤ 3 }
{
    if is_cut { b"..." } else { b"" }
}

/// Pushes what was not done, and why.
#[tactic(auto, unfolding(crate::specs::Telling::cause_text))]
fn push_cause(line: &mut ArrayVec<u8, LINE_BYTES>, deed: Deed, cause: Cause)
    requires { array_vec_len line.old + 60 ≤ 4224 }
    ensures items { line.new.items ≡ line.old.items ++ cause_text deed cause }
    ensures len { array_vec_len line.new ≤ array_vec_len line.old + 60 }
{
    match cause {
        Cause::Missing => push(line, b"no such file"),
        Cause::System(kind) => {
            push(line, not_done(deed));
            push(line, why(kind));
        }
    }
}

/// What was not done, before the cause.
fn not_done(deed: Deed) -> &'static [u8]
    ensures text { result.now ≡ deed_text deed }
    ensures short { length result.now ≤ 19 }
{
    match deed {
        Deed::Read | Deed::Size => b"cannot be read: ",
        Deed::Save => b"cannot be written: ",
    }
}

/// The kind of an error in words, of which most are those that Unix has for it.
#[tactic(auto, unfolding(crate::specs::Telling::why_text))]
fn why(kind: ErrorKind) -> &'static [u8]
    ensures text { result.now ≡ why_text kind }
    ensures short { length result.now ≤ 40 }
{
    match kind {
        ErrorKind::NotFound => b"no such file or directory",
        ErrorKind::PermissionDenied => b"permission denied",
        ErrorKind::IsADirectory => b"is a directory",
        ErrorKind::NotADirectory => b"not a directory",
        ErrorKind::InvalidFilename => b"file name too long",
        ErrorKind::FilesystemLoop => b"too many levels of symbolic links",
        ErrorKind::ReadOnlyFilesystem => b"read-only file system",
        ErrorKind::StorageFull => b"no space left on device",
        ErrorKind::QuotaExceeded => b"disk quota exceeded",
        ErrorKind::FileTooLarge => b"file too large",
        ErrorKind::ResourceBusy => b"device or resource busy",
        ErrorKind::ExecutableFileBusy => b"text file busy",
        ErrorKind::NotSeekable => b"illegal seek",
        ErrorKind::BrokenPipe => b"broken pipe",
        ErrorKind::OutOfMemory => b"cannot allocate memory",
        _ => b"input/output error",
    }
}
