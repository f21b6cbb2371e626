//! Why the system did not give or take what it was to.
//!
//! Below the traits the system's own word is kept, so that a program can tell its user what the matter was. The traits
//! have less: there it is `Failed`, whatever the kind of the error.

ghost use Rattle.std.specs.Prelude.{◌≡◌, ◌≢◌};
ghost use Rattle.std.specs.IoError.{error_kind};

use std::io::{Error, ErrorKind};

/// Why bytes of a file or of a stream were not read.
#[derive(Debug, Clone, Copy, PartialEq, Eq)]
pub enum Fault {
    /// No file has the name.
    Missing,
    /// There are more bytes than the caller wants.
    Long,
    /// There was no memory for the bytes.
    Memory,
    /// The system refused, with an error of this kind.
    System(ErrorKind),
}

/// What it is that a file is not opened or not measured.
pub(crate) fn fault_of(error: &Error) -> Fault
    ensures missing { error_kind error.now ≡ ErrorKind.NotFound → result ≡ Fault.Missing }
    ensures other { error_kind error.now ≢ ErrorKind.NotFound → result ≡ Fault.System (error_kind error.now) }
{
    let kind = error.kind();
    if kind == ErrorKind::NotFound {
        Fault::Missing
    } else {
        Fault::System(kind)
    }
}
