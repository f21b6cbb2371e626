//! Why the program ends so, on standard error.

use crate::program::Program;
use pg_cmd_base::Status;
use pg_io_host::telling::{tell, tell_refused};
use pg_io_host::{Cause, Deed, Refused};
use std::io::{ErrorKind, Write};

/// Writes why the program ends so, where it is because of a file, of memory, or of standard output, whose last error is given if
/// there was one. That this cannot be written changes nothing. A reader of standard output who has enough of it, as `head`, closes
/// the pipe; then nothing is written.
pub fn say_why<W: Write>(
    to: &mut W,
    program: Program,
    status: Status,
    output: Option<ErrorKind>,
    refused: Option<&Refused>,
) {
    let name = program.name();
    let _ = match (status, refused) {
        (Status::Memory, _) => tell(to, name, "out of memory"),
        (Status::WriteFault, _) if output == Some(ErrorKind::BrokenPipe) => Ok(()),
        (Status::WriteFault, _) if output.is_some() => tell_refused(to, name, &unwritten(output)),
        (Status::ReadFault | Status::WriteFault | Status::Missing, Some(refused)) => {
            tell_refused(to, name, refused)
        }
        (Status::ReadFault | Status::WriteFault | Status::Missing, None) => {
            tell(to, name, "input/output error")
        }
        _ => Ok(()),
    };
}

/// Standard output, which could not be written for this error.
fn unwritten(output: Option<ErrorKind>) -> Refused {
    let cause = Cause::System(output.unwrap_or(ErrorKind::Other));
    Refused::new(Deed::Save, cause, "standard output")
}
