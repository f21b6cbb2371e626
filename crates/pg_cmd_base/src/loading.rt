//! Bytes of files, and why a file gives none.
//!
//! The whole of a file is loaded, within the limit of its kind. That it is too long is found by the shelf, and told like a fault
//! of its text; one that is not there, or could not be read, has a status of its own.

ghost use Rattle.std.specs.Prelude.{◌≡◌, IfOk, IsErrOf};
ghost use Rattle.pg_edge.specs.Count.{Rose};
ghost use Rattle.pg_edge.specs.Shelf.{HoldsLonger, LacksFile};
ghost use Rattle.pg_edge.specs.declared.shelf.LoadFault.TheVariants.{Failed, Long, Missing};
ghost use Rattle.pg_cmd_base.specs.Answering.{OnlyReads, stop_as};
ghost use Rattle.pg_cmd_base.specs.FileSteps.{HoldsWithin};

use crate::refusal::{Refusal, Stop};
use pg_cli_table::FileName;
use pg_edge::{LoadFault, Shelf};
use pg_report::RefusalLine;
use std::alloc::Global;

/// The bytes of a file, if it has at most `limit`.
///
/// # Errors
/// `Missing` where no file has the name, `Long` where it has more bytes, `Failed` where it could not be read, and `Memory`
/// where there is none for the bytes.
pub fn load_file<F: Shelf>(
    alloc: Global,
    name: &FileName,
    limit: u64,
    shelf: &mut F,
) -> Result<Vec<u8>, LoadFault>
    ensures ok { IfOk result (λ bytes. HoldsWithin (F.files shelf.old) name.now limit bytes.items) }
    ensures missing { IsErrOf result Missing → LacksFile (F.files shelf.old) name.now }
    ensures long { IsErrOf result Long → HoldsLonger (F.files shelf.old) name.now limit }
    ensures failed { IsErrOf result Failed → Rose (F.reads shelf.old) (F.reads shelf.new) }
    ensures reads { OnlyReads F.Shelf shelf.old shelf.new }
{
    let mut bytes = Vec::new(alloc);
    match shelf.load(name.as_str(), limit, &mut bytes) {
        Ok(()) => Ok(bytes),
        Err(fault) => Err(fault),
    }
}

/// Why a command goes no further whose file was not loaded. One that is too long is told in the line `long`.
pub fn stop_of(fault: LoadFault, long: RefusalLine) -> Stop
    ensures { result ≡ stop_as fault long }
{
    match fault {
        LoadFault::Missing => Stop::Refused(Refusal::Missing),
        LoadFault::Long => Stop::Refused(Refusal::Line(long)),
        LoadFault::Failed => Stop::ReadFault,
        LoadFault::Memory => Stop::Memory,
    }
}
