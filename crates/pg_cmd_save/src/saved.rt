//! Files to saved guests.
//!
//! The whole of a file is loaded, within the limit of saved texts, and read. A fault of the text becomes the line that tells of
//! it, each the one of its name. Lack of memory is no fault of the text, and has no line.

ghost use Rattle.std.specs.Prelude.{◌≡◌, ◌≤◌, IfOk, IfErr, IfSome, Ok, Err};
ghost use Rattle.pg_lang_meaning.specs.States.{shape_of};
ghost use Rattle.pg_move.specs.Seen.{guest_of};
ghost use Rattle.pg_move.specs.Texts.{IsSaved};
ghost use Rattle.pg_cmd_base.specs.Answering.{Comes, OnlyReads};
ghost use Rattle.pg_cmd_save.specs.SavedFiles.{ReadsSaved, SavedDue, told_of_saved};

use pg_cli_table::FileName;
use pg_cmd_base::{Refusal, Stop, load_file, stop_of};
use pg_edge::Shelf;
use pg_mach_ready::Machine;
use pg_move::{SAVED_BYTES, Saved, SavedFault, read_saved};
use pg_report::{RefusalLine, SavedLine};
use std::alloc::Global;

/// The saved guest of a file, for machines of this one's shape, or why there is none.
pub(crate) fn load_saved<F: Shelf>(
    alloc: Global,
    name: &FileName,
    machine: &Machine,
    shelf: &mut F,
) -> Result<Saved, Stop>
    ensures comes { Comes guest_of (SavedDue (F.files shelf.old) name.now machine.now.desc) (F.reads shelf.old) (F.reads shelf.new) result }
    ensures saved { IfOk result (λ saved. IsSaved (shape_of machine.now.desc) (guest_of saved)) }
    ensures reads { OnlyReads F.Shelf shelf.old shelf.new }
{
    let bytes = match load_file(alloc, name, SAVED_BYTES as u64, shelf) {
        Ok(bytes) => bytes,
        Err(fault) => return Err(stop_of(fault, RefusalLine::Saved(SavedLine::Long))),
    };
    match saved_of(alloc, &bytes, machine) {
        Ok(saved) => Ok(saved),
        Err(None) => Err(Stop::Memory),
        Err(Some(line)) => Err(Stop::Refused(Refusal::Line(RefusalLine::Saved(line)))),
    }
}

/// What bytes say of a saved guest, or why they say nothing; `None` where memory was refused.
fn saved_of(alloc: Global, bytes: &[u8], machine: &Machine) -> Result<Saved, Option<SavedLine>>
    ensures ok { IfOk result (λ saved. ReadsSaved machine.now.desc bytes.now (Ok (guest_of saved))) }
    ensures refused { IfErr result (λ told. IfSome told (λ line. ReadsSaved machine.now.desc bytes.now (Err line))) }
    ensures saved { IfOk result (λ saved. IsSaved (shape_of machine.now.desc) (guest_of saved)) }
{
    match read_saved(alloc, machine.shape(), bytes) {
        Ok(saved) => Ok(saved),
        Err(fault) => Err(told_of_saved(fault)),
    }
}

/// What is told of bytes that are no saved text; nothing of memory that was refused.
fn told_of_saved(fault: SavedFault) -> Option<SavedLine>
    ensures { result ≡ told_of_saved fault }
{
    match fault {
        SavedFault::Long => Some(SavedLine::Long),
        SavedFault::Token(line) => Some(SavedLine::Token(line)),
        SavedFault::Grammar(line) => Some(SavedLine::Grammar(line)),
        SavedFault::Version(line) => Some(SavedLine::Version(line)),
        SavedFault::Memory => None,
    }
}
