//! Files to the images of sources.
//!
//! The whole of a file is loaded, within the limit of sources, and assembled. A fault of the text becomes the line that tells of
//! it, each the one of its name. Lack of memory is no fault of the text, and has no line.

ghost use Rattle.std.specs.Prelude.{◌≡◌, ◌≤◌, ◌<◌, ◌^◌, length, All, IfOk, IfErr, IfSome, Ok, Err};
ghost use Rattle.pg_cmd_base.specs.Answering.{Comes, OnlyReads};
ghost use Rattle.pg_cmd_plain.specs.Sources.{AssembledAs, SourceDue, told_of_source};

use pg_asm::{AsmFault, SOURCE_BYTES, assemble};
use pg_cli_table::FileName;
use pg_cmd_base::{Refusal, Stop, load_file, stop_of};
use pg_edge::Shelf;
use pg_image::Image;
use pg_mach_ready::Machine;
use pg_report::{RefusalLine, SourceLine};
use std::alloc::Global;

/// The image of the source of a file, for `size` cells, or why there is none.
pub(crate) fn load_source<F: Shelf>(
    alloc: Global,
    name: &FileName,
    machine: &Machine,
    size: u32,
    shelf: &mut F,
) -> Result<Image, Stop>
    requires least { 2 ≤ size }
    requires most { size ≤ machine.now.desc.size }
    ensures comes { Comes (λ image. image) (SourceDue (F.files shelf.old) name.now machine.now.desc size) (F.reads shelf.old)
        (F.reads shelf.new) result }
    ensures size { IfOk result (λ image. length image ≡ size) }
    ensures words { IfOk result (λ image. All (λ word. word < 2 ^ machine.now.desc.word) image) }
    ensures reads { OnlyReads F.Shelf shelf.old shelf.new }
{
    let bytes = match load_file(alloc, name, SOURCE_BYTES as u64, shelf) {
        Ok(bytes) => bytes,
        Err(fault) => return Err(stop_of(fault, RefusalLine::Source(SourceLine::Long))),
    };
    match image_of(alloc, &bytes, machine, size) {
        Ok(image) => Ok(image),
        Err(None) => Err(Stop::Memory),
        Err(Some(line)) => Err(Stop::Refused(Refusal::Line(RefusalLine::Source(line)))),
    }
}

/// The image of a source, or why it has none; `None` where memory was refused.
fn image_of(
    alloc: Global,
    bytes: &[u8],
    machine: &Machine,
    size: u32,
) -> Result<Image, Option<SourceLine>>
    requires least { 2 ≤ size }
    requires most { size ≤ machine.now.desc.size }
    ensures ok { IfOk result (λ image. AssembledAs machine.now.desc size bytes.now (Ok image)) }
    ensures refused { IfErr result (λ told. IfSome told (λ line. AssembledAs machine.now.desc size bytes.now (Err line))) }
    ensures size { IfOk result (λ image. length image ≡ size) }
    ensures words { IfOk result (λ image. All (λ word. word < 2 ^ machine.now.desc.word) image) }
{
    match assemble(alloc, machine, bytes, size) {
        Ok(image) => Ok(image),
        Err(fault) => Err(told_of_source(fault)),
    }
}

/// What is told of bytes that are no source; nothing of memory that was refused.
fn told_of_source(fault: AsmFault) -> Option<SourceLine>
    ensures { result ≡ told_of_source fault }
{
    match fault {
        AsmFault::Long => Some(SourceLine::Long),
        AsmFault::Token(place) => Some(SourceLine::Token(place)),
        AsmFault::Grammar(line) => Some(SourceLine::Grammar(line)),
        AsmFault::Name(line) => Some(SourceLine::Name(line)),
        AsmFault::Field(line) => Some(SourceLine::Field(line)),
        AsmFault::Label(line) => Some(SourceLine::Label(line)),
        AsmFault::Range(line) => Some(SourceLine::Range(line)),
        AsmFault::Place(line) => Some(SourceLine::Place(line)),
        AsmFault::Overlap(line) => Some(SourceLine::Overlap(line)),
        AsmFault::Memory => None,
    }
}
