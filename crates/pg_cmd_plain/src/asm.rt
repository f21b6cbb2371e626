//! `asm`: a source, assembled, and the image put as text.
//!
//! The description is loaded, the room is tried and the source is loaded and assembled (`prepare_asm`), in the order of the
//! command's definition (`AsmDue`, `specs/Asm.antt`): the first step that refuses gives the answer. The text of the image is made
//! whole, and then put: memory is refused before any of it, and after that nothing but the sink can refuse.

ghost use Rattle.std.specs.Prelude.{None};
ghost use Rattle.pg_cmd_base.specs.Answering.{Comes, OnlyReads};
ghost use Rattle.pg_cmd_base.specs.Commands.{Carries};
ghost use Rattle.pg_cmd_base.specs.World.{Keeps, around};
ghost use Rattle.pg_cmd_plain.specs.Asm.{AsmDue, asm_command};
ghost use Rattle.pg_cmd_plain.specs.AsmPlans.{assembled};

mod plan;

use crate::machine::load_roomy;
use crate::source::load_source;
use pg_asm::listing;
use pg_cli_table::AsmWords;
use pg_cmd_base::{Status, Stop, StopWatcher, stopped};
use pg_edge::{Shelf, Sink};
use pg_hw::Hardware;
use pg_report::put_text;
use plan::AsmPlan;
use std::alloc::Global;

/// Carries out `asm`. The hardware is lent, and stays as it is.
pub fn carry_asm<F: Shelf, S: Sink, H: Hardware, W: StopWatcher>(
    alloc: Global,
    words: &AsmWords,
    shelf: &mut F,
    out: &mut S,
    hw: &H,
    watcher: &mut W,
) -> Status
    ensures carries { Carries (asm_command words.now)
        (around F.Shelf S.Sink H.Hardware shelf.old out.old hw.now)
        (around F.Shelf S.Sink H.Hardware shelf.new out.new hw.now) result }
    ensures keeps { Keeps None (around F.Shelf S.Sink H.Hardware shelf.old out.old hw.now)
        (around F.Shelf S.Sink H.Hardware shelf.new out.new hw.now) }
{
    let plan = match prepare_asm(alloc, words, shelf) {
        Ok(plan) => plan,
        Err(stop) => return stopped(&stop, out, watcher),
    };
    match put_text(out, &plan.text) {
        Ok(()) => Status::Done,
        Err(_) => Status::WriteFault,
    }
}

/// The text that is to be put; or why there is none.
fn prepare_asm<F: Shelf>(alloc: Global, words: &AsmWords, shelf: &mut F) -> Result<AsmPlan, Stop>
    ensures comes { Comes assembled (AsmDue words.now (F.files shelf.old)) (F.reads shelf.old) (F.reads shelf.new) result }
    ensures reads { OnlyReads F.Shelf shelf.old shelf.new }
{
    let machine = match load_roomy(alloc, &words.desc, &words.grant, shelf) {
        Ok(machine) => machine,
        Err(stop) => return Err(stop),
    };
    let size = words.grant.cells();
    let image = match load_source(alloc, &words.source, &machine, size, shelf) {
        Ok(image) => image,
        Err(stop) => return Err(stop),
    };
    match listing(alloc, &machine, &image) {
        Ok(text) => Ok(AsmPlan {
            machine,
            image,
            text,
        }),
        Err(_) => Err(Stop::Memory),
    }
}
