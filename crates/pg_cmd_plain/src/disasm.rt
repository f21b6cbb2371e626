//! `disasm`: an image, put as a source that gives it.
//!
//! The description is loaded, the room is tried and the image is loaded (`prepare_disasm`), as for a run of a bare machine. The
//! source is made whole, and then put: memory is refused before any of it, and after that nothing but the sink can refuse.

ghost use Rattle.std.specs.Prelude.{None};
ghost use Rattle.pg_cmd_base.specs.Answering.{Comes, OnlyReads};
ghost use Rattle.pg_cmd_base.specs.Commands.{Carries};
ghost use Rattle.pg_cmd_base.specs.World.{Keeps, around};
ghost use Rattle.pg_cmd_plain.specs.Disasm.{DisasmDue, disasm_command};
ghost use Rattle.pg_cmd_plain.specs.AsmPlans.{written};

mod plan;

use crate::machine::load_roomy;
use pg_asm::disassemble;
use pg_cli_table::DisasmWords;
use pg_cmd_base::{Status, Stop, StopWatcher, load_image, stopped};
use pg_edge::{Shelf, Sink};
use pg_hw::Hardware;
use pg_report::put_text;
use plan::DisasmPlan;
use std::alloc::Global;

/// Carries out `disasm`. The hardware is lent, and stays as it is.
pub fn carry_disasm<F: Shelf, S: Sink, H: Hardware, W: StopWatcher>(
    alloc: Global,
    words: &DisasmWords,
    shelf: &mut F,
    out: &mut S,
    hw: &H,
    watcher: &mut W,
) -> Status
    ensures carries { Carries (disasm_command words.now)
        (around F.Shelf S.Sink H.Hardware shelf.old out.old hw.now)
        (around F.Shelf S.Sink H.Hardware shelf.new out.new hw.now) result }
    ensures keeps { Keeps None (around F.Shelf S.Sink H.Hardware shelf.old out.old hw.now)
        (around F.Shelf S.Sink H.Hardware shelf.new out.new hw.now) }
{
    let plan = match prepare_disasm(alloc, words, shelf) {
        Ok(plan) => plan,
        Err(stop) => return stopped(&stop, out, watcher),
    };
    match put_text(out, &plan.text) {
        Ok(()) => Status::Done,
        Err(_) => Status::WriteFault,
    }
}

/// The source that is to be put; or why there is none.
fn prepare_disasm<F: Shelf>(
    alloc: Global,
    words: &DisasmWords,
    shelf: &mut F,
) -> Result<DisasmPlan, Stop>
    ensures comes { Comes written (DisasmDue words.now (F.files shelf.old)) (F.reads shelf.old) (F.reads shelf.new) result }
    ensures reads { OnlyReads F.Shelf shelf.old shelf.new }
{
    let machine = match load_roomy(alloc, &words.desc, &words.grant, shelf) {
        Ok(machine) => machine,
        Err(stop) => return Err(stop),
    };
    let size = words.grant.cells();
    let image = match load_image(alloc, 0, &words.image, machine.shape(), size, shelf) {
        Ok(image) => image,
        Err(stop) => return Err(stop),
    };
    match disassemble(alloc, &machine, &image) {
        Ok(text) => Ok(DisasmPlan {
            machine,
            image,
            text,
        }),
        Err(_) => Err(Stop::Memory),
    }
}
