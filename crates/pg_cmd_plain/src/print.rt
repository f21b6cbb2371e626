//! `print`: a description in one layout.
//!
//! The description is loaded, its text is made whole, and then put: memory is refused before any of it, and after that nothing
//! but the sink can refuse.

ghost use Rattle.std.specs.Prelude.{None};
ghost use Rattle.pg_cmd_base.specs.Commands.{Carries};
ghost use Rattle.pg_cmd_base.specs.Answering.{Comes, OnlyReads};
ghost use Rattle.pg_cmd_plain.specs.Print.{PrintDue, print_command};
ghost use Rattle.pg_cmd_base.specs.World.{Keeps, around};

mod plan;

use pg_cli_table::PrintWords;
use pg_cmd_base::{Status, Stop, StopWatcher, load_machine, stopped};
use pg_edge::{Shelf, Sink};
use pg_hw::Hardware;
use pg_lang_print::print;
use pg_report::put_text;
use plan::PrintPlan;
use std::alloc::Global;

/// Carries out `print`. The hardware is lent, and stays as it is.
pub fn carry_print<F: Shelf, S: Sink, H: Hardware, W: StopWatcher>(
    alloc: Global,
    words: &PrintWords,
    shelf: &mut F,
    out: &mut S,
    hw: &H,
    watcher: &mut W,
) -> Status
    ensures carries { Carries (print_command words.now)
        (around F.Shelf S.Sink H.Hardware shelf.old out.old hw.now)
        (around F.Shelf S.Sink H.Hardware shelf.new out.new hw.now) result }
    ensures keeps { Keeps None (around F.Shelf S.Sink H.Hardware shelf.old out.old hw.now)
        (around F.Shelf S.Sink H.Hardware shelf.new out.new hw.now) }
{
    let plan = match prepare_print(alloc, words, shelf) {
        Ok(plan) => plan,
        Err(stop) => return stopped(&stop, out, watcher),
    };
    match put_text(out, &plan.text) {
        Ok(()) => Status::Done,
        Err(_) => Status::WriteFault,
    }
}

/// The text that is to be put; or why there is none.
fn prepare_print<F: Shelf>(
    alloc: Global,
    words: &PrintWords,
    shelf: &mut F,
) -> Result<PrintPlan, Stop>
    ensures comes { Comes (λ p. p.machine.desc) (PrintDue words.now (F.files shelf.old)) (F.reads shelf.old) (F.reads shelf.new) result }
    ensures reads { OnlyReads F.Shelf shelf.old shelf.new }
{
    let machine = match load_machine(alloc, &words.desc, shelf) {
        Ok(machine) => machine,
        Err(stop) => return Err(stop),
    };
    match print(alloc, &machine.desc) {
        Ok(text) => Ok(PrintPlan { machine, text }),
        Err(_) => Err(Stop::Memory),
    }
}
