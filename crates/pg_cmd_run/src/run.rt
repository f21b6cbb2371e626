//! `run`: images as guests under a monitor.
//!
//! Description, room, images and certificate are loaded (`prepare_run`), in the order of the definition (`RunDue`,
//! `specs/Run.antt`). Where its verdict does not accept the machine it is told, and nothing runs. Else the images run as guests of
//! one monitor (`pg_run_guests`), and their text is put. Memory is taken before the first turn; where it is refused no turn was made,
//! but the hardware may be set up (`SetUp`).

ghost use Rattle.std.specs.Prelude.{◌≡◌, None};
ghost use Rattle.pg_cmd_base.specs.Able.{IsAble};
ghost use Rattle.pg_cmd_base.specs.Commands.{Carries};
ghost use Rattle.pg_cmd_base.specs.World.{Keeps, around};
ghost use Rattle.pg_cmd_run.specs.Run.{run_command};

use crate::preparing::prepare_run;
use pg_cert::Family;
use pg_cli_table::RunWords;
use pg_cmd_base::{Status, StopWatcher, stopped};
use pg_cmd_certs::{is_accepted, tell_verdict};
use pg_edge::{Shelf, Sink};
use pg_hw::Hardware;
use pg_run_guests::{put_guests, run_guests};
use std::alloc::Global;

/// Carries out `run`.
pub fn carry_run<F: Shelf, S: Sink, H: Hardware, W: StopWatcher>(
    alloc: Global,
    words: &RunWords,
    shelf: &mut F,
    out: &mut S,
    hw: &mut H,
    watcher: &mut W,
) -> Status
    requires able { IsAble H.Hardware hw.old }
    ensures carries { Carries (run_command words.now) (around F.Shelf S.Sink H.Hardware shelf.old out.old hw.old)
        (around F.Shelf S.Sink H.Hardware shelf.new out.new hw.new) result }
    ensures keeps { Keeps None (around F.Shelf S.Sink H.Hardware shelf.old out.old hw.old)
        (around F.Shelf S.Sink H.Hardware shelf.new out.new hw.new) }
    ensures fixed { H.fixed hw.new ≡ H.fixed hw.old }
{
    let plan = match prepare_run(alloc, Family::Plain, words, shelf) {
        Ok(plan) => plan,
        Err(stop) => return stopped(&stop, out, watcher),
    };
    if !is_accepted(plan.judged.report.verdict()) {
        return tell_verdict(out, &plan.judged);
    }
    let accepted = pg_type::Accepted::of(&plan.judged.machine);
    let images = plan.images.as_slice();
    let ran = match run_guests(alloc, accepted, images, plan.slice, plan.steps, hw) {
        Ok(ran) => ran,
        Err(_) => return Status::Memory,
    };
    let (guests, turns, direct) = (ran.guests(), ran.turns(), ran.direct());
    match put_guests(out, &plan.judged.machine, guests, turns, direct, hw) {
        Ok(()) => Status::Done,
        Err(_) => Status::WriteFault,
    }
}
