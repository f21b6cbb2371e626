//! `hybrid`: images as guests under a hybrid monitor.
//!
//! It is `run` by a certificate of the hybrid family: what is loaded, in which order, and what is told where the verdict does not
//! accept the machine, is the same (`prepare_run`). Else the images run as guests of one hybrid monitor (`pg_run_guests`),
//! which interprets each turn from supervisor mode.

ghost use Rattle.std.specs.Prelude.{◌≡◌, None};
ghost use Rattle.pg_cmd_base.specs.Able.{IsAble};
ghost use Rattle.pg_cmd_base.specs.Commands.{Carries};
ghost use Rattle.pg_cmd_base.specs.World.{Keeps, around};
ghost use Rattle.pg_cmd_run.specs.Hybrid.{hybrid_command};

use crate::preparing::prepare_run;
use pg_cert::Family;
use pg_cli_table::RunWords;
use pg_cmd_base::{Status, StopWatcher, stopped};
use pg_cmd_certs::{is_accepted, tell_verdict};
use pg_edge::{Shelf, Sink};
use pg_hw::Hardware;
use pg_run_guests::{put_guests, run_hybrid};
use std::alloc::Global;

/// Carries out `hybrid`.
pub fn carry_hybrid<F: Shelf, S: Sink, H: Hardware, W: StopWatcher>(
    alloc: Global,
    words: &RunWords,
    shelf: &mut F,
    out: &mut S,
    hw: &mut H,
    watcher: &mut W,
) -> Status
    requires able { IsAble H.Hardware hw.old }
    ensures carries { Carries (hybrid_command words.now) (around F.Shelf S.Sink H.Hardware shelf.old out.old hw.old)
        (around F.Shelf S.Sink H.Hardware shelf.new out.new hw.new) result }
    ensures keeps { Keeps None (around F.Shelf S.Sink H.Hardware shelf.old out.old hw.old)
        (around F.Shelf S.Sink H.Hardware shelf.new out.new hw.new) }
    ensures fixed { H.fixed hw.new ≡ H.fixed hw.old }
{
    let plan = match prepare_run(alloc, Family::Hybrid, words, shelf) {
        Ok(plan) => plan,
        Err(stop) => return stopped(&stop, out, watcher),
    };
    if !is_accepted(plan.judged.report.verdict()) {
        return tell_verdict(out, &plan.judged);
    }
    let accepted = pg_type::HybridAccepted::of(&plan.judged.machine);
    let images = plan.images.as_slice();
    let ran = match run_hybrid(alloc, accepted, images, plan.slice, plan.steps, hw) {
        Ok(ran) => ran,
        Err(_) => return Status::Memory,
    };
    let (guests, turns, direct) = (ran.guests(), ran.turns(), ran.direct());
    match put_guests(out, &plan.judged.machine, guests, turns, direct, hw) {
        Ok(()) => Status::Done,
        Err(_) => Status::WriteFault,
    }
}
