//! `resume`: a saved guest that goes on under a monitor.
//!
//! Description, saved guest, room and certificate are loaded (`preparing`). Where its verdict does not accept the machine it is
//! told, and nothing runs. Else the guest goes on as the one guest of a monitor (`pg_run_guests`), behind the cells that are held, and
//! the text of the run is put, with all the steps that it has made. Memory is taken before its first turn.

ghost use Rattle.std.specs.Prelude.{◌≡◌, None};
ghost use Rattle.pg_edge.specs.Sink.{Puts};
ghost use Rattle.pg_run_guests.specs.HaveRun.{HaveRun};
ghost use Rattle.pg_cmd_base.specs.Able.{IsAble};
ghost use Rattle.pg_cmd_base.specs.Commands.{Carries};
ghost use Rattle.pg_cmd_base.specs.World.{Keeps, around};
ghost use Rattle.pg_cmd_save.specs.Plans.{resume_run};
ghost use Rattle.pg_cmd_save.specs.Resume.{guest_on, resume_command, told_on};

mod plan;
mod preparing;

use crate::save::SLICE;
use pg_cli_table::ResumeWords;
use pg_cmd_base::{Status, StopWatcher, stopped};
use pg_cmd_certs::{is_accepted, tell_verdict};
use pg_edge::{Failed, Shelf, Sink};
use pg_hw::Hardware;
use pg_report::put_total;
use pg_run_guests::{Ran, put_guests, run_state};
use pg_type::Accepted;
use plan::ResumePlan;
use preparing::prepare_resume;
use std::alloc::Global;

/// Carries out `resume`.
pub fn carry_resume<F: Shelf, S: Sink, H: Hardware, W: StopWatcher>(
    alloc: Global,
    words: &ResumeWords,
    shelf: &mut F,
    out: &mut S,
    hw: &mut H,
    watcher: &mut W,
) -> Status
    requires able { IsAble H.Hardware hw.old }
    ensures carries { Carries (resume_command words.now) (around F.Shelf S.Sink H.Hardware shelf.old out.old hw.old)
        (around F.Shelf S.Sink H.Hardware shelf.new out.new hw.new) result }
    ensures keeps { Keeps None (around F.Shelf S.Sink H.Hardware shelf.old out.old hw.old)
        (around F.Shelf S.Sink H.Hardware shelf.new out.new hw.new) }
    ensures fixed { H.fixed hw.new ≡ H.fixed hw.old }
{
    let plan = match prepare_resume(alloc, words, shelf) {
        Ok(plan) => plan,
        Err(stop) => return stopped(&stop, out, watcher),
    };
    if !is_accepted(plan.judged.report.verdict()) {
        return tell_verdict(out, &plan.judged);
    }
    let accepted = Accepted::of(&plan.judged.machine);
    let state = &plan.saved.state;
    let ran = match run_state(alloc, accepted, plan.skip, state, SLICE, plan.steps, hw) {
        Ok(ran) => ran,
        Err(_) => return Status::Memory,
    };
    match put_resumed(out, &plan, &ran, hw) {
        Ok(()) => Status::Done,
        Err(_) => Status::WriteFault,
    }
}

/// Puts the text of the command: that of the run, and all the steps that the guest has made.
fn put_resumed<S: Sink, H: Hardware>(
    out: &mut S,
    plan: &ResumePlan,
    ran: &Ran<'_>,
    hw: &H,
) -> Result<(), Failed>
    requires have_run { HaveRun (guest_on (resume_run plan.now)) ran.now (H.machinery hw.now) }
    ensures { Puts (S.written out.old) (S.written out.new) (S.faults out.old) (S.faults out.new)
        (told_on (resume_run plan.now)) result }
{
    let (guests, turns, direct) = (ran.guests(), ran.turns(), ran.direct());
    match put_guests(out, &plan.judged.machine, guests, turns, direct, hw) {
        Ok(()) => {}
        Err(failed) => return Err(failed),
    }
    put_total(out, u64::from(plan.saved.steps) + plan.steps)
}
