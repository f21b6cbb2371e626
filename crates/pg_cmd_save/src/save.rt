//! `save`: an image as a guest of a monitor, and the state that it reaches saved.
//!
//! Description, room, image and certificate are loaded (`preparing`). Where its verdict does not accept the machine it is told,
//! and nothing runs. Else room for the saved text is reserved, the image runs as the one guest of a monitor (`pg_run_guests`), and the
//! text of its state is put into that room (`run_plan`): all memory is taken before the first turn. Then the text is saved, and
//! behind that the text of the run is put.

ghost use Rattle.std.specs.Prelude.{◌≡◌, IfOk, OnOk, OnErr};
ghost use Rattle.pg_run_guests.specs.HaveRun.{HaveRun};
ghost use Rattle.pg_run_guests.specs.UnderMonitor.{RanGuests};
ghost use Rattle.pg_run_guests.specs.Setting.{SetUp};
ghost use Rattle.pg_cmd_base.specs.Able.{IsAble};
ghost use Rattle.pg_cmd_base.specs.Commands.{Carries};
ghost use Rattle.pg_cmd_base.specs.World.{Keeps, around};
ghost use Rattle.pg_cmd_save.specs.Plans.{save_run};
ghost use Rattle.pg_cmd_save.specs.Save.{guest_of, save_command, saved_of};
ghost use Rattle.pg_type.specs.Accepting.{IsAccepted};

mod plan;
mod preparing;

use pg_cli_table::SaveWords;
use pg_cmd_base::{Status, StopWatcher, stopped};
use pg_cmd_certs::{is_accepted, save_text, tell_verdict};
use pg_edge::{Shelf, Sink};
use pg_hw::Hardware;
use pg_move::{put_saved, saved_room};
use pg_run_guests::{Ran, put_guests, run_guests};
use pg_type::Accepted;
use plan::SavePlan;
use preparing::prepare_save;
use std::alloc::{AllocError, Global};
use std::slice::from_ref;

/// How many turns the one guest has in a slice: all that it may have.
pub(crate) const SLICE: u64 = 1_000_000;

/// A guest behind its last turn, and the text that is to be saved of it.
#[derive(Drop)]
struct SavedRun<'m> {
    /// The guest under its monitor.
    ran: Ran<'m>,
    /// The whole text.
    text: Vec<u8>,
}

/// Carries out `save`.
pub fn carry_save<F: Shelf, S: Sink, H: Hardware, W: StopWatcher>(
    alloc: Global,
    words: &SaveWords,
    shelf: &mut F,
    out: &mut S,
    hw: &mut H,
    watcher: &mut W,
) -> Status
    requires able { IsAble H.Hardware hw.old }
    ensures carries { Carries (save_command words.now) (around F.Shelf S.Sink H.Hardware shelf.old out.old hw.old)
        (around F.Shelf S.Sink H.Hardware shelf.new out.new hw.new) result }
    ensures keeps { Keeps (save_command words.now).saved (around F.Shelf S.Sink H.Hardware shelf.old out.old hw.old)
        (around F.Shelf S.Sink H.Hardware shelf.new out.new hw.new) }
    ensures fixed { H.fixed hw.new ≡ H.fixed hw.old }
{
    let plan = match prepare_save(alloc, words, shelf) {
        Ok(plan) => plan,
        Err(stop) => return stopped(&stop, out, watcher),
    };
    if !is_accepted(plan.judged.report.verdict()) {
        return tell_verdict(out, &plan.judged);
    }
    let saved = match run_plan(alloc, &plan, hw) {
        Ok(saved) => saved,
        Err(_) => return Status::Memory,
    };
    match save_text(shelf, &words.file, saved.text.as_slice()) {
        Ok(()) => {}
        Err(_) => return Status::WriteFault,
    }
    let (guests, turns, direct) = (saved.ran.guests(), saved.ran.turns(), saved.ran.direct());
    match put_guests(out, &plan.judged.machine, guests, turns, direct, hw) {
        Ok(()) => Status::Done,
        Err(_) => Status::WriteFault,
    }
}

/// The guest of a plan, behind its last turn, and its saved text, for which there was room before its first turn. The error is
/// out of memory, and then no turn was made.
fn run_plan<'m, H: Hardware>(
    alloc: Global,
    plan: &'m SavePlan,
    hw: &mut H,
) -> Result<SavedRun<'m>, AllocError>
    requires accepted { IsAccepted plan.now.judged.machine.desc }
    requires able { IsAble H.Hardware hw.old }
    ensures ran { OnOk result (RanGuests (guest_of (save_run plan.now)) (H.machinery hw.old) (H.machinery hw.new)) }
    ensures have_run { IfOk result (λ run. HaveRun (guest_of (save_run plan.now)) run.ran (H.machinery hw.new)) }
    ensures text { IfOk result (λ run. run.text.items ≡ saved_of (save_run plan.now)) }
    ensures set_up { OnErr result (SetUp (guest_of (save_run plan.now)) (H.machinery hw.old) (H.machinery hw.new)) }
    ensures fixed { H.fixed hw.new ≡ H.fixed hw.old }
{
    let machine = &plan.judged.machine;
    let room = saved_room(machine.shape(), plan.grant);
    let mut text = match Vec::with_capacity(alloc, room) {
        Ok(text) => text,
        Err(refused) => return Err(refused),
    };
    let accepted = Accepted::of(machine);
    let (images, steps) = (from_ref(&plan.image), u64::from(plan.steps));
    let ran = match run_guests(alloc, accepted, images, SLICE, steps, hw) {
        Ok(ran) => ran,
        Err(refused) => return Err(refused),
    };
    put_saved(ran.monitor(), hw, 0, plan.steps, &mut text);
    Ok(SavedRun { ran, text })
}
