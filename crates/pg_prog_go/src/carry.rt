//! The run of guests until each is still, and its text.
//!
//! Description, room, images and certificate are loaded (`prepare_go`), in the order of the definition (`GoDue`, `specs/Going.antt`).
//! Where its verdict does not accept the machine it is told, and nothing runs. Else the images run as guests of one monitor
//! (`pg_run_still`), and their text is put, by the views of the words. Memory is taken before the first turn; where it is refused no turn was made, but the
//! hardware may be set up (`SetUp`).

ghost use Rattle.std.specs.Prelude.{◌≡◌, None, Some};
ghost use Rattle.pg_edge.specs.Shelf.{Files};
ghost use Rattle.pg_cmd_base.specs.Able.{IsAble};
ghost use Rattle.pg_cmd_base.specs.Commands.{Carries, Exactly};
ghost use Rattle.pg_cmd_base.specs.World.{Keeps, around};
ghost use Rattle.pg_prog_go.specs.Going.{go_command};

use crate::preparing::prepare_go;
use crate::request::GoWords;
use pg_cmd_base::{Status, StopWatcher, stopped};
use pg_cmd_certs::{is_accepted, tell_verdict};
use pg_edge::{Shelf, Sink};
use pg_hw::Settling;
use pg_run_guests::RunWatcher;
use pg_run_still::{put_rested, run_until_still};
use std::alloc::Global;

/// Carries out `pg_go`.
pub fn carry_go<F: Shelf, S: Sink, H: Settling, W: StopWatcher + RunWatcher>(
    alloc: Global,
    words: &GoWords,
    shelf: &mut F,
    out: &mut S,
    hw: &mut H,
    watcher: &mut W,
) -> Status
    requires able { IsAble H.Hardware hw.old }
    ensures carries { Carries (go_command words.now) (around F.Shelf S.Sink H.Hardware shelf.old out.old hw.old)
        (around F.Shelf S.Sink H.Hardware shelf.new out.new hw.new) result }
    // Where the files are told: a refusal that is due comes, and where work is due none does, but for faults and memory.
    ensures exactly { (files : Files) → F.files shelf.old ≡ Some files → Exactly (go_command words.now)
        (around F.Shelf S.Sink H.Hardware shelf.old out.old hw.old) (around F.Shelf S.Sink H.Hardware shelf.new out.new hw.new) result }
    ensures keeps { Keeps None (around F.Shelf S.Sink H.Hardware shelf.old out.old hw.old)
        (around F.Shelf S.Sink H.Hardware shelf.new out.new hw.new) }
    ensures fixed { H.fixed hw.new ≡ H.fixed hw.old }
{
    carry_out(alloc, words, shelf, out, hw, watcher)
}

/// The same. What is due is one thing, so `carries` alone is shown here.
fn carry_out<F: Shelf, S: Sink, H: Settling, W: StopWatcher + RunWatcher>(
    alloc: Global,
    words: &GoWords,
    shelf: &mut F,
    out: &mut S,
    hw: &mut H,
    watcher: &mut W,
) -> Status
    requires able { IsAble H.Hardware hw.old }
    ensures carries { Carries (go_command words.now) (around F.Shelf S.Sink H.Hardware shelf.old out.old hw.old)
        (around F.Shelf S.Sink H.Hardware shelf.new out.new hw.new) result }
    ensures keeps { Keeps None (around F.Shelf S.Sink H.Hardware shelf.old out.old hw.old)
        (around F.Shelf S.Sink H.Hardware shelf.new out.new hw.new) }
    ensures fixed { H.fixed hw.new ≡ H.fixed hw.old }
{
    let plan = match prepare_go(alloc, words, shelf) {
        Ok(plan) => plan,
        Err(stop) => return stopped(&stop, out, watcher),
    };
    if !is_accepted(plan.judged.report.verdict()) {
        return tell_verdict(out, &plan.judged);
    }
    let accepted = pg_type::Accepted::of(&plan.judged.machine);
    let images = plan.images.as_slice();
    let ran = match run_until_still(alloc, accepted, images, plan.slice, plan.steps, hw, watcher) {
        Ok(ran) => ran,
        Err(_) => return Status::Memory,
    };
    match put_rested(out, &plan.judged.machine, &ran, words.views.as_slice(), hw) {
        Ok(()) => Status::Done,
        Err(_) => Status::WriteFault,
    }
}
