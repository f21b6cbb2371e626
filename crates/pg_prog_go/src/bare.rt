//! The run of a bare machine until it is still, and its text.
//!
//! Description, room and image are loaded (`prepare_bare`), in the order of `pgv bare` (`BareDue`). The machine learns words of the image.
//! Then it runs until it is still (`pg_run_still`), and its text is put, by the views of the words. Memory is taken before its first step
//! only.

ghost use Rattle.std.specs.Prelude.{◌≡◌, None, Some};
ghost use Rattle.pg_edge.specs.Shelf.{Files};
ghost use Rattle.pg_cmd_base.specs.Able.{IsAble};
ghost use Rattle.pg_cmd_base.specs.Answering.{Comes, OnlyReads};
ghost use Rattle.pg_cmd_base.specs.Commands.{Carries, Exactly};
ghost use Rattle.pg_cmd_base.specs.World.{Keeps, around};
ghost use Rattle.pg_cmd_plain.specs.Bare.{BareDue};
ghost use Rattle.pg_prog_go.specs.Bare.{bare_go_command, bare_words};
ghost use Rattle.pg_prog_go.specs.Plans.{bare_go};

use crate::plan::BareGoPlan;
use crate::request::BareGoWords;
use pg_cmd_base::{Status, Stop, StopWatcher, load_image, load_machine, no_room, stopped};
use pg_edge::{Shelf, Sink};
use pg_hw::Settling;
use pg_mach_words::learned;
use pg_run_guests::RunWatcher;
use pg_run_still::{put_stood, run_bare_until_still};
use std::alloc::Global;
use std::slice::from_ref;

/// Carries out `pg_go --bare`.
pub fn carry_bare<F: Shelf, S: Sink, H: Settling, W: StopWatcher + RunWatcher>(
    alloc: Global,
    words: &BareGoWords,
    shelf: &mut F,
    out: &mut S,
    hw: &mut H,
    watcher: &mut W,
) -> Status
    requires able { IsAble H.Hardware hw.old }
    ensures carries { Carries (bare_go_command words.now) (around F.Shelf S.Sink H.Hardware shelf.old out.old hw.old)
        (around F.Shelf S.Sink H.Hardware shelf.new out.new hw.new) result }
    // Where the files are told: a refusal that is due comes, and where work is due none does, but for faults and memory.
    ensures exactly { (files : Files) → F.files shelf.old ≡ Some files → Exactly (bare_go_command words.now)
        (around F.Shelf S.Sink H.Hardware shelf.old out.old hw.old) (around F.Shelf S.Sink H.Hardware shelf.new out.new hw.new) result }
    ensures keeps { Keeps None (around F.Shelf S.Sink H.Hardware shelf.old out.old hw.old)
        (around F.Shelf S.Sink H.Hardware shelf.new out.new hw.new) }
    ensures fixed { H.fixed hw.new ≡ H.fixed hw.old }
{
    carry_out(alloc, words, shelf, out, hw, watcher)
}

/// The same. What is due is one thing, so `carries` alone is shown here.
fn carry_out<F: Shelf, S: Sink, H: Settling, W: StopWatcher + RunWatcher>(
    alloc: Global,
    words: &BareGoWords,
    shelf: &mut F,
    out: &mut S,
    hw: &mut H,
    watcher: &mut W,
) -> Status
    requires able { IsAble H.Hardware hw.old }
    ensures carries { Carries (bare_go_command words.now) (around F.Shelf S.Sink H.Hardware shelf.old out.old hw.old)
        (around F.Shelf S.Sink H.Hardware shelf.new out.new hw.new) result }
    ensures keeps { Keeps None (around F.Shelf S.Sink H.Hardware shelf.old out.old hw.old)
        (around F.Shelf S.Sink H.Hardware shelf.new out.new hw.new) }
    ensures fixed { H.fixed hw.new ≡ H.fixed hw.old }
{
    let plan = match prepare_bare(alloc, words, shelf) {
        Ok(plan) => plan,
        Err(stop) => return stopped(&stop, out, watcher),
    };
    let image = plan.image.as_slice();
    let still = match run_bare_until_still(
        &plan.machine,
        image,
        plan.grant,
        plan.steps,
        hw,
        watcher,
    ) {
        Ok(still) => still,
        Err(_) => return Status::Memory,
    };
    let views = words.views.as_slice();
    match put_stood(out, &plan.machine, plan.steps, still, views, hw) {
        Ok(()) => Status::Done,
        Err(_) => Status::WriteFault,
    }
}

/// The run that is to be done; or why there is none.
fn prepare_bare<F: Shelf>(
    alloc: Global,
    words: &BareGoWords,
    shelf: &mut F,
) -> Result<BareGoPlan, Stop>
    ensures comes { Comes bare_go (BareDue (bare_words words.now) (F.files shelf.old)) (F.reads shelf.old) (F.reads shelf.new) result }
    ensures reads { OnlyReads F.Shelf shelf.old shelf.new }
{
    let machine = match load_machine(alloc, &words.desc, shelf) {
        Ok(machine) => machine,
        Err(stop) => return Err(stop),
    };
    let (most, grant) = (machine.shape().q, words.grant.cells());
    if grant > most {
        return Err(no_room(grant, most));
    }
    match load_image(alloc, 0, &words.image, machine.shape(), grant, shelf) {
        Ok(image) => {
            let steps = words.steps.count;
            let machine = learned(alloc, machine, from_ref(&image), steps);
            Ok(BareGoPlan {
                machine,
                image,
                grant,
                steps,
            })
        }
        Err(stop) => Err(stop),
    }
}
