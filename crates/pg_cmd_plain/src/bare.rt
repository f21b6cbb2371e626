//! `bare`: a run of a bare machine.
//!
//! The description is loaded, the room is tried and the image is loaded (`prepare_bare`), in the order of its definition
//! (`BareDue`, `specs/Bare.antt`): the first step that refuses gives the answer, so the order says which of several faults is
//! told. The machine learns words of the image, as many as pay for so many steps. Then it runs on the hardware (`run_bare`), and
//! the state that it reached is put. Memory is taken for the machine's cells and none from the first step on, so that nothing but
//! the sink can still refuse.

ghost use Rattle.std.specs.Prelude.{◌≡◌, None, OnOk, OnErr};
ghost use Rattle.pg_edge.specs.Sink.{Puts};
ghost use Rattle.pg_image.specs.Lines.{state_text};
ghost use Rattle.pg_cmd_plain.specs.Bare.{BareDue, RanBare, bare_command, reached};
ghost use Rattle.pg_cmd_base.specs.Commands.{Carries};
ghost use Rattle.pg_cmd_base.specs.Answering.{Comes, OnlyReads};
ghost use Rattle.pg_cmd_base.specs.Able.{IsAble};
ghost use Rattle.pg_cmd_plain.specs.Plans.{bare_run};
ghost use Rattle.pg_cmd_base.specs.World.{Keeps, around};

mod plan;

use pg_cli_table::BareWords;
use pg_cmd_base::{Status, Stop, StopWatcher, load_image, load_machine, no_room, stopped};
use pg_edge::{Failed, Shelf, Sink};
use pg_hw::{Hardware, bare, power_on};
use pg_mach_words::learned;
use pg_report::put_state;
use plan::BarePlan;
use std::alloc::{AllocError, Global};
use std::slice::from_ref;

/// Carries out `bare`.
pub fn carry_bare<F: Shelf, S: Sink, H: Hardware, W: StopWatcher>(
    alloc: Global,
    words: &BareWords,
    shelf: &mut F,
    out: &mut S,
    hw: &mut H,
    watcher: &mut W,
) -> Status
    requires able { IsAble H.Hardware hw.old }
    ensures carries { Carries (bare_command words.now) (around F.Shelf S.Sink H.Hardware shelf.old out.old hw.old)
        (around F.Shelf S.Sink H.Hardware shelf.new out.new hw.new) result }
    ensures keeps { Keeps None (around F.Shelf S.Sink H.Hardware shelf.old out.old hw.old)
        (around F.Shelf S.Sink H.Hardware shelf.new out.new hw.new) }
    ensures fixed { H.fixed hw.new ≡ H.fixed hw.old }
{
    let plan = match prepare_bare(alloc, words, shelf) {
        Ok(plan) => plan,
        Err(stop) => return stopped(&stop, out, watcher),
    };
    match run_bare(&plan, hw) {
        Ok(()) => {}
        Err(_) => return Status::Memory,
    }
    match put_reached(&plan, hw, out) {
        Ok(()) => Status::Done,
        Err(_) => Status::WriteFault,
    }
}

/// The run that is to be done; or why there is none.
fn prepare_bare<F: Shelf>(alloc: Global, words: &BareWords, shelf: &mut F) -> Result<BarePlan, Stop>
    ensures comes { Comes bare_run (BareDue words.now (F.files shelf.old)) (F.reads shelf.old) (F.reads shelf.new) result }
    ensures reads { OnlyReads F.Shelf shelf.old shelf.new }
{
    let machine = match load_machine(alloc, &words.desc, shelf) {
        Ok(machine) => machine,
        Err(stop) => return Err(stop),
    };
    let (most, grant) = (machine.shape().q, words.grant.cells());
    if grant > most {
        return Err(no_room(grant, most));
    }
    match load_image(alloc, 0, &words.image, machine.shape(), grant, shelf) {
        Ok(image) => {
            let steps = words.steps.count();
            let machine = learned(alloc, machine, from_ref(&image), steps);
            Ok(BarePlan {
                machine,
                image,
                grant,
                steps,
            })
        }
        Err(stop) => Err(stop),
    }
}

/// Runs a bare machine on the hardware. No memory is taken from its first step on.
fn run_bare<H: Hardware>(plan: &BarePlan, hw: &mut H) -> Result<(), AllocError>
    requires able { IsAble H.Hardware hw.old }
    ensures ran { OnOk result (RanBare (bare_run plan.now) (H.machinery hw.old) (H.machinery hw.new)) }
    ensures refused { OnErr result ((H.machinery hw.new) ≡ (H.machinery hw.old)) }
    ensures fixed { H.fixed hw.new ≡ H.fixed hw.old }
{
    match hw.install(plan.grant) {
        Ok(()) => {}
        Err(refused) => return Err(refused),
    }
    power_on(hw, plan.image.as_slice());
    bare(hw, &plan.machine, plan.steps);
    Ok(())
}

/// Puts the text of the state that was reached, which the hardware holds.
fn put_reached<S: Sink, H: Hardware>(plan: &BarePlan, hw: &H, out: &mut S) -> Result<(), Failed>
    requires { (H.machinery hw.now).state ≡ reached (bare_run plan.now) }
    ensures { let r = bare_run plan.now in
        Puts (S.written out.old) (S.written out.new) (S.faults out.old) (S.faults out.new)
        (state_text r.desc.word (reached r).cells (reached r).psw) result }
{
    let psw = hw.psw();
    put_state(out, plan.machine.shape(), hw, 0, plan.grant, psw)
}
