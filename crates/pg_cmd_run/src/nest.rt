//! `nest`: an image as the guest of the innermost of one to four monitors.
//!
//! Description, room, image and certificate are loaded (`prepare_nest`), in the order of the definition (`NestDue`,
//! `specs/Nest.antt`). Where its verdict does not accept the machine it is told, and nothing runs. Else the image runs under the
//! monitors (`pg_run_guests`), the outermost of which runs on the hardware, and its text is put: that of the same image under
//! one monitor. Memory is taken before the first step; where it is refused no step was made, but some monitors may have been set
//! up.

ghost use Rattle.std.specs.Prelude.{◌≡◌, None};
ghost use Rattle.pg_edge.specs.Sink.{Puts};
ghost use Rattle.pg_run_guests.specs.Nesting.{HoldsNested, IsInnermost};
ghost use Rattle.pg_cmd_base.specs.Able.{IsAble};
ghost use Rattle.pg_cmd_base.specs.Commands.{Carries};
ghost use Rattle.pg_cmd_base.specs.World.{Keeps, around};
ghost use Rattle.pg_cmd_run.specs.Nest.{nest_command, told_of};
ghost use Rattle.pg_cmd_run.specs.NestPlans.{nest_run};

use crate::nest_plan::NestPlan;
use crate::nest_preparing::prepare_nest;
use pg_cli_table::NestWords;
use pg_cmd_base::{Status, StopWatcher, stopped};
use pg_cmd_certs::{is_accepted, tell_verdict};
use pg_edge::{Failed, Shelf, Sink};
use pg_hw::Hardware;
use pg_mon_control::{Guest, KEPT_CELLS};
use pg_report::put_steps;
use pg_run_guests::{Innermost, nest, put_one_guest};
use pg_type::Accepted;
use std::alloc::Global;

/// Carries out `nest`.
pub fn carry_nest<F: Shelf, S: Sink, H: Hardware, W: StopWatcher>(
    alloc: Global,
    words: &NestWords,
    shelf: &mut F,
    out: &mut S,
    hw: &mut H,
    watcher: &mut W,
) -> Status
    requires able { IsAble H.Hardware hw.old }
    ensures carries { Carries (nest_command words.now) (around F.Shelf S.Sink H.Hardware shelf.old out.old hw.old)
        (around F.Shelf S.Sink H.Hardware shelf.new out.new hw.new) result }
    ensures keeps { Keeps None (around F.Shelf S.Sink H.Hardware shelf.old out.old hw.old)
        (around F.Shelf S.Sink H.Hardware shelf.new out.new hw.new) }
    ensures fixed { H.fixed hw.new ≡ H.fixed hw.old }
{
    let plan = match prepare_nest(alloc, words, shelf) {
        Ok(plan) => plan,
        Err(stop) => return stopped(&stop, out, watcher),
    };
    if !is_accepted(plan.judged.report.verdict()) {
        return tell_verdict(out, &plan.judged);
    }
    let accepted = Accepted::of(&plan.judged.machine);
    let innermost = match nest(alloc, accepted, &plan.image, plan.depth, plan.steps, hw) {
        Ok(innermost) => innermost,
        Err(_) => return Status::Memory,
    };
    match put_nested(out, &plan, innermost, hw) {
        Ok(()) => Status::Done,
        Err(_) => Status::WriteFault,
    }
}

/// Puts the text of the run: the state of the guest, whose cells lie behind those of all monitors, and the counts of its steps.
fn put_nested<S: Sink, H: Hardware>(
    out: &mut S,
    plan: &NestPlan,
    innermost: Innermost,
    hw: &H,
) -> Result<(), Failed>
    requires innermost { IsInnermost plan.now.judged.machine.desc plan.now.image plan.now.steps innermost }
    requires holds { HoldsNested plan.now.depth plan.now.judged.machine.desc plan.now.image plan.now.steps (H.machinery hw.now).state }
    ensures { Puts (S.written out.old) (S.written out.new) (S.faults out.old) (S.faults out.new) (told_of (nest_run plan.now)) result }
{
    let guest = Guest {
        base: KEPT_CELLS * plan.depth,
        size: plan.grant,
        psw: innermost.psw,
    };
    match put_one_guest(out, &plan.judged.machine, guest, 0, hw) {
        Ok(()) => {}
        Err(failed) => return Err(failed),
    }
    put_steps(out, plan.steps, innermost.direct)
}
