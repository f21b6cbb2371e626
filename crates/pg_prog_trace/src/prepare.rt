//! The files to a run that can be done, in the order of `pgv bare`, and of `pgv run` up to the certificate.

ghost use Rattle.std.specs.Prelude.{◌≡◌, ◌+◌, ◌≤◌, IfOk};
ghost use Rattle.pg_cmd_base.specs.Answering.{Comes, OnlyReads};
ghost use Rattle.pg_prog_trace.specs.Plans.{planned_run, RunDue, behind_room};

use crate::plan::Plan;
use pg_cli_table::BareWords;
use pg_cmd_base::{Stop, load_image, load_machine, try_room};
use pg_edge::Shelf;
use pg_mach_ready::Machine;
use std::alloc::Global;

/// The run that is to be done beside so many cells, which a monitor keeps; or why there is none.
pub fn prepare<F: Shelf>(
    alloc: Global,
    kept: u32,
    words: &BareWords,
    shelf: &mut F,
) -> Result<Plan, Stop>
    ensures comes { Comes planned_run (RunDue kept words.now (F.files shelf.old)) (F.reads shelf.old) (F.reads shelf.new) result }
    ensures room { IfOk result (λ p. kept + p.grant ≤ p.machine.desc.size) }
    ensures reads { OnlyReads F.Shelf shelf.old shelf.new }
{
    let machine = match load_machine(alloc, &words.desc, shelf) {
        Ok(machine) => machine,
        Err(stop) => return Err(stop),
    };
    match try_room(words.grant.cells(), kept, machine.shape()) {
        Ok(()) => prepare_behind_room(alloc, words, machine, shelf),
        Err(stop) => Err(stop),
    }
}

/// Behind the room: the image.
fn prepare_behind_room<F: Shelf>(
    alloc: Global,
    words: &BareWords,
    machine: Machine,
    shelf: &mut F,
) -> Result<Plan, Stop>
    requires { words.now.grant ≤ machine.desc.size }
    ensures comes { Comes planned_run (behind_room words.now (F.files shelf.old) machine.desc words.now.grant) (F.reads shelf.old)
        (F.reads shelf.new) result }
    ensures same { IfOk result (λ p. p.machine.desc ≡ machine.desc) }
    ensures grant { IfOk result (λ p. p.grant ≡ words.now.grant) }
    ensures reads { OnlyReads F.Shelf shelf.old shelf.new }
{
    let grant = words.grant.cells();
    match load_image(alloc, 0, &words.image, machine.shape(), grant, shelf) {
        Ok(image) => Ok(Plan {
            machine,
            image,
            grant,
            steps: words.steps.count(),
        }),
        Err(stop) => Err(stop),
    }
}
