//! The machine of a description, for so many cells: the first steps of both commands.

ghost use Rattle.std.specs.Prelude.{◌≡◌, ◌≤◌, IfOk};
ghost use Rattle.pg_cmd_base.specs.Answering.{Comes, OnlyReads};
ghost use Rattle.pg_cmd_plain.specs.Machines.{MachineDue};

use pg_cli_table::{FileName, Grant};
use pg_cmd_base::{Stop, load_machine, no_room};
use pg_edge::Shelf;
use pg_mach_ready::Machine;
use std::alloc::Global;

/// The machine that a file describes, where it has so many cells; or why there is none.
pub(crate) fn load_roomy<F: Shelf>(
    alloc: Global,
    desc: &FileName,
    grant: &Grant,
    shelf: &mut F,
) -> Result<Machine, Stop>
    ensures comes { Comes (λ m. m.desc) (MachineDue (F.files shelf.old) desc.now grant.now) (F.reads shelf.old) (F.reads shelf.new) result }
    ensures room { IfOk result (λ m. grant.now ≤ m.desc.size) }
    ensures reads { OnlyReads F.Shelf shelf.old shelf.new }
{
    let machine = match load_machine(alloc, desc, shelf) {
        Ok(machine) => machine,
        Err(stop) => return Err(stop),
    };
    let (most, cells) = (machine.shape().q, grant.cells());
    if cells > most {
        return Err(no_room(cells, most));
    }
    Ok(machine)
}
