//! A run of a bare machine, made ready: what was tried on the way stands in its ghost field, so nothing is tested again.

ghost use Rattle.pg_cmd_plain.specs.CanRuns.{CanRun};

use pg_image::Image;
use pg_mach_ready::Machine;

/// A run of a bare machine.
#[derive(Drop)]
pub(crate) struct BarePlan {
    /// The machine.
    pub(crate) machine: Machine,
    /// The words of its cells when it is switched on: `grant` of them, each of the machine's width.
    pub(crate) image: Image,
    /// How many cells it is given: from 2 to the size of the machine.
    pub(crate) grant: u32,
    /// How many steps it does, exactly: at most 1,000,000.
    pub(crate) steps: u64,
    /// There is such a run.
    pub(crate) ghost can_run: { CanRun machine.desc.word machine.desc.size grant steps image },
}
