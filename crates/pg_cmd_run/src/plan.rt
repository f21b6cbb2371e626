//! A run of guests, made ready: what was tried on the way stands in its ghost fields, so nothing is tested again.

ghost use Rattle.std.specs.Prelude.{◌≡◌, All, length};
ghost use Rattle.pg_run_guests.specs.Runs.{run_of};
ghost use Rattle.pg_run_guests.specs.Setting.{CanRun};

use pg_cmd_certs::JudgedMachine;
use pg_image::Image;
use sqlite_items::Items;

/// A run of guests under a monitor, and the certificate by which it may be done.
#[derive(Drop)]
pub(crate) struct RunPlan {
    /// The machine, and what is kept of its certificate.
    pub(crate) judged: JudgedMachine,
    /// The words of each guest's cells when it is switched on: 1 to 8 images, each of two words or more, of the machine's
    /// width.
    pub(crate) images: Items<Image>,
    /// How many cells each guest is granted.
    pub(crate) grant: u32,
    /// How many steps a guest does before the next has its turn: 1 to 1,000,000.
    pub(crate) slice: u64,
    /// How many steps each guest does, exactly: at most 1,000,000.
    pub(crate) steps: u64,
    /// There is such a run.
    pub(crate) ghost can_run: { CanRun (run_of judged.machine images slice steps) },
    /// Each image has the granted size.
    pub(crate) ghost filled: { All (λ image. length image ≡ grant) images },
}
