//! A run under one to four monitors, made ready: what was tried on the way stands in its ghost fields, so nothing is tried again.

ghost use Rattle.std.specs.Prelude.{◌≡◌, ◌≤◌, length};
ghost use Rattle.pg_run_guests.specs.Nesting.{CanNest};

use pg_cmd_certs::JudgedMachine;
use pg_image::Image;

/// A run of an image under monitors, each but the outermost on the guest of the one below it, and the certificate by which it may be done.
#[derive(Drop)]
pub(crate) struct NestPlan {
    /// The machine, and what is kept of its certificate.
    pub(crate) judged: JudgedMachine,
    /// The words of the guest's cells when it is switched on.
    pub(crate) image: Image,
    /// How many cells the guest is granted.
    pub(crate) grant: u32,
    /// How many monitors there are: 1 to 4.
    pub(crate) depth: u32,
    /// How many steps the guest does, exactly.
    pub(crate) steps: u64,
    /// There is such a run.
    pub(crate) ghost can_nest: { CanNest depth judged.machine.desc image steps },
    /// The image has the granted size.
    pub(crate) ghost filled: { length image ≡ grant },
    /// One at least.
    pub(crate) ghost least: { 1 ≤ depth },
    /// Four at most.
    pub(crate) ghost most: { depth ≤ 4 },
}
