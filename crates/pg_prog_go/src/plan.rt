//! Runs until all is still, made ready: what was tried on the way stands in their ghost fields, so nothing is tested again.

ghost use Rattle.std.specs.Prelude.{◌≡◌, All, length};
ghost use Rattle.pg_run_guests.specs.Runs.{run_of};
ghost use Rattle.pg_run_still.specs.Bare.{CanStand};
ghost use Rattle.pg_run_still.specs.Running.{CanGo};

use pg_cmd_certs::JudgedMachine;
use pg_image::Image;
use pg_mach_ready::Machine;
use sqlite_items::Items;

/// A run of guests until each is still, and the certificate by which it may be done.
#[derive(Drop)]
pub(crate) struct GoPlan {
    /// The machine, and what is kept of its certificate.
    pub(crate) judged: JudgedMachine,
    /// The words of each guest's cells when it is switched on: 1 to 8 images, each of two words or more, of the machine's width.
    pub(crate) images: Items<Image>,
    /// How many cells each guest is granted.
    pub(crate) grant: u32,
    /// How many steps a guest does before the next has its turn: 1 to 1,000,000.
    pub(crate) slice: u64,
    /// How many steps each guest does at most.
    pub(crate) steps: u64,
    /// There is such a run.
    pub(crate) ghost can_go: { CanGo (run_of judged.machine images slice steps) },
    /// Each image has the granted size.
    pub(crate) ghost filled: { All (λ image. length image ≡ grant) images },
}

/// A run of a bare machine until it is still.
#[derive(Drop)]
pub(crate) struct BareGoPlan {
    /// The machine.
    pub(crate) machine: Machine,
    /// The words of its cells when it is switched on: `grant` of them, each of the machine's width.
    pub(crate) image: Image,
    /// How many cells it is given: from 2 to the size of the machine.
    pub(crate) grant: u32,
    /// How many steps it does at most.
    pub(crate) steps: u64,
    /// There is such a run.
    pub(crate) ghost can_stand: { CanStand machine.desc grant image },
}
