//! Runs of images that end: from the hardware on.

ghost use Rattle.std.specs.Prelude.{◌≡◌, ◌≤◌, OnErr, IfOk};
ghost use Rattle.pg_hw.specs.Serving.{IsServed};
ghost use Rattle.pg_mon_control.specs.Counting.{CanCount};
ghost use Rattle.pg_run_guests.specs.Runs.{run_of};
ghost use Rattle.pg_run_guests.specs.Setting.{SetUp};
ghost use Rattle.pg_run_still.specs.Rested.{HaveRested};
ghost use Rattle.pg_run_still.specs.Running.{CanGo};

use crate::rounds::{Rest, Rests, run_rounds};
use pg_hw::Settling;
use pg_image::Image;
use pg_monitor::{Guest, Monitor};
use pg_run_guests::{RunWatcher, start};
use pg_type::Accepted;
use std::alloc::{AllocError, Global};

/// Guests that ran until they were still, or had all their turns.
#[derive(Drop)]
pub struct Rested<'m> {
    monitor: Monitor<'m>,
    rests: Rests,
    /// How many turns they had, all together.
    turns: u64,
    /// How many of these the hardware executed untrapped.
    direct: u64,
}

impl<'m> Rested<'m> {
    /// The guests, in the order of their numbers, behind their last turn.
    pub fn guests(&self) -> &[Guest]
        ensures { result.now ≡ self.now.monitor.guests }
    {
        self.monitor.guests()
    }

    /// What is told of each.
    pub fn rests(&self) -> &[Rest]
        ensures { result.now ≡ self.now.rests.items }
    {
        self.rests.as_slice()
    }

    /// How many turns they had, all together.
    pub fn turns(&self) -> u64
        ensures { result ≡ self.now.turns }
    {
        self.turns
    }

    /// How many of these the hardware executed untrapped.
    pub fn direct(&self) -> u64
        ensures { result ≡ self.now.direct }
    {
        self.direct
    }
}

/// Runs images as guests of one monitor on the hardware, by slices, each until it is still or has had `steps` turns.
///
/// The hardware is given the machine's greatest size. Each image has a grant of its own size, one behind the other from cell
/// 2 on, and is switched on in it. A slice is one burst of the hardware as long as its steps are direct. The watcher is told how far
/// they have come.
///
/// # Errors
/// Only for lack of memory, and then no turn was made: the hardware is as it was, installed, or some images are loaded.
pub fn run_until_still<'m, H: Settling, W: RunWatcher>(
    alloc: Global,
    accepted: Accepted<'m>,
    images: &[Image],
    slice: u64,
    steps: u64,
    hw: &mut H,
    watcher: &mut W,
) -> Result<Rested<'m>, AllocError>
    requires served { IsServed (H.serves (H.fixed hw.old)) accepted.machine.now.desc }
    requires room { accepted.machine.now.desc.size ≤ H.room (H.fixed hw.old) }
    requires counts { CanCount (H.machinery hw.old).tally }
    requires can_go { CanGo (run_of accepted.machine.now images.now slice steps) }
    ensures rested { IfOk result (λ ran. HaveRested (run_of accepted.entry.machine.now images.now slice steps) ran (H.machinery hw.old) (H.machinery hw.new)) }
    ensures set_up { OnErr result (SetUp (run_of accepted.entry.machine.now images.now slice steps) (H.machinery hw.old)
        (H.machinery hw.new)) }
    ensures fixed { H.fixed hw.new ≡ H.fixed hw.old }
{
    let mut monitor = match start(alloc, accepted, images, hw) {
        Ok(monitor) => monitor,
        Err(refused) => return Err(refused),
    };
    let before = hw.counts();
    let rests = run_rounds(&mut monitor, hw, slice, steps, watcher);
    let after = hw.counts();
    Ok(Rested {
        monitor,
        rests,
        turns: after.steps - before.steps,
        direct: after.untrapped - before.untrapped,
    })
}
