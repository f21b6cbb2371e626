//! The turns of guests.

ghost use Rattle.std.specs.Prelude.{◌≡◌, ◌+◌, ◌*◌, ◌<◌, ◌≤◌, ◌^◌, length, map, IfOk, OnOk, OnErr};
ghost use Rattle.pg_lang_meaning.specs.Steps.{steps as stepped};
ghost use Rattle.pg_hw.specs.Serving.{IsServed};
ghost use Rattle.pg_mon_control.specs.Counting.{CanCount};
ghost use Rattle.pg_mon_control.specs.Guests.{virtuals};
ghost use Rattle.pg_mon_control.specs.Schedules.{schedule};
ghost use Rattle.pg_mon_control.specs.Standing.{Stands};
ghost use Rattle.pg_monitor.specs.Monitors.{desc_of};
ghost use Rattle.pg_monitor.specs.Plans.{Followed};
ghost use Rattle.pg_run_guests.specs.Runs.{run_of};
ghost use Rattle.pg_run_guests.specs.Setting.{CanRun, SetUp};
ghost use Rattle.pg_type.specs.Listed.{state_of};
ghost use Rattle.pg_run_guests.specs.UnderMonitor.{RanGuests, state_run};
ghost use Rattle.pg_run_guests.specs.HaveRun.{HaveRun};

use crate::starting::{start, start_state};
use pg_hw::Hardware;
use pg_image::Image;
use pg_monitor::{Guest, Monitor};
use pg_type::Accepted;
use pg_word::Sparse;
use std::alloc::{AllocError, Global};

/// Guests that ran: their monitor, and the counts of their turns.
#[derive(Drop)]
pub struct Ran<'m> {
    monitor: Monitor<'m>,
    /// How many turns they had, all together.
    turns: u64,
    /// How many of these the hardware executed untrapped.
    direct: u64,
}

impl<'m> Ran<'m> {
    /// Their monitor.
    pub fn monitor(&self) -> &Monitor<'m>
        ensures { result.now ≡ self.now.monitor }
    {
        &self.monitor
    }

    /// The guests, in the order of their numbers, behind their last turn.
    pub fn guests(&self) -> &[Guest]
        ensures { result.now ≡ self.now.monitor.guests }
    {
        self.monitor.guests()
    }

    /// How many turns they had, all together.
    pub fn turns(&self) -> u64
        ensures { result ≡ self.now.turns }
    {
        self.turns
    }

    /// How many of these the hardware executed untrapped.
    pub fn direct(&self) -> u64
        ensures { result ≡ self.now.direct }
    {
        self.direct
    }
}

/// Runs images as guests of one monitor on the hardware, by slices, until each has had so many turns.
///
/// The hardware is given the machine's greatest size. Each image has a grant of its own size, one behind the other from cell
/// 2 on, and is switched on in it. Guest 0 has a slice of turns, then guest 1, and so on, and round again; the last slice is
/// shorter where need be. A slice is one burst of the hardware as long as its steps are direct.
///
/// # Errors
/// Only for lack of memory, and then no turn was made: the hardware is as it was, installed, or some images are loaded.
pub fn run_guests<'m, H: Hardware>(
    alloc: Global,
    accepted: Accepted<'m>,
    images: &[Image],
    slice: u64,
    steps: u64,
    hw: &mut H,
) -> Result<Ran<'m>, AllocError>
    requires served { IsServed (H.serves (H.fixed hw.old)) accepted.machine.now.desc }
    requires room { accepted.machine.now.desc.size ≤ H.room (H.fixed hw.old) }
    requires counts { CanCount (H.machinery hw.old).tally }
    requires can_run { CanRun (run_of accepted.machine.now images.now slice steps) }
    ensures have_run { IfOk result (λ ran. HaveRun (run_of accepted.entry.machine.now images.now slice steps) ran (H.machinery hw.new)) }
    ensures ran { OnOk result (RanGuests (run_of accepted.entry.machine.now images.now slice steps) (H.machinery hw.old)
        (H.machinery hw.new)) }
    ensures set_up { OnErr result (SetUp (run_of accepted.entry.machine.now images.now slice steps) (H.machinery hw.old)
        (H.machinery hw.new)) }
    ensures fixed { H.fixed hw.new ≡ H.fixed hw.old }
{
    let mut monitor = match start(alloc, accepted, images, hw) {
        Ok(monitor) => monitor,
        Err(refused) => return Err(refused),
    };
    Ok(run_on(monitor, slice, steps, hw))
}

/// Runs a state as the one guest of a monitor on the hardware, by slices, until it has had so many turns.
///
/// The hardware is given the machine's greatest size. Behind the two cells that the monitor keeps so many are held for no
/// guest, `skip` of them, which may be 0; behind these the state has a grant of its own size, and goes on in it. No held cell
/// is touched. A slice is one burst of the hardware as long as its steps are direct.
///
/// # Errors
/// Only for lack of memory, and then no turn was made: the hardware is as it was, installed, or the state is loaded.
pub fn run_state<'m, H: Hardware>(
    alloc: Global,
    accepted: Accepted<'m>,
    skip: u32,
    state: &Sparse,
    slice: u64,
    steps: u64,
    hw: &mut H,
) -> Result<Ran<'m>, AllocError>
    requires served { IsServed (H.serves (H.fixed hw.old)) accepted.machine.now.desc }
    requires room { accepted.machine.now.desc.size ≤ H.room (H.fixed hw.old) }
    requires counts { CanCount (H.machinery hw.old).tally }
    requires can_run { CanRun (state_run accepted.machine.now skip (state_of state.now) slice steps) }
    ensures have_run { IfOk result (λ ran. HaveRun (state_run accepted.entry.machine.now skip (state_of state.now) slice steps)
        ran (H.machinery hw.new)) }
    ensures ran { OnOk result (RanGuests (state_run accepted.entry.machine.now skip (state_of state.now) slice steps)
        (H.machinery hw.old) (H.machinery hw.new)) }
    ensures set_up { OnErr result (SetUp (state_run accepted.entry.machine.now skip (state_of state.now) slice steps)
        (H.machinery hw.old) (H.machinery hw.new)) }
    ensures fixed { H.fixed hw.new ≡ H.fixed hw.old }
{
    let monitor = match start_state(alloc, accepted, skip, state, hw) {
        Ok(monitor) => monitor,
        Err(refused) => return Err(refused),
    };
    Ok(run_on(monitor, slice, steps, hw))
}

/// The turns of a monitor's guests, by slices.
fn run_on<'m, H: Hardware>(mut monitor: Monitor<'m>, slice: u64, steps: u64, hw: &mut H) -> Ran<'m>
    requires served { IsServed (H.serves (H.fixed hw.old)) (desc_of monitor) }
    requires stands { Stands (desc_of monitor) (H.machinery hw.old).state monitor.guests monitor.current }
    requires some { 1 ≤ slice }
    requires counted { length monitor.guests * steps ≤ 2 ^ 32 }
    requires count { (H.machinery hw.old).tally.untrapped < 2 ^ 63 }
    ensures machine { result.monitor.accepted.machine.now ≡ monitor.entry.accepted.machine.now }
    ensures stands { Stands (desc_of monitor.entry) (H.machinery hw.new).state result.monitor.guests result.monitor.current }
    ensures states { virtuals (H.machinery hw.new).state.cells result.monitor.guests ≡ map
        (stepped (desc_of monitor.entry) steps) (virtuals (H.machinery hw.old).state.cells monitor.entry.guests) }
    ensures followed { Followed (desc_of monitor.entry) (schedule (length monitor.entry.guests) slice steps)
        (H.machinery hw.old) (H.machinery hw.new) monitor.entry.guests result.monitor.guests monitor.entry.current result.monitor.current }
    ensures turns { result.turns ≡ length monitor.entry.guests * steps }
    ensures direct { (H.machinery hw.old).tally.untrapped + result.direct ≡ (H.machinery hw.new).tally.untrapped }
    ensures fixed { H.fixed hw.new ≡ H.fixed hw.old }
{
    let before = hw.counts().untrapped;
    monitor.run_sliced(hw, slice, steps);
    Ran {
        turns: monitor.len() as u64 * steps,
        direct: hw.counts().untrapped - before,
        monitor,
    }
}
