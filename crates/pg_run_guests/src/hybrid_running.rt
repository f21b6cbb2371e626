//! The turns of guests.

ghost use Rattle.std.specs.Prelude.{◌≡◌, ◌+◌, ◌*◌, ◌<◌, ◌≤◌, ◌^◌, length, map, IfOk, OnOk, OnErr};
ghost use Rattle.pg_lang_meaning.specs.Steps.{steps as stepped};
ghost use Rattle.pg_hw.specs.Serving.{IsServed};
ghost use Rattle.pg_mon_control.specs.Counting.{CanCount};
ghost use Rattle.pg_mon_control.specs.Guests.{virtuals};
ghost use Rattle.pg_mon_control.specs.Schedules.{schedule};
ghost use Rattle.pg_mon_control.specs.Standing.{Stands};
ghost use Rattle.pg_hybrid.specs.Hybrids.{desc_of};
ghost use Rattle.pg_hybrid.specs.Plans.{HybridFollowed};
ghost use Rattle.pg_run_guests.specs.Runs.{run_of};
ghost use Rattle.pg_run_guests.specs.Setting.{CanRun, SetUp};
ghost use Rattle.pg_run_guests.specs.UnderHybrid.{RanHybrid};
ghost use Rattle.pg_run_guests.specs.HaveRunHybrid.{HaveRunHybrid};

use crate::hybrid_starting::start;
use pg_hw::Hardware;
use pg_hybrid::{Guest, Hybrid};
use pg_image::Image;
use pg_type::HybridAccepted;
use std::alloc::{AllocError, Global};

/// Guests that ran: their hybrid monitor, and the counts of their turns.
#[derive(Drop)]
pub struct HybridRan<'m> {
    hybrid: Hybrid<'m>,
    /// How many turns they had, all together.
    turns: u64,
    /// How many of these the hardware executed untrapped.
    direct: u64,
}

impl<'m> HybridRan<'m> {
    /// The guests, in the order of their numbers, behind their last turn.
    pub fn guests(&self) -> &[Guest]
        ensures { result.now ≡ self.now.hybrid.guests }
    {
        self.hybrid.guests()
    }

    /// How many turns they had, all together.
    pub fn turns(&self) -> u64
        ensures { result ≡ self.now.turns }
    {
        self.turns
    }

    /// How many of these the hardware executed untrapped: each of them began in user mode.
    pub fn direct(&self) -> u64
        ensures { result ≡ self.now.direct }
    {
        self.direct
    }
}

/// Runs images as guests of one hybrid monitor on the hardware, by slices, until each has had so many turns.
///
/// The hardware is given the machine's greatest size. Each image has a grant of its own size, one behind the other from cell
/// 2 on, and is switched on in it. Guest 0 has a slice of turns, then guest 1, and so on, and round again; the last slice is
/// shorter where need be. A turn that begins in supervisor mode is interpreted, and one that begins in user mode is a step of
/// the hardware.
///
/// # Errors
/// Only for lack of memory, and then no turn was made: the hardware is as it was, installed, or some images are loaded.
pub fn run_hybrid<'m, H: Hardware>(
    alloc: Global,
    accepted: HybridAccepted<'m>,
    images: &[Image],
    slice: u64,
    steps: u64,
    hw: &mut H,
) -> Result<HybridRan<'m>, AllocError>
    requires served { IsServed (H.serves (H.fixed hw.old)) accepted.machine.now.desc }
    requires room { accepted.machine.now.desc.size ≤ H.room (H.fixed hw.old) }
    requires counts { CanCount (H.machinery hw.old).tally }
    requires can_run { CanRun (run_of accepted.machine.now images.now slice steps) }
    ensures have_run { IfOk result (λ ran. HaveRunHybrid (run_of accepted.entry.machine.now images.now slice steps) ran (H.machinery hw.new)) }
    ensures ran { OnOk result (RanHybrid (run_of accepted.entry.machine.now images.now slice steps) (H.machinery hw.old) (H.machinery hw.new)) }
    ensures set_up { OnErr result (SetUp (run_of accepted.entry.machine.now images.now slice steps) (H.machinery hw.old) (H.machinery hw.new)) }
    ensures fixed { H.fixed hw.new ≡ H.fixed hw.old }
{
    let mut hybrid = match start(alloc, accepted, images, hw) {
        Ok(hybrid) => hybrid,
        Err(refused) => return Err(refused),
    };
    Ok(run_on(hybrid, slice, steps, hw))
}

/// The turns of a hybrid monitor's guests, by slices.
fn run_on<'m, H: Hardware>(
    mut hybrid: Hybrid<'m>,
    slice: u64,
    steps: u64,
    hw: &mut H,
) -> HybridRan<'m>
    requires served { IsServed (H.serves (H.fixed hw.old)) (desc_of hybrid) }
    requires stands { Stands (desc_of hybrid) (H.machinery hw.old).state hybrid.guests hybrid.current }
    requires some { 1 ≤ slice }
    requires counted { length hybrid.guests * steps ≤ 2 ^ 32 }
    requires count { (H.machinery hw.old).tally.untrapped < 2 ^ 63 }
    ensures machine { result.hybrid.accepted.machine.now ≡ hybrid.entry.accepted.machine.now }
    ensures stands { Stands (desc_of hybrid.entry) (H.machinery hw.new).state result.hybrid.guests result.hybrid.current }
    ensures states { virtuals (H.machinery hw.new).state.cells result.hybrid.guests ≡ map (stepped (desc_of hybrid.entry) steps) (virtuals (H.machinery hw.old).state.cells hybrid.entry.guests) }
    ensures followed { HybridFollowed (desc_of hybrid.entry) (schedule (length hybrid.entry.guests) slice steps) (H.machinery hw.old) (H.machinery hw.new) hybrid.entry.guests result.hybrid.guests hybrid.entry.current result.hybrid.current }
    ensures turns { result.turns ≡ length hybrid.entry.guests * steps }
    ensures direct { (H.machinery hw.old).tally.untrapped + result.direct ≡ (H.machinery hw.new).tally.untrapped }
    ensures fixed { H.fixed hw.new ≡ H.fixed hw.old }
{
    let before = hw.counts().untrapped;
    hybrid.run_sliced(hw, slice, steps);
    HybridRan {
        turns: hybrid.len() as u64 * steps,
        direct: hw.counts().untrapped - before,
        hybrid,
    }
}
