//! Turns of guests: which guest runs, and for how long.
//!
//! A guest that is not the current one is entered first, which is a *change of guest* and one load. Its turns are then
//! those of `turning`. No call here takes memory or refuses anything.

ghost use Rattle.std.specs.Prelude.{◌≡◌, ℕ, ◌<◌, length, All, Some, slice_get, true};
ghost use Rattle.std.specs.Option.{option_map};
ghost use Rattle.pg_lang_meaning.specs.Steps.{step, steps};
ghost use Rattle.pg_hw.specs.Bursts.{traps};
ghost use Rattle.pg_hw.specs.Serving.{IsServed};
ghost use Rattle.pg_hw.specs.Tallies.{raised_by};
ghost use Rattle.pg_mon_control.specs.declared.guest.Guest.{Guest as Guests};
ghost use Rattle.pg_mon_control.specs.Guests.{virtual, virtuals};
ghost use Rattle.pg_mon_control.specs.Direct.{is_direct};
ghost use Rattle.pg_monitor.specs.Bursts.{TellsBurst};
ghost use Rattle.pg_monitor.specs.Monitors.{desc_of};
ghost use Rattle.pg_mon_control.specs.Standing.{Stands};
ghost use Rattle.pg_monitor.specs.Turns.{Turned};
ghost use Rattle.pg_mon_control.specs.Plans.{turns_for};
ghost use Rattle.pg_monitor.specs.Plans.{Followed};
ghost use Rattle.pg_mon_control.specs.Current.{Runs, change_to};

use crate::monitor::Monitor;
use crate::turning::{BurstTold, turn_often, turn_on, turn_once};
use pg_hw::Hardware;
use pg_mon_control::{Guest, select};

impl<'m> Monitor<'m> {
    /// One turn of a guest: its state goes one step on.
    pub fn turn<H: Hardware>(&mut self, hw: &mut H, k: usize)
        requires served { IsServed (H.serves (H.fixed hw.old)) (desc_of self.old) }
        requires stands { Stands (desc_of self.old) (H.machinery hw.old).state self.old.guests self.old.current }
        requires known { k < length self.old.guests }
        ensures stands { Stands (desc_of self.old) (H.machinery hw.new).state self.new.guests self.new.current }
        ensures turned { Turned (desc_of self.old) k 1 (H.machinery hw.old) (H.machinery hw.new) self.old.guests self.new.guests self.old.current self.new.current }
        ensures machine { self.new.accepted.machine.now ≡ self.old.accepted.machine.now }
        ensures granted { self.new.granted ≡ self.old.granted }
        ensures fixed { H.fixed hw.new ≡ H.fixed hw.old }

        // A direct turn of the current guest is one step of the hardware, which leaves its mode and R.
        ensures direct { (g : Guests) → slice_get self.old.guests k ≡ Some g → self.old.current ≡ Some k
            → is_direct (desc_of self.old) g.base (virtual (H.machinery hw.old).state.cells g) ≡ true
            → (H.machinery hw.new).state ≡ step (desc_of self.old) (H.machinery hw.old).state }
        ensures kept { (g : Guests) → slice_get self.old.guests k ≡ Some g → self.old.current ≡ Some k
            → is_direct (desc_of self.old) g.base (virtual (H.machinery hw.old).state.cells g) ≡ true
            → (H.machinery hw.new).state.psw ≡ record (H.machinery hw.old).state.psw { p = (H.machinery hw.new).state.psw.p } }
    {
        self.turn_told(hw, k);
    }

    /// One turn of a guest, as `turn` does it; whether the guest's own step trapped, in whatever way.
    pub fn turn_told<H: Hardware>(&mut self, hw: &mut H, k: usize) -> bool
        requires served { IsServed (H.serves (H.fixed hw.old)) (desc_of self.old) }
        requires stands { Stands (desc_of self.old) (H.machinery hw.old).state self.old.guests self.old.current }
        requires known { k < length self.old.guests }
        ensures told { (g : Guests) → slice_get self.old.guests k ≡ Some g → result ≡ traps (desc_of self.old) (virtual (H.machinery hw.old).state.cells g) }
        ensures stands { Stands (desc_of self.old) (H.machinery hw.new).state self.new.guests self.new.current }
        ensures turned { Turned (desc_of self.old) k 1 (H.machinery hw.old) (H.machinery hw.new) self.old.guests self.new.guests self.old.current self.new.current }
        ensures machine { self.new.accepted.machine.now ≡ self.old.accepted.machine.now }
        ensures granted { self.new.granted ≡ self.old.granted }
        ensures fixed { H.fixed hw.new ≡ H.fixed hw.old }

        // A direct turn of the current guest is one step of the hardware, which leaves its mode and R.
        ensures direct { (g : Guests) → slice_get self.old.guests k ≡ Some g → self.old.current ≡ Some k
            → is_direct (desc_of self.old) g.base (virtual (H.machinery hw.old).state.cells g) ≡ true
            → (H.machinery hw.new).state ≡ step (desc_of self.old) (H.machinery hw.old).state }
        ensures kept { (g : Guests) → slice_get self.old.guests k ≡ Some g → self.old.current ≡ Some k
            → is_direct (desc_of self.old) g.base (virtual (H.machinery hw.old).state.cells g) ≡ true
            → (H.machinery hw.new).state.psw ≡ record (H.machinery hw.old).state.psw { p = (H.machinery hw.new).state.psw.p } }
    {
        let machine = self.accepted.machine();
        let mut guest = self.select(hw, k);
        let trapped = turn_once(machine, hw, &mut guest, &mut self.frame);
        self.guests.set(k, guest);
        trapped
    }

    /// Turns of a guest as one burst of the hardware, `most` of them at most, and one at least where any are asked for.
    ///
    /// The hardware executes them as long as they are direct. The burst ends with a turn that is not: it is interpreted, and
    /// the guest's own step may trap there or may not, as that of a privileged instruction in supervisor mode does not. So no
    /// step of the guest but the last one traps.
    pub fn burst_told<H: Hardware>(&mut self, hw: &mut H, k: usize, most: u64) -> BurstTold
        requires served { IsServed (H.serves (H.fixed hw.old)) (desc_of self.old) }
        requires stands { Stands (desc_of self.old) (H.machinery hw.old).state self.old.guests self.old.current }
        requires known { k < length self.old.guests }
        ensures told { (g : Guests) → slice_get self.old.guests k ≡ Some g
            → TellsBurst (desc_of self.old) g.base most (virtual (H.machinery hw.old).state.cells g) result }
        ensures stands { Stands (desc_of self.old) (H.machinery hw.new).state self.new.guests self.new.current }
        ensures turned { Turned (desc_of self.old) k result.turns (H.machinery hw.old) (H.machinery hw.new) self.old.guests self.new.guests self.old.current self.new.current }
        ensures machine { self.new.accepted.machine.now ≡ self.old.accepted.machine.now }
        ensures granted { self.new.granted ≡ self.old.granted }
        ensures fixed { H.fixed hw.new ≡ H.fixed hw.old }
    {
        if most == 0 {
            return BurstTold {
                turns: 0,
                trapped: false,
            };
        }
        let machine = self.accepted.machine();
        let mut guest = self.select(hw, k);
        let told = turn_on(machine, hw, &mut guest, most, &mut self.frame);
        self.guests.set(k, guest);
        told
    }

    /// `n` turns of a guest, one after another: its state goes `n` steps on.
    pub fn turns<H: Hardware>(&mut self, hw: &mut H, k: usize, n: u64)
        requires served { IsServed (H.serves (H.fixed hw.old)) (desc_of self.old) }
        requires stands { Stands (desc_of self.old) (H.machinery hw.old).state self.old.guests self.old.current }
        requires known { k < length self.old.guests }
        ensures stands { Stands (desc_of self.old) (H.machinery hw.new).state self.new.guests self.new.current }
        ensures turned { Turned (desc_of self.old) k n (H.machinery hw.old) (H.machinery hw.new) self.old.guests self.new.guests self.old.current self.new.current }
        ensures machine { self.new.accepted.machine.now ≡ self.old.accepted.machine.now }
        ensures granted { self.new.granted ≡ self.old.granted }
        ensures fixed { H.fixed hw.new ≡ H.fixed hw.old }
    {
        if n == 0 {
            return;
        }
        let machine = self.accepted.machine();
        let mut guest = self.select(hw, k);
        turn_often(machine, hw, &mut guest, n, &mut self.frame);
        self.guests.set(k, guest);
    }

    /// The turns of a plan, of which each pair is the number of a guest and how many turns it is to have, in order.
    pub fn run<H: Hardware>(&mut self, hw: &mut H, plan: &[(usize, u64)])
        requires served { IsServed (H.serves (H.fixed hw.old)) (desc_of self.old) }
        requires stands { Stands (desc_of self.old) (H.machinery hw.old).state self.old.guests self.old.current }
        requires known { All (λ t. t.0 < length self.old.guests) plan.now }
        ensures stands { Stands (desc_of self.old) (H.machinery hw.new).state self.new.guests self.new.current }
        // Each guest stands at the state of its own number of turns, whatever the others did.
        ensures own { (j : ℕ) → slice_get (virtuals (H.machinery hw.new).state.cells self.new.guests) j
            ≡ option_map (steps (desc_of self.old) (turns_for j plan.now)) (slice_get (virtuals (H.machinery hw.old).state.cells self.old.guests) j) }
        ensures followed { Followed (desc_of self.old) plan.now (H.machinery hw.old) (H.machinery hw.new) self.old.guests self.new.guests self.old.current self.new.current }
        ensures machine { self.new.accepted.machine.now ≡ self.old.accepted.machine.now }
        ensures granted { self.new.granted ≡ self.old.granted }
        ensures fixed { H.fixed hw.new ≡ H.fixed hw.old }
    {
        for turn in plan {
            self.turns(hw, turn.0, turn.1);
        }
    }

    /// Makes a guest the current one, and enters it where it was not; the guest.
    pub(crate) fn select<H: Hardware>(&mut self, hw: &mut H, k: usize) -> Guest
        requires served { IsServed (H.serves (H.fixed hw.old)) (desc_of self.old) }
        requires stands { Stands (desc_of self.old) (H.machinery hw.old).state self.old.guests self.old.current }
        requires known { k < length self.old.guests }
        ensures guest { slice_get self.old.guests k ≡ Some result }
        ensures current { self.new.current ≡ Some k }
        ensures guests { self.new.guests ≡ self.old.guests }
        ensures machine { self.new.accepted.machine.now ≡ self.old.accepted.machine.now }
        ensures granted { self.new.granted ≡ self.old.granted }
        ensures runs { Runs (desc_of self.old) (H.machinery hw.new).state result }
        ensures cells { (H.machinery hw.new).state.cells ≡ (H.machinery hw.old).state.cells }
        ensures same { self.old.current ≡ Some k → H.machinery hw.new ≡ H.machinery hw.old }
        ensures tally { (H.machinery hw.new).tally ≡ record (H.machinery hw.old).tally { loads = raised_by (change_to k self.old.current) (H.machinery hw.old).tally.loads } }
        ensures bottom { (H.machinery hw.new).bottom ≡ (H.machinery hw.old).bottom }
        ensures fixed { H.fixed hw.new ≡ H.fixed hw.old }
    {
        let machine = self.accepted.machine();
        select(machine, hw, self.guests.as_slice(), &mut self.current, k)
    }
}
