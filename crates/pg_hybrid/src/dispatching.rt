//! Turns of guests: which guest has them, and whether the hardware or the monitor does them.
//!
//! A guest whose turn begins in user mode is made the current one first, which is one load where it was not. A turn that is
//! interpreted leaves its guest not current, since the hardware has not the program status word that follows; another guest
//! that is current stays so, unless the hardware was entered. No call here takes memory or refuses anything.

ghost use Rattle.std.specs.Prelude.{◌≡◌, ℕ, ◌<◌, ◌≤◌, length, All, Some, slice_get, true};
ghost use Rattle.std.specs.Option.{option_map};
ghost use Rattle.pg_lang_meaning.specs.Steps.{steps};
ghost use Rattle.std.specs.Bool.{then_some};
ghost use Rattle.pg_word.specs.declared.psw.Mode.TheVariants.{S, U};
ghost use Rattle.pg_hw.specs.Serving.{IsServed};
ghost use Rattle.pg_hw.specs.Tallies.{raised_by};
ghost use Rattle.pg_mon_control.specs.declared.guest.Guest.{Guest as Guests};
ghost use Rattle.pg_mon_control.specs.Guests.{virtual, virtuals};
ghost use Rattle.pg_mon_control.specs.Plans.{turns_for};
ghost use Rattle.pg_mon_control.specs.Standing.{Stands};
ghost use Rattle.pg_mon_control.specs.Current.{change_to, is_current as is_current_guest};
ghost use Rattle.pg_mon_control.specs.Direct.{is_direct};
ghost use Rattle.pg_hybrid.specs.Current.{SteppedOnce};
ghost use Rattle.pg_hybrid.specs.Hybrids.{desc_of};
ghost use Rattle.pg_hybrid.specs.Leaving.{current_behind, loads_at, without as without_guest};
ghost use Rattle.pg_hybrid.specs.Turns.{HybridTurned};
ghost use Rattle.pg_hybrid.specs.Plans.{HybridFollowed};

use crate::hybrid::Hybrid;
use crate::turning::{burst_on, interpret};
use pg_hw::Hardware;
use pg_mon_control::{is_current, select};
use pg_word::Mode;

/// The current guest, but for guest `k`.
fn without(current: Option<usize>, k: usize) -> Option<usize>
    ensures { result ≡ without_guest k current }
{
    if is_current(current, k) {
        None
    } else {
        current
    }
}

impl<'m> Hybrid<'m> {
    /// One turn of a guest: its state goes one step on.
    pub fn turn<H: Hardware>(&mut self, hw: &mut H, k: usize)
        requires served { IsServed (H.serves (H.fixed hw.old)) (desc_of self.old) }
        requires stands { Stands (desc_of self.old) (H.machinery hw.old).state self.old.guests self.old.current }
        requires known { k < length self.old.guests }
        ensures stands { Stands (desc_of self.old) (H.machinery hw.new).state self.new.guests self.new.current }
        ensures turned { HybridTurned (desc_of self.old) k 1 (H.machinery hw.old) (H.machinery hw.new) self.old.guests self.new.guests self.old.current self.new.current }
        ensures machine { self.new.accepted.machine.now ≡ self.old.accepted.machine.now }
        ensures granted { self.new.granted ≡ self.old.granted }
        ensures fixed { H.fixed hw.new ≡ H.fixed hw.old }

        // A guest is loaded where its turn begins in user mode and it is not the current one.
        ensures loads { (g : Guests) → slice_get self.old.guests k ≡ Some g
            → (H.machinery hw.new).tally.loads ≡ raised_by (loads_at k (virtual (H.machinery hw.old).state.cells g) self.old.current) (H.machinery hw.old).tally.loads }
        ensures current { (g : Guests) → slice_get self.old.guests k ≡ Some g
            → self.new.current ≡ current_behind (desc_of self.old) k g.base (virtual (H.machinery hw.old).state.cells g) self.old.current }

        // A direct turn of the current guest from user mode is one step of the hardware, which leaves its mode and R.
        ensures direct { (g : Guests) → slice_get self.old.guests k ≡ Some g → self.old.current ≡ Some k → g.psw.mode ≡ U
            → is_direct (desc_of self.old) g.base (virtual (H.machinery hw.old).state.cells g) ≡ true
            → SteppedOnce (desc_of self.old) (H.machinery hw.old).state (H.machinery hw.new).state }
    {
        self.turn_on(hw, k, 1);
    }

    /// `n` turns of a guest, one after another: its state goes `n` steps on.
    pub fn turns<H: Hardware>(&mut self, hw: &mut H, k: usize, n: u64)
        requires served { IsServed (H.serves (H.fixed hw.old)) (desc_of self.old) }
        requires stands { Stands (desc_of self.old) (H.machinery hw.old).state self.old.guests self.old.current }
        requires known { k < length self.old.guests }
        ensures stands { Stands (desc_of self.old) (H.machinery hw.new).state self.new.guests self.new.current }
        ensures turned { HybridTurned (desc_of self.old) k n (H.machinery hw.old) (H.machinery hw.new) self.old.guests self.new.guests self.old.current self.new.current }
        ensures machine { self.new.accepted.machine.now ≡ self.old.accepted.machine.now }
        ensures granted { self.new.granted ≡ self.old.granted }
        ensures fixed { H.fixed hw.new ≡ H.fixed hw.old }
    {
        let mut left = n;
        while left > 0 {
            left -= self.turn_on(hw, k, left);
        }
    }

    /// The turns of a plan, of which each pair is the number of a guest and how many turns it is to have, in order.
    pub fn run<H: Hardware>(&mut self, hw: &mut H, plan: &[(usize, u64)])
        requires served { IsServed (H.serves (H.fixed hw.old)) (desc_of self.old) }
        requires stands { Stands (desc_of self.old) (H.machinery hw.old).state self.old.guests self.old.current }
        requires known { All (λ t. t.0 < length self.old.guests) plan.now }
        ensures stands { Stands (desc_of self.old) (H.machinery hw.new).state self.new.guests self.new.current }
        // Each guest stands at the state of its own number of turns, whatever the others did.
        ensures own { (j : ℕ) → slice_get (virtuals (H.machinery hw.new).state.cells self.new.guests) j
            ≡ option_map (steps (desc_of self.old) (turns_for j plan.now)) (slice_get (virtuals (H.machinery hw.old).state.cells self.old.guests) j) }
        ensures followed { HybridFollowed (desc_of self.old) plan.now (H.machinery hw.old) (H.machinery hw.new) self.old.guests self.new.guests self.old.current self.new.current }
        ensures machine { self.new.accepted.machine.now ≡ self.old.accepted.machine.now }
        ensures granted { self.new.granted ≡ self.old.granted }
        ensures fixed { H.fixed hw.new ≡ H.fixed hw.old }
    {
        for turn in plan {
            self.turns(hw, turn.0, turn.1);
        }
    }

    /// Some turns of a guest, `most` at most and one at least: one that is interpreted, or a burst of the hardware. How many
    /// they were.
    fn turn_on<H: Hardware>(&mut self, hw: &mut H, k: usize, most: u64) -> u64
        requires served { IsServed (H.serves (H.fixed hw.old)) (desc_of self.old) }
        requires stands { Stands (desc_of self.old) (H.machinery hw.old).state self.old.guests self.old.current }
        requires known { k < length self.old.guests }
        requires some { 0 < most }
        ensures least { 1 ≤ result }
        ensures most { result ≤ most }
        ensures stands { Stands (desc_of self.old) (H.machinery hw.new).state self.new.guests self.new.current }
        ensures turned { HybridTurned (desc_of self.old) k result (H.machinery hw.old) (H.machinery hw.new) self.old.guests self.new.guests self.old.current self.new.current }
        ensures machine { self.new.accepted.machine.now ≡ self.old.accepted.machine.now }
        ensures granted { self.new.granted ≡ self.old.granted }
        ensures fixed { H.fixed hw.new ≡ H.fixed hw.old }
        ensures loads { (g : Guests) → slice_get self.old.guests k ≡ Some g
            → (H.machinery hw.new).tally.loads ≡ raised_by (loads_at k (virtual (H.machinery hw.old).state.cells g) self.old.current) (H.machinery hw.old).tally.loads }
        ensures current { (g : Guests) → slice_get self.old.guests k ≡ Some g → result ≡ 1
            → self.new.current ≡ current_behind (desc_of self.old) k g.base (virtual (H.machinery hw.old).state.cells g) self.old.current }
        ensures direct { (g : Guests) → slice_get self.old.guests k ≡ Some g → self.old.current ≡ Some k → g.psw.mode ≡ U → result ≡ 1
            → is_direct (desc_of self.old) g.base (virtual (H.machinery hw.old).state.cells g) ≡ true
            → SteppedOnce (desc_of self.old) (H.machinery hw.old).state (H.machinery hw.new).state }
    {
        match self.guest(k).psw.mode {
            Mode::S => {
                self.interpret_turn(hw, k);
                1
            }
            Mode::U => self.step_turns(hw, k, most),
        }
    }

    /// One turn of a guest that is in supervisor mode: it is interpreted, and the guest is not current behind it.
    fn interpret_turn<H: Hardware>(&mut self, hw: &mut H, k: usize)
        requires served { IsServed (H.serves (H.fixed hw.old)) (desc_of self.old) }
        requires stands { Stands (desc_of self.old) (H.machinery hw.old).state self.old.guests self.old.current }
        requires known { k < length self.old.guests }
        requires supervisor { (g : Guests) → slice_get self.old.guests k ≡ Some g → g.psw.mode ≡ S }
        ensures stands { Stands (desc_of self.old) (H.machinery hw.new).state self.new.guests self.new.current }
        ensures turned { HybridTurned (desc_of self.old) k 1 (H.machinery hw.old) (H.machinery hw.new) self.old.guests self.new.guests self.old.current self.new.current }
        ensures machine { self.new.accepted.machine.now ≡ self.old.accepted.machine.now }
        ensures granted { self.new.granted ≡ self.old.granted }
        ensures fixed { H.fixed hw.new ≡ H.fixed hw.old }
        ensures loads { (H.machinery hw.new).tally.loads ≡ (H.machinery hw.old).tally.loads }
        ensures current { self.new.current ≡ without_guest k self.old.current }
    {
        let machine = self.accepted.machine();
        let mut guest = self.guest(k);
        interpret(machine, hw, &mut guest, &mut self.frame);
        self.guests.set(k, guest);
        self.current = without(self.current, k);
    }

    /// Some turns of a guest that is in user mode, `most` at most and one at least, as one burst of the hardware. How many
    /// they were.
    fn step_turns<H: Hardware>(&mut self, hw: &mut H, k: usize, most: u64) -> u64
        requires served { IsServed (H.serves (H.fixed hw.old)) (desc_of self.old) }
        requires stands { Stands (desc_of self.old) (H.machinery hw.old).state self.old.guests self.old.current }
        requires known { k < length self.old.guests }
        requires user { (g : Guests) → slice_get self.old.guests k ≡ Some g → g.psw.mode ≡ U }
        requires some { 0 < most }
        ensures least { 1 ≤ result }
        ensures most { result ≤ most }
        ensures stands { Stands (desc_of self.old) (H.machinery hw.new).state self.new.guests self.new.current }
        ensures turned { HybridTurned (desc_of self.old) k result (H.machinery hw.old) (H.machinery hw.new) self.old.guests self.new.guests self.old.current self.new.current }
        ensures machine { self.new.accepted.machine.now ≡ self.old.accepted.machine.now }
        ensures granted { self.new.granted ≡ self.old.granted }
        ensures fixed { H.fixed hw.new ≡ H.fixed hw.old }
        ensures loads { (H.machinery hw.new).tally.loads ≡ raised_by (change_to k self.old.current) (H.machinery hw.old).tally.loads }
        ensures current { (g : Guests) → slice_get self.old.guests k ≡ Some g → result ≡ 1
            → self.new.current ≡ then_some (is_direct (desc_of self.old) g.base (virtual (H.machinery hw.old).state.cells g)) k }
        ensures direct { (g : Guests) → slice_get self.old.guests k ≡ Some g → self.old.current ≡ Some k → result ≡ 1
            → is_direct (desc_of self.old) g.base (virtual (H.machinery hw.old).state.cells g) ≡ true
            → SteppedOnce (desc_of self.old) (H.machinery hw.old).state (H.machinery hw.new).state }
    {
        let machine = self.accepted.machine();
        let mut guest = select(machine, hw, self.guests.as_slice(), &mut self.current, k);
        let burst = burst_on(machine, hw, &mut guest, most, &mut self.frame);
        self.guests.set(k, guest);
        self.current = burst.goes_on.then_some(k);
        burst.done
    }
}
