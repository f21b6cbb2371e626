//! Turns by slices: guests run in rounds, and each round gives every guest a slice of turns.
//!
//! No list is made of the schedule: its rounds are gone through as they come. No call here takes memory or refuses
//! anything.

ghost use Rattle.std.specs.Prelude.{◌≡◌, ◌≤◌, length, map};
ghost use Rattle.pg_lang_meaning.specs.Steps.{steps};
ghost use Rattle.pg_hw.specs.Serving.{IsServed};
ghost use Rattle.pg_mon_control.specs.Guests.{virtuals};
ghost use Rattle.pg_monitor.specs.Monitors.{desc_of};
ghost use Rattle.pg_mon_control.specs.Standing.{Stands};
ghost use Rattle.pg_monitor.specs.Plans.{Followed};
ghost use Rattle.pg_mon_control.specs.Schedules.{round_of, schedule};
ghost use Rattle.pg_monitor.specs.Schedules.{Begun};

use crate::monitor::Monitor;
use pg_hw::Hardware;

impl<'m> Monitor<'m> {
    /// `n` turns of each guest, by slices of `slice` turns, one or more: guest 0 has a slice, then guest 1, and so on, and
    /// round again, the last slice being shorter where need be.
    ///
    /// What a schedule gives each guest is a law, `laws::schedule_gives_each_its_turns`.
    pub fn run_sliced<H: Hardware>(&mut self, hw: &mut H, slice: u64, n: u64)
        requires served { IsServed (H.serves (H.fixed hw.old)) (desc_of self.old) }
        requires stands { Stands (desc_of self.old) (H.machinery hw.old).state self.old.guests self.old.current }
        requires some { 1 ≤ slice }
        ensures stands { Stands (desc_of self.old) (H.machinery hw.new).state self.new.guests self.new.current }
        // Each guest has had n turns, whatever the slice is.
        ensures states { virtuals (H.machinery hw.new).state.cells self.new.guests ≡ map (steps (desc_of self.old) n) (virtuals (H.machinery hw.old).state.cells self.old.guests) }
        ensures followed { Followed (desc_of self.old) (schedule (length self.old.guests) slice n) (H.machinery hw.old) (H.machinery hw.new) self.old.guests self.new.guests self.old.current self.new.current }
        ensures machine { self.new.accepted.machine.now ≡ self.old.accepted.machine.now }
        ensures granted { self.new.granted ≡ self.old.granted }
        ensures fixed { H.fixed hw.new ≡ H.fixed hw.old }
    {
        for _ in 0..n / slice {
            self.go_round(hw, slice);
        }
        self.go_round(hw, n % slice);
    }

    /// One round: each guest has so many turns, in the order of their numbers.
    fn go_round<H: Hardware>(&mut self, hw: &mut H, turns: u64)
        requires served { IsServed (H.serves (H.fixed hw.old)) (desc_of self.old) }
        requires stands { Stands (desc_of self.old) (H.machinery hw.old).state self.old.guests self.old.current }
        ensures stands { Stands (desc_of self.old) (H.machinery hw.new).state self.new.guests self.new.current }
        ensures begun { Begun (desc_of self.old) (round_of 0 (length self.old.guests) turns) (H.machinery hw.old) (H.machinery hw.new) self.old.guests self.new.guests self.old.current self.new.current }
        ensures number { length self.new.guests ≡ length self.old.guests }
        ensures machine { self.new.accepted.machine.now ≡ self.old.accepted.machine.now }
        ensures granted { self.new.granted ≡ self.old.granted }
        ensures fixed { H.fixed hw.new ≡ H.fixed hw.old }
    {
        for k in 0..self.guests.len() {
            self.turns(hw, k, turns);
        }
    }
}
