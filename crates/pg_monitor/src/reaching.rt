//! What is done to a guest from outside: its cells read and set, and its program status word set.
//!
//! These are the calls by which a guest is presented as a machine of its own. None of them takes memory, refuses anything or
//! makes a turn.

ghost use Rattle.std.specs.Prelude.{◌≡◌, ◌+◌, ◌<◌, ◌^◌, length, Some, IsSomeAnd, slice_get, slice_set};
ghost use Rattle.pg_word.specs.Psw.{IsPsw};
ghost use Rattle.pg_hw.specs.Machinery.{poked_at};
ghost use Rattle.pg_hw.specs.Serving.{IsServed, IsServedPsw};
ghost use Rattle.pg_routine.specs.Composing.{composed};
ghost use Rattle.pg_mon_control.specs.declared.guest.Guest.{Guest as Guests};
ghost use Rattle.pg_mon_control.specs.Current.{with_psw};
ghost use Rattle.pg_mon_control.specs.Guests.{virtual, virtuals};
ghost use Rattle.pg_monitor.specs.Monitors.{desc_of, SameMonitor};
ghost use Rattle.pg_monitor.specs.Reaching.{with_cell, under_psw, changed_at, entered_if_current};
ghost use Rattle.pg_mon_control.specs.Standing.{Stands};

use crate::monitor::Monitor;
use pg_hw::Hardware;
use pg_mon_control::{Guest, enter, is_current};
use pg_word::Psw;

impl<'m> Monitor<'m> {
    /// The word of a cell of a guest, by its address in the guest's own storage, which is below its size.
    pub fn peek<H: Hardware>(&self, hw: &H, k: usize, at: u32) -> u64
        requires stands { Stands (desc_of self.now) (H.machinery hw.now).state self.now.guests self.now.current }
        requires within { IsSomeAnd (slice_get self.now.guests k) (λ g. at < g.size) }
        ensures { (g : Guests) → slice_get self.now.guests k ≡ Some g → slice_get (virtual (H.machinery hw.now).state.cells g).cells at ≡ Some result }
    {
        hw.peek(self.guest(k).base + at)
    }

    /// Sets a cell of a guest, by its address in the guest's own storage, which is below its size, to a word of the machine.
    /// No other guest changes. It is one poke.
    pub fn poke<H: Hardware>(&mut self, hw: &mut H, k: usize, at: u32, word: u64)
        requires served { IsServed (H.serves (H.fixed hw.old)) (desc_of self.old) }
        requires stands { Stands (desc_of self.old) (H.machinery hw.old).state self.old.guests self.old.current }
        requires within { IsSomeAnd (slice_get self.old.guests k) (λ g. at < g.size) }
        requires word { word < 2 ^ (desc_of self.old).word }
        ensures stands { Stands (desc_of self.old) (H.machinery hw.new).state self.new.guests self.new.current }
        ensures states { virtuals (H.machinery hw.new).state.cells self.new.guests ≡ changed_at k (with_cell at word) (virtuals (H.machinery hw.old).state.cells self.old.guests) }
        ensures poked { IsSomeAnd (slice_get self.old.guests k) (λ g. H.machinery hw.new ≡ poked_at (g.base + at) word (H.machinery hw.old)) }
        ensures monitor { SameMonitor self.old self.new }
        ensures fixed { H.fixed hw.new ≡ H.fixed hw.old }
    {
        let base = self.guest(k).base;
        hw.poke(base + at, word);
    }

    /// Sets the program status word of a guest. No other guest changes, and no cell. Where the guest is the current one, the
    /// word that is composed of it is loaded; else the hardware is as it was.
    pub fn set_guest<H: Hardware>(&mut self, hw: &mut H, k: usize, psw: Psw)
        requires served { IsServed (H.serves (H.fixed hw.old)) (desc_of self.old) }
        requires stands { Stands (desc_of self.old) (H.machinery hw.old).state self.old.guests self.old.current }
        requires known { k < length self.old.guests }
        requires fields { IsPsw (desc_of self.old).address psw }
        ensures stands { Stands (desc_of self.old) (H.machinery hw.new).state self.new.guests self.new.current }
        ensures states { virtuals (H.machinery hw.new).state.cells self.new.guests ≡ changed_at k (under_psw psw) (virtuals (H.machinery hw.old).state.cells self.old.guests) }
        ensures loaded { IsSomeAnd (slice_get self.old.guests k) (λ g. H.machinery hw.new ≡ entered_if_current k self.old.current g psw (H.machinery hw.old)) }
        ensures guests { IsSomeAnd (slice_get self.old.guests k) (λ g. self.new.guests ≡ slice_set self.old.guests k (with_psw g psw)) }
        ensures granted { self.new.granted ≡ self.old.granted }
        ensures current { self.new.current ≡ self.old.current }
        ensures machine { self.new.accepted.machine.now ≡ self.old.accepted.machine.now }
        ensures fixed { H.fixed hw.new ≡ H.fixed hw.old }
    {
        let guest = Guest {
            psw,
            ..self.guest(k)
        };
        self.reenter(hw, k, guest);
        self.guests.set(k, guest);
    }

    /// Enters a guest anew, where it is the current one.
    fn reenter<H: Hardware>(&self, hw: &mut H, k: usize, guest: Guest)
        requires addressable { guest.base + guest.size < 2 ^ 32 }
        requires fits { IsServedPsw (H.serves (H.fixed hw.old)) (composed guest.psw guest.base guest.size) }
        ensures entered { H.machinery hw.new ≡ entered_if_current k self.now.current guest guest.psw (H.machinery hw.old) }
        ensures fixed { H.fixed hw.new ≡ H.fixed hw.old }
    {
        if is_current(self.current, k) {
            enter(hw, guest);
        }
    }
}
