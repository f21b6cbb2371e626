//! The grants that a monitor makes.

ghost use Rattle.std.specs.Prelude.{◌≡◌, ◌≤◌, [], ◌∷◌, ◌++◌, None, IsSome, OnErr, IfOk, IfErr};
ghost use Rattle.pg_monitor.specs.Monitors.{base_for, GrantsOne, SameMonitor};
ghost use Rattle.pg_mon_control.specs.Guests.{guest_in};

use crate::monitor::Monitor;
use pg_mon_control::{GuestFault, hold, place};
use pg_word::Psw;

impl<'m> Monitor<'m> {
    /// A grant of `size` cells without a guest, at the least base from 2 on at which so many are free; its base. No guest is
    /// placed there, and the monitor never touches its cells.
    ///
    /// `NoRoom` comes exactly where so many are free at none, and `Memory` where there is room but an allocation fails. A
    /// refusal changes nothing. The time grows with the grants.
    pub fn hold(&mut self, size: u32) -> Result<u32, GuestFault>
        requires least { 1 ≤ size }
        ensures held { IfOk result (λ base. GrantsOne size base self.old self.new) }
        ensures guests { self.new.guests ≡ self.old.guests }
        ensures current { self.new.current ≡ self.old.current }
        ensures machine { self.new.accepted.machine.now ≡ self.old.accepted.machine.now }
        ensures no_room { IfErr result (λ e. e ≡ GuestFault.NoRoom → base_for self.old size ≡ None) }
        ensures memory { IfErr result (λ e. e ≡ GuestFault.Memory → IsSome (base_for self.old size)) }
        ensures refused { OnErr result (SameMonitor self.old self.new) }
    {
        hold(&mut self.granted, size)
    }

    /// A grant with a guest of this program status word, whose cells are the hardware's; its base.
    pub(crate) fn place(&mut self, size: u32, psw: Psw) -> Result<u32, GuestFault>
        requires least { 1 ≤ size }
        ensures placed { IfOk result (λ base. GrantsOne size base self.old self.new) }
        ensures guests { IfOk result (λ base. self.new.guests ≡ self.old.guests ++ guest_in base size psw ∷ []) }
        ensures no_room { IfErr result (λ e. e ≡ GuestFault.NoRoom → base_for self.old size ≡ None) }
        ensures memory { IfErr result (λ e. e ≡ GuestFault.Memory → IsSome (base_for self.old size)) }
        ensures refused { OnErr result (SameMonitor self.old self.new) }
    {
        place(&mut self.granted, &mut self.guests, size, psw)
    }
}
