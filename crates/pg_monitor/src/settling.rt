//! Turns of a guest that tell when it is still: a step then leaves its state as it is, and so does every later one.
//!
//! A program ends so: with a jump to itself, or with a trap that stores and loads what is there already. Direct turns are told by
//! the hardware, which says where a burst came to a standstill; a turn that is interpreted is told by the interpretive routine. Turns
//! are made as those of `turning` are, and are as many as are asked for, still or not.

ghost use Rattle.std.specs.Prelude.{◌≡◌, ◌+◌, ◌<◌, ◌≤◌, ◌^◌, IfSome, length, Some, slice_get};
ghost use Rattle.pg_type.specs.Accepting.{IsAccepted};
ghost use Rattle.pg_hw.specs.Serving.{IsServed};
ghost use Rattle.pg_mon_control.specs.declared.guest.Guest.{Guest as Guests};
ghost use Rattle.pg_mon_control.specs.Current.{Runs};
ghost use Rattle.pg_mon_control.specs.Guests.{virtual};
ghost use Rattle.pg_mon_control.specs.Standing.{Stands};
ghost use Rattle.pg_monitor.specs.Current.{Went};
ghost use Rattle.pg_monitor.specs.Monitors.{desc_of};
ghost use Rattle.pg_monitor.specs.Settling.{TellsFirst, TellsSettled, first_of};
ghost use Rattle.pg_monitor.specs.Turns.{Turned};

use crate::monitor::Monitor;
use crate::turning::interpret;
use pg_hw::{Settled, Settling};
use pg_interp::Frame;
use pg_mach_ready::Machine;
use pg_mon_control::Guest;
use pg_word::{Mode, OLD_PSW_CELL, unpack};

/// Some turns, `most` at most and one at least, as `turn_on` makes them; behind how many of them the guest was first still.
fn settle_on<H: Settling>(
    m: &Machine,
    hw: &mut H,
    guest: &mut Guest,
    most: u64,
    frame: &mut Frame,
) -> Settled
    requires accepted { ∥ IsAccepted m.now.desc ∥₁ }
    requires served { IsServed (H.serves (H.fixed hw.old)) m.now.desc }
    requires runs { Runs m.now.desc (H.machinery hw.old).state guest.old }
    requires some { 0 < most }
    ensures told { TellsSettled m.now.desc most (virtual (H.machinery hw.old).state.cells guest.old) result }
    ensures went { Went m.now.desc result.done (H.machinery hw.old) (H.machinery hw.new) guest.old guest.new }
    ensures fixed { H.fixed hw.new ≡ H.fixed hw.old }
{
    let settled = hw.burst_settling(m, most);
    let real = hw.psw();
    match real.mode {
        Mode::U => {
            guest.psw.p = real.p;
            settled
        }
        Mode::S => {
            guest.psw.p = unpack(m.shape(), hw.peek(OLD_PSW_CELL)).p;
            let told = interpret(m, hw, guest, frame);
            let still = if told.still {
                Some(settled.done - 1)
            } else {
                None
            };
            Settled {
                done: settled.done,
                still,
            }
        }
    }
}

/// `n` turns; behind how many of them the guest was first still, if it was before the last of them.
fn settle_often<H: Settling>(
    m: &Machine,
    hw: &mut H,
    guest: &mut Guest,
    n: u64,
    frame: &mut Frame,
) -> Option<u64>
    requires accepted { ∥ IsAccepted m.now.desc ∥₁ }
    requires served { IsServed (H.serves (H.fixed hw.old)) m.now.desc }
    requires runs { Runs m.now.desc (H.machinery hw.old).state guest.old }
    ensures first { TellsFirst m.now.desc n (virtual (H.machinery hw.old).state.cells guest.old) result }
    ensures went { Went m.now.desc n (H.machinery hw.old) (H.machinery hw.new) guest.old guest.new }
    ensures fixed { H.fixed hw.new ≡ H.fixed hw.old }
{
    let mut left = n;
    let mut still = None;
    while left > 0 {
        let settled = settle_on(m, hw, guest, left, frame);
        still = first_of(still, n - left, settled.still);
        left -= settled.done;
    }
    still
}

/// A number that was told before, or else one that is told of what is behind `done` steps.
fn first_of(before: Option<u64>, done: u64, told: Option<u64>) -> Option<u64>
    requires { IfSome told (λ n. done + n < 2 ^ 64) }
    ensures { result ≡ first_of before done told }
{
    match before {
        Some(n) => Some(n),
        None => match told {
            Some(n) => Some(done + n),
            None => None,
        },
    }
}

impl<'m> Monitor<'m> {
    /// `n` turns of a guest, one after another, as `turns` makes them; behind how many of them it was first still, if it was before
    /// the last of them.
    pub fn settle<H: Settling>(&mut self, hw: &mut H, k: usize, n: u64) -> Option<u64>
        requires served { IsServed (H.serves (H.fixed hw.old)) (desc_of self.old) }
        requires stands { Stands (desc_of self.old) (H.machinery hw.old).state self.old.guests self.old.current }
        requires known { k < length self.old.guests }
        ensures first { (g : Guests) → slice_get self.old.guests k ≡ Some g
            → TellsFirst (desc_of self.old) n (virtual (H.machinery hw.old).state.cells g) result }
        ensures stands { Stands (desc_of self.old) (H.machinery hw.new).state self.new.guests self.new.current }
        ensures turned { Turned (desc_of self.old) k n (H.machinery hw.old) (H.machinery hw.new) self.old.guests self.new.guests self.old.current self.new.current }
        ensures machine { self.new.accepted.machine.now ≡ self.old.accepted.machine.now }
        ensures granted { self.new.granted ≡ self.old.granted }
        ensures fixed { H.fixed hw.new ≡ H.fixed hw.old }
    {
        if n == 0 {
            return None;
        }
        let machine = self.accepted.machine();
        let mut guest = self.select(hw, k);
        let still = settle_often(machine, hw, &mut guest, n, &mut self.frame);
        self.guests.set(k, guest);
        still
    }
}
