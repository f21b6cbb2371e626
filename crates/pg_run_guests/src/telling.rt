//! The text of guests.

ghost use Rattle.std.specs.Prelude.{◌+◌, ◌<◌, ◌≤◌, ◌^◌, ◌++◌, All, length};
ghost use Rattle.pg_edge.specs.Sink.{Puts};
ghost use Rattle.pg_image.specs.Lines.{state_text};
ghost use Rattle.pg_mon_control.specs.Guests.{virtual, virtuals};
ghost use Rattle.pg_report.specs.Runs.{guest_line, run_text};
ghost use Rattle.pg_run_guests.specs.Telling.{AreWithin};

use pg_edge::{Failed, Sink};
use pg_hw::Hardware;
use pg_mach_ready::Machine;
use pg_mon_control::Guest;
use pg_report::{put_guest, put_state, put_steps};

/// Puts the text of guests: each guest's number and its state, in order, and the counts of turns, how many they had and how
/// many of these the hardware executed untrapped. It takes no memory, and the time grows with the guests' cells.
///
/// # Errors
/// `Failed` where not all of the text went through. A front of it may have.
pub fn put_guests<S: Sink, H: Hardware>(
    out: &mut S,
    machine: &Machine,
    guests: &[Guest],
    turns: u64,
    direct: u64,
    hw: &H,
) -> Result<(), Failed>
    requires words { All (λ cell. cell < 2 ^ machine.now.desc.word) (H.machinery hw.now).state.cells }
    requires within { AreWithin (H.machinery hw.now).state guests.now }
    ensures { Puts (S.written out.old) (S.written out.new) (S.faults out.old) (S.faults out.new)
        (run_text machine.now.desc.word (virtuals (H.machinery hw.now).state.cells guests.now) turns direct) result }
{
    for k in 0..guests.len() {
        match put_one_guest(out, machine, guests[k], k, hw) {
            Ok(()) => {}
            Err(failed) => return Err(failed),
        }
    }
    put_steps(out, turns, direct)
}

/// Puts the number of a guest, and its state, which the hardware holds where the guest lies. It takes no memory, and the time grows
/// with the guest's cells.
///
/// # Errors
/// `Failed` where not all of the text went through. A front of it may have.
pub fn put_one_guest<S: Sink, H: Hardware>(
    out: &mut S,
    machine: &Machine,
    guest: Guest,
    number: usize,
    hw: &H,
) -> Result<(), Failed>
    requires within { guest.base + guest.size ≤ length (H.machinery hw.now).state.cells }
    requires words { All (λ cell. cell < 2 ^ machine.now.desc.word) (virtual (H.machinery hw.now).state.cells guest).cells }
    ensures { Puts (S.written out.old) (S.written out.new) (S.faults out.old) (S.faults out.new)
        (guest_line number ++ state_text machine.now.desc.word (virtual (H.machinery hw.now).state.cells guest).cells guest.psw) result }
{
    match put_guest(out, number) {
        Ok(()) => {}
        Err(failed) => return Err(failed),
    }
    put_state(out, machine.shape(), hw, guest.base, guest.size, guest.psw)
}
