//! The summary of guests.

ghost use Rattle.std.specs.Prelude.{◌+◌, ◌≤◌, length};
ghost use Rattle.pg_edge.specs.Sink.{Puts};
ghost use Rattle.pg_mon_control.specs.Guests.{virtual, virtuals};
ghost use Rattle.pg_report.specs.Summaries.{summary_line, summaries, summary_text};
ghost use Rattle.pg_run_guests.specs.Telling.{AreWithin};

use pg_edge::{Failed, Sink};
use pg_hw::Hardware;
use pg_mach_ready::Machine;
use pg_mon_control::Guest;
use pg_report::{put_steps, put_summary};

/// Puts the summary of guests: the counts of turns, how many they had and how many of these the hardware executed untrapped,
/// and a line for each guest in order, with its number, its program status word and the sum of its cells. It takes no memory,
/// and the time grows with the guests' cells.
///
/// # Errors
/// `Failed` where not all of the text went through. A front of it may have.
pub fn put_summaries<S: Sink, H: Hardware>(
    out: &mut S,
    machine: &Machine,
    guests: &[Guest],
    turns: u64,
    direct: u64,
    hw: &H,
) -> Result<(), Failed>
    requires within { AreWithin (H.machinery hw.now).state guests.now }
    ensures { Puts (S.written out.old) (S.written out.new) (S.faults out.old) (S.faults out.new)
        (summary_text machine.now.desc.word (virtuals (H.machinery hw.now).state.cells guests.now) turns direct) result }
{
    match put_steps(out, turns, direct) {
        Ok(()) => {}
        Err(failed) => return Err(failed),
    }
    put_all(out, machine, guests, hw)
}

/// Puts the line of each guest.
fn put_all<S: Sink, H: Hardware>(
    out: &mut S,
    machine: &Machine,
    guests: &[Guest],
    hw: &H,
) -> Result<(), Failed>
    requires within { AreWithin (H.machinery hw.now).state guests.now }
    ensures { Puts (S.written out.old) (S.written out.new) (S.faults out.old) (S.faults out.new)
        (summaries machine.now.desc.word 0 (virtuals (H.machinery hw.now).state.cells guests.now)) result }
{
    for k in 0..guests.len() {
        match put_one(out, machine, guests[k], k, hw) {
            Ok(()) => {}
            Err(failed) => return Err(failed),
        }
    }
    Ok(())
}

/// Puts the line of a guest.
fn put_one<S: Sink, H: Hardware>(
    out: &mut S,
    machine: &Machine,
    guest: Guest,
    number: usize,
    hw: &H,
) -> Result<(), Failed>
    requires within { guest.base + guest.size ≤ length (H.machinery hw.now).state.cells }
    ensures { Puts (S.written out.old) (S.written out.new) (S.faults out.old) (S.faults out.new)
        (summary_line machine.now.desc.word number (virtual (H.machinery hw.now).state.cells guest).cells guest.psw) result }
{
    put_summary(
        out,
        machine.shape(),
        hw,
        number,
        guest.base,
        guest.size,
        guest.psw,
    )
}
