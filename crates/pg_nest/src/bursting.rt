//! Bursts of a guest's own machine.
//!
//! A burst of the guest goes down as a burst of the hardware below, which ends where a step traps there. That step is
//! interpreted, and the guest's own step may have trapped or may not: a privileged instruction in the guest's supervisor mode
//! traps below, and is done. So a burst of the guest is bursts below, one after another, until the guest's own step trapped or
//! as many steps as were asked for are done.

ghost use Rattle.std.specs.Prelude.{◌≡◌, ◌≤◌, length};
ghost use Rattle.pg_lang_meaning.specs.Steps.{steps};
ghost use Rattle.pg_hw.specs.Bursts.{burst_length, untrapped_among, BottomRises};
ghost use Rattle.pg_hw.specs.Serving.{IsServed};
ghost use Rattle.pg_monitor.specs.Monitors.{desc_of};
ghost use Rattle.pg_nest.specs.Presenting.{first_state, Presents};
ghost use Rattle.pg_nest.specs.Bursting.{untrapped_told, IsSegment};

use pg_hw::Hardware;
use pg_monitor::{BurstTold, Monitor};
use pg_word::Mode;

/// What was done of a burst.
#[derive(Clone, Copy)]
pub(crate) struct Segment {
    /// The steps done, one that trapped among them.
    pub(crate) done: u64,
    /// The steps that began in user mode and did not trap.
    pub(crate) untrapped: u64,
    /// Whether the last of the steps trapped, so that the burst ends with it.
    pub(crate) ends: bool,
}

/// How many of the turns that one burst below made count as untrapped, by the guest's mode at the first of them.
fn untrapped_of(mode: Mode, told: BurstTold) -> u64
    ensures { result ≡ untrapped_told mode told }
{
    match mode {
        Mode::S => 0,
        Mode::U => told.turns.saturating_sub(u64::from(told.trapped)),
    }
}

/// Steps of the guest's machine that are one burst below, `most` of them at most and one at least.
fn go_on<H: Hardware>(monitor: &mut Monitor<'_>, hw: &mut H, most: u64) -> Segment
    requires served { IsServed (H.serves (H.fixed hw.old)) (desc_of monitor.old) }
    requires presents { Presents (desc_of monitor.old) (H.machinery hw.old).state monitor.old.guests monitor.old.current }
    requires some { 1 ≤ most }
    ensures segment { IsSegment (desc_of monitor.old) most (first_state (H.machinery hw.old).state.cells monitor.old.guests) result }
    ensures state { first_state (H.machinery hw.new).state.cells monitor.new.guests ≡ steps (desc_of monitor.old) result.done (first_state (H.machinery hw.old).state.cells monitor.old.guests) }
    ensures bottom { BottomRises (desc_of monitor.old) result.done (first_state (H.machinery hw.old).state.cells monitor.old.guests) (H.machinery hw.old).bottom (H.machinery hw.new).bottom }
    ensures presents { Presents (desc_of monitor.old) (H.machinery hw.new).state monitor.new.guests monitor.new.current }
    ensures machine { monitor.new.accepted.machine.now ≡ monitor.old.accepted.machine.now }
    ensures fixed { H.fixed hw.new ≡ H.fixed hw.old }
{
    let mode = monitor.guest(0).psw.mode;
    let told = monitor.burst_told(hw, 0, most);
    Segment {
        done: told.turns,
        untrapped: untrapped_of(mode, told),
        ends: told.trapped,
    }
}

/// A burst of the guest's machine of `most` steps at most: until so many were done, or the guest's own step trapped.
pub(crate) fn burst<H: Hardware>(monitor: &mut Monitor<'_>, hw: &mut H, most: u64) -> Segment
    requires served { IsServed (H.serves (H.fixed hw.old)) (desc_of monitor.old) }
    requires presents { Presents (desc_of monitor.old) (H.machinery hw.old).state monitor.old.guests monitor.old.current }
    ensures count { result.done ≡ burst_length (desc_of monitor.old) most (first_state (H.machinery hw.old).state.cells monitor.old.guests) }
    ensures untrapped { result.untrapped ≡ untrapped_among (desc_of monitor.old) result.done (first_state (H.machinery hw.old).state.cells monitor.old.guests) }
    ensures state { first_state (H.machinery hw.new).state.cells monitor.new.guests ≡ steps (desc_of monitor.old) result.done (first_state (H.machinery hw.old).state.cells monitor.old.guests) }
    ensures bottom { BottomRises (desc_of monitor.old) result.done (first_state (H.machinery hw.old).state.cells monitor.old.guests) (H.machinery hw.old).bottom (H.machinery hw.new).bottom }
    ensures presents { Presents (desc_of monitor.old) (H.machinery hw.new).state monitor.new.guests monitor.new.current }
    ensures machine { monitor.new.accepted.machine.now ≡ monitor.old.accepted.machine.now }
    ensures fixed { H.fixed hw.new ≡ H.fixed hw.old }
{
    let mut all = Segment {
        done: 0,
        untrapped: 0,
        ends: false,
    };
    while all.done < most {
        let next = go_on(monitor, hw, most - all.done);
        all.done += next.done;
        all.untrapped += next.untrapped;
        if next.ends {
            return all;
        }
    }
    all
}
