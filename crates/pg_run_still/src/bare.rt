//! Runs of a bare machine that end.
//!
//! The hardware does the steps in bursts, and tells of each where its state came to stay without a trap. What traps it does not tell:
//! a burst ends with it. The step behind a burst is interpreted instead (`step_seen`), which tells of every step whether it leaves the
//! state as it is. Where that one traps, and leaves the state so, the step before, with which the burst ended, may have done so too.
//! Then the machine is switched on once more, runs up to there, and the state is looked at (`first_about`), instead of a state being
//! kept before each trap. So a run that a trap ends takes twice the time, and no other.

ghost use Rattle.std.specs.Prelude.{◌≡◌, ◌≤◌, ◌<◌, ◌-◌, ◌+◌, IfOk, OnErr, Some, true, false, length};
ghost use Rattle.pg_hw.specs.Bursts.{traps};
ghost use Rattle.pg_hw.specs.Serving.{IsServed};
ghost use Rattle.pg_hw.specs.Stillness.{IsStill};
ghost use Rattle.pg_lang_meaning.specs.States.{IsState};
ghost use Rattle.pg_lang_meaning.specs.Steps.{step, steps};
ghost use Rattle.pg_monitor.specs.Settling.{StillFirst};
ghost use Rattle.pg_run_still.specs.declared.bare.Met.TheVariants.{About, First};
ghost use Rattle.pg_run_still.specs.Bare.{CanStand, IsMet, StillAbout, Stood};

use pg_hw::{Hardware, Settling, bare, power_on};
use pg_interp::Frame;
use pg_mach_ready::Machine;
use pg_routine::{Emulated, emulate_seen};
use pg_run_guests::{Pace, RunWatcher};
use std::alloc::AllocError;

/// How many steps a machine does, at most, until its watcher is told.
const MOST_UNTOLD: u64 = 1 << 20;

/// What a run met.
pub(crate) enum Met {
    /// A state that is first still behind so many steps; none where no state before the last step is.
    First(Option<u64>),
    /// A state that is still behind so many steps. The one before it may be, and no other before.
    About(u64),
}

/// Runs a bare machine on the hardware, switched on with an image of `grant` cells, until it is still or has done `most` steps; behind
/// how many steps it is first still, none where it was not found so before the last of them. The hardware is then at the state behind
/// these steps. What its counts say means nothing. The watcher is told how far it has come.
///
/// # Errors
/// The hardware is as it was.
pub fn run_bare_until_still<H: Settling, W: RunWatcher>(
    machine: &Machine,
    image: &[u64],
    grant: u32,
    most: u64,
    hw: &mut H,
    watcher: &mut W,
) -> Result<Option<u64>, AllocError>
    requires served { IsServed (H.serves (H.fixed hw.old)) machine.now.desc }
    requires room { grant ≤ H.room (H.fixed hw.old) }
    requires can_stand { CanStand machine.now.desc grant image.now }
    ensures stood { IfOk result (λ still. Stood machine.now.desc grant most image.now still (H.machinery hw.new).state) }
    ensures refused { OnErr result (H.machinery hw.new ≡ H.machinery hw.old) }
    ensures fixed { H.fixed hw.new ≡ H.fixed hw.old }
{
    match hw.install(grant) {
        Ok(()) => {}
        Err(refused) => return Err(refused),
    }
    power_on(hw, image);
    match run_until(machine, hw, most, watcher) {
        Met::First(still) => Ok(still),
        Met::About(n) => {
            power_on(hw, image);
            Ok(Some(first_about(machine, hw, n)))
        }
    }
}

/// Does steps from the state of a hardware until one is met that is still, `most` at most.
fn run_until<H: Settling, W: RunWatcher>(m: &Machine, hw: &mut H, most: u64, watcher: &mut W) -> Met
    requires served { IsServed (H.serves (H.fixed hw.old)) m.now.desc }
    requires state { IsState m.now.desc (H.machinery hw.old).state }
    ensures met { IsMet m.now.desc most (H.machinery hw.old).state result (H.machinery hw.new).state }
    ensures fixed { H.fixed hw.new ≡ H.fixed hw.old }
{
    let mut frame = Frame::new();
    let mut done = 0;
    while done < most {
        watcher.goes(steps_done(done));
        let untold = at_once(most - done);
        let burst = hw.burst_settling(m, untold);
        match burst.still {
            Some(n) => return Met::First(Some(done + n)),
            None => {}
        }
        let at = done + burst.done;
        let seen = step_seen(m, hw, &mut frame);
        if seen.still {
            return behind_burst(at, burst.done, seen.trapped);
        }
        done = at + 1;
    }
    watcher.goes(steps_done(done));
    Met::First(None)
}

/// How many steps are done in a burst, where so many are left: the last one is left to be looked at.
fn at_once(left: u64) -> u64
    requires { 1 ≤ left }
    ensures { result < left }
{
    (left - 1).min(MOST_UNTOLD)
}

/// How far a machine has come that has done so many steps.
fn steps_done(steps: u64) -> Pace {
    Pace {
        turns: steps,
        still: 0,
        guests: 0,
    }
}

/// What is met behind a burst of so many steps, where the state is still; and whether the step there traps.
fn behind_burst(at: u64, burst: u64, trapped: bool) -> Met
    ensures about { trapped ≡ true → 1 ≤ burst → result ≡ About at }
    ensures calm { trapped ≡ false → result ≡ First (Some at) }
    ensures none { burst ≡ 0 → result ≡ First (Some at) }
{
    if trapped && 0 < burst {
        Met::About(at)
    } else {
        Met::First(Some(at))
    }
}

/// Does steps from the state of a hardware up to where it is first still, known to be behind n steps or behind one fewer.
fn first_about<H: Hardware>(m: &Machine, hw: &mut H, n: u64) -> u64
    requires served { IsServed (H.serves (H.fixed hw.old)) m.now.desc }
    requires state { IsState m.now.desc (H.machinery hw.old).state }
    requires about { StillAbout m.now.desc n (H.machinery hw.old).state }
    ensures first { StillFirst m.now.desc result (n + 1) (H.machinery hw.old).state }
    ensures reached { (H.machinery hw.new).state ≡ steps m.now.desc result (H.machinery hw.old).state }
    ensures fixed { H.fixed hw.new ≡ H.fixed hw.old }
{
    let mut frame = Frame::new();
    bare(hw, m, n - 1);
    let seen = step_seen(m, hw, &mut frame);
    if seen.still { n - 1 } else { n }
}

/// One step of a bare machine, interpreted; whether it trapped, and whether it left the state as it was. What the frame has before means
/// nothing.
pub fn step_seen<H: Hardware>(m: &Machine, hw: &mut H, frame: &mut Frame) -> Emulated
    requires served { IsServed (H.serves (H.fixed hw.old)) m.now.desc }
    requires state { IsState m.now.desc (H.machinery hw.old).state }
    ensures state { (H.machinery hw.new).state ≡ step m.now.desc (H.machinery hw.old).state }
    ensures trapped { result.trapped ≡ traps m.now.desc (H.machinery hw.old).state }
    ensures still { result.still ≡ true → IsStill m.now.desc (H.machinery hw.old).state }
    ensures moves { result.still ≡ false → IsStill m.now.desc (H.machinery hw.old).state → ⊥ }
    ensures fixed { H.fixed hw.new ≡ H.fixed hw.old }
{
    // The whole storage is taken for the grant of a guest, whose steps are interpreted.
    let size = hw.size();
    let mut psw = hw.psw();
    let seen = emulate_seen(m, hw, 0, size, &mut psw, frame);
    hw.set_psw(psw);
    seen
}
