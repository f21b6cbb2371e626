//! Rounds of guests that run until they are still.

ghost use Rattle.std.specs.Prelude.{◌≡◌, ℕ, ◌+◌, ◌<◌, ◌≤◌, ◌^◌, [], ◌∷◌, All, IfSome, false, length, None, Some, slice_get};
ghost use Rattle.pg_lang_meaning.specs.States.{State};
ghost use Rattle.pg_hw.specs.Serving.{IsServed};
ghost use Rattle.pg_mon_control.specs.Guests.{virtuals};
ghost use Rattle.pg_mon_control.specs.Standing.{Stands};
ghost use Rattle.pg_monitor.specs.Monitors.{desc_of};
ghost use Rattle.pg_monitor.specs.Schedules.{Begun};
ghost use Rattle.pg_monitor.specs.Settling.{first_of};
ghost use Rattle.pg_run_still.specs.Rounds.{round_behind};
ghost use Rattle.pg_run_still.specs.Resting.{AfterRound, AfterSlice, AreBefore, IsBefore, RanRounds, firsts};

use arrayvec::ArrayVec;
use pg_hw::Settling;
use pg_monitor::Monitor;
use pg_run_guests::{Pace, RunWatcher};

/// The most guests of a run.
pub const MOST_GUESTS: usize = 8;

/// What is told of a guest that ran.
#[derive(Clone, Copy, Debug, Default, PartialEq, Eq)]
pub struct Rest {
    /// How many turns it had.
    pub turns: u64,
    /// Behind how many of them it was first still; none where it was not found so.
    pub still: Option<u64>,
}

/// What is told of the guests of a run, in the order of their numbers.
pub type Rests = ArrayVec<Rest, MOST_GUESTS>;

/// Turns of each guest of a monitor, by slices of `slice` turns, one or more: guest 0 has a slice, then guest 1, and so on, and round
/// again. Each has its turns until it was found still, or has had `steps` of them; the last slice is shorter where need be. What is
/// told of each. The watcher is told how far they have come, before the first round and behind each.
pub fn run_rounds<H: Settling, W: RunWatcher>(
    monitor: &mut Monitor<'_>,
    hw: &mut H,
    slice: u64,
    steps: u64,
    watcher: &mut W,
) -> Rests
    requires served { IsServed (H.serves (H.fixed hw.old)) (desc_of monitor.old) }
    requires stands { Stands (desc_of monitor.old) (H.machinery hw.old).state monitor.old.guests monitor.old.current }
    requires few { length monitor.old.guests ≤ 8 }
    requires some { 1 ≤ slice }
    requires counted { steps < 2 ^ 63 }
    ensures stands { Stands (desc_of monitor.old) (H.machinery hw.new).state monitor.new.guests monitor.new.current }
    ensures ran { RanRounds (desc_of monitor.old) slice steps (H.machinery hw.old) (H.machinery hw.new) monitor.old.guests monitor.new.guests
        monitor.old.current monitor.new.current result.items }
    ensures machine { monitor.new.accepted.machine.now ≡ monitor.old.accepted.machine.now }
    ensures granted { monitor.new.granted ≡ monitor.old.granted }
    ensures fixed { H.fixed hw.new ≡ H.fixed hw.old }
{
    let mut rests = none_had(monitor.len());
    let mut done = 0;
    watcher.goes(pace_of(rests.as_slice()));
    while done < steps {
        if !is_any_going(rests.as_slice()) {
            return rests;
        }
        let turns = slice.min(steps - done);
        go_round(monitor, hw, rests.as_mut_slice(), done, turns);
        done += turns;
        watcher.goes(pace_of(rests.as_slice()));
    }
    rests
}

/// How far guests have come.
fn pace_of(rests: &[Rest]) -> Pace {
    let mut pace = Pace {
        turns: 0,
        still: 0,
        guests: rests.len(),
    };
    for rest in rests {
        pace.turns = pace.turns.saturating_add(rest.turns);
        pace.still = pace.still.saturating_add(usize::from(rest.still.is_some()));
    }
    pace
}

/// So many guests, none of which has had a turn.
fn none_had(count: usize) -> Rests
    requires { count ≤ 8 }
    ensures count { length result.items ≡ count }
    ensures each { All (λ rest. rest ≡ record { turns = 0; still = None }) result.items }
{
    let mut rests = ArrayVec::new();
    for _ in 0..count {
        rests.push(Rest {
            turns: 0,
            still: None,
        });
    }
    rests
}

/// Whether a guest was not found still.
fn is_any_going(rests: &[Rest]) -> bool
    ensures none { result ≡ false → All (λ rest. rest.still ≡ None → ⊥) rests.now }
{
    for rest in rests {
        if rest.still.is_none() {
            return true;
        }
    }
    false
}

/// One round, behind `done` turns: each guest that was not found still has so many more, in the order of their numbers.
fn go_round<H: Settling>(
    monitor: &mut Monitor<'_>,
    hw: &mut H,
    rests: &mut [Rest],
    done: u64,
    turns: u64,
)
    requires served { IsServed (H.serves (H.fixed hw.old)) (desc_of monitor.old) }
    requires stands { Stands (desc_of monitor.old) (H.machinery hw.old).state monitor.old.guests monitor.old.current }
    requires count { length rests.old ≡ length monitor.old.guests }
    requires before { AreBefore done rests.old }
    requires counted { done + turns < 2 ^ 64 }
    ensures stands { Stands (desc_of monitor.old) (H.machinery hw.new).state monitor.new.guests monitor.new.current }
    ensures round { AfterRound (desc_of monitor.old) done turns (H.machinery hw.old) (H.machinery hw.new) monitor.old.guests monitor.new.guests
        monitor.old.current monitor.new.current rests.old rests.new }
    ensures number { length monitor.new.guests ≡ length monitor.old.guests }
    ensures machine { monitor.new.accepted.machine.now ≡ monitor.old.accepted.machine.now }
    ensures granted { monitor.new.granted ≡ monitor.old.granted }
    ensures fixed { H.fixed hw.new ≡ H.fixed hw.old }
{
    for k in 0..rests.len() {
        rests[k] = give_slice(monitor, hw, k, rests[k], done, turns);
    }
}

/// A guest's slice of a round, behind `done` turns; what is told of the guest then. One that was found still has none.
fn give_slice<H: Settling>(
    monitor: &mut Monitor<'_>,
    hw: &mut H,
    k: usize,
    rest: Rest,
    done: u64,
    turns: u64,
) -> Rest
    requires served { IsServed (H.serves (H.fixed hw.old)) (desc_of monitor.old) }
    requires stands { Stands (desc_of monitor.old) (H.machinery hw.old).state monitor.old.guests monitor.old.current }
    requires known { k < length monitor.old.guests }
    requires before { IsBefore done rest.still }
    requires counted { done + turns < 2 ^ 64 }
    ensures stands { Stands (desc_of monitor.old) (H.machinery hw.new).state monitor.new.guests monitor.new.current }
    ensures begun { Begun (desc_of monitor.old) (round_behind done turns k (result.still ∷ [])) (H.machinery hw.old) (H.machinery hw.new)
        monitor.old.guests monitor.new.guests monitor.old.current monitor.new.current }
    ensures rest { (s : State) → slice_get (virtuals (H.machinery hw.old).state.cells monitor.old.guests) k ≡ Some s
        → AfterSlice (desc_of monitor.old) done turns s rest result }
    ensures number { length monitor.new.guests ≡ length monitor.old.guests }
    ensures machine { monitor.new.accepted.machine.now ≡ monitor.old.accepted.machine.now }
    ensures granted { monitor.new.granted ≡ monitor.old.granted }
    ensures fixed { H.fixed hw.new ≡ H.fixed hw.old }
{
    match rest.still {
        Some(_) => rest,
        None => {
            let told = monitor.settle(hw, k, turns);
            Rest {
                turns: done + turns,
                still: behind(done, told),
            }
        }
    }
}

/// Behind how many turns a guest was first still, told behind so many of them.
fn behind(done: u64, told: Option<u64>) -> Option<u64>
    requires { IfSome told (λ n. done + n < 2 ^ 64) }
    ensures { result ≡ first_of None done told }
{
    match told {
        Some(n) => Some(done + n),
        None => None,
    }
}
