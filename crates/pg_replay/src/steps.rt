//! A step of a machine from a state.

ghost use Rattle.std.specs.Prelude.{◌≡◌, ◌<◌, length, IfOk, All};
ghost use Rattle.pg_word.specs.Psw.{cause_number};
ghost use Rattle.pg_lang_meaning.specs.States.{IsState, window, put_back};
ghost use Rattle.pg_lang_meaning.specs.Steps.{ending, step, trapped};
ghost use Rattle.pg_interp.specs.Writes.{written};
ghost use Rattle.pg_type.specs.Listed.{state_of};
ghost use Rattle.pg_replay.specs.Storing.{cause_of};

use crate::stored::{after_stores, stored};
use crate::window::window_of;
use pg_interp::{Effect, Outcome, execute};
use pg_mach_ready::Machine;
use pg_word::{Cause, NEW_PSW_CELL, OLD_PSW_CELL, Sparse, pack_trap, unpack};
use std::alloc::{AllocError, Global};

/// One step of a machine: why it trapped, none where it was done, and the state that follows.
pub fn after(alloc: Global, m: &Machine, s: &Sparse) -> Result<(Option<Cause>, Sparse), AllocError>
    requires { IsState m.now.desc (state_of s.now) }
    ensures cause { IfOk result (λ r. r.0 ≡ cause_of (ending m.now.desc (window (state_of s.now)) s.now.psw)) }
    ensures state { IfOk result (λ r. state_of r.1 ≡ step m.now.desc (state_of s.now)) }
{
    match execute(m, &window_of(s), s.psw) {
        Outcome::MemTrap => trap(alloc, m, s, Cause::Memory),
        Outcome::Trap => trap(alloc, m, s, Cause::Trap),
        Outcome::NoPattern => trap(alloc, m, s, Cause::NoPattern),
        Outcome::Done(effect) => done(alloc, s, &effect),
    }
}

/// A step that traps.
fn trap(
    alloc: Global,
    m: &Machine,
    s: &Sparse,
    cause: Cause,
) -> Result<(Option<Cause>, Sparse), AllocError>
    requires { IsState m.now.desc (state_of s.now) }
    ensures cause { IfOk result (λ r. r.0 ≡ Some cause) }
    ensures state { IfOk result (λ r. state_of r.1 ≡ trapped m.now.desc (state_of s.now) (cause_number cause)) }
{
    let shape = m.shape();
    let word = pack_trap(shape, s.psw, cause.number());
    let mut state = stored(alloc, s, OLD_PSW_CELL, word)?;
    state.psw = unpack(shape, s.cell(NEW_PSW_CELL));
    Ok((Some(cause), state))
}

/// A step that is done.
fn done(alloc: Global, s: &Sparse, effect: &Effect) -> Result<(Option<Cause>, Sparse), AllocError>
    requires { All (λ w. w.at < length (window (state_of s.now))) effect.now.writes }
    ensures cause { IfOk result (λ r. r.0 ≡ None) }
    ensures state { IfOk result (λ r. state_of r.1 ≡ record { cells = put_back (state_of s.now) (written effect.now.writes (window (state_of s.now))); psw = effect.now.psw }) }
{
    let mut state = after_stores(alloc, s, effect.writes.as_slice())?;
    state.psw = effect.psw;
    Ok((None, state))
}
