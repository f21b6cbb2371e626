//! Which cells a step touches.
//!
//! The interpreter asks for each cell that it reads, and answers the stores. So what it asks for is noted on the way. No clause says
//! what is noted: it chooses among states that are judged without it.

ghost use Rattle.std.specs.Prelude.{◌≡◌, ℕ, ◌+◌, ◌<◌, ◌^◌, slice_get};
ghost use Rattle.pg_lang_meaning.specs.States.{IsState, window, window_length};
ghost use Rattle.pg_type.specs.Listed.{state_of};

use pg_interp::{Cells, Outcome, execute};
use pg_mach_ready::Machine;
use pg_word::{NEW_PSW_CELL, OLD_PSW_CELL, Sparse, window_len};
use std::cell::RefCell;

/// The cells that were read: how often each, up to twice.
#[derive(Debug, Drop)]
struct Notes {
    /// The cells that were read, by their addresses in the window, each as a bit.
    once: u64,
    /// Those that were read again.
    again: u64,
}

/// The window of a state, of which is noted what is read.
#[derive(Clone, Copy)]
struct Noting<'a> {
    state: &'a Sparse,
    notes: &'a RefCell<Notes>,
}

/// How many cells the window of a state has.
fn length_of(state: &Sparse) -> u32
    ensures value { result ≡ window_length (state_of state.now) }
    ensures within { (a : ℕ) → a < result → state.now.psw.l + a < state.now.size }
    ensures size { state.now.size < 2 ^ 32 }
{
    window_len(state.psw, state.size)
}

/// The word at an address of the window of a state.
pub(crate) fn word_at(state: &Sparse, a: u32) -> Option<u64>
    ensures { result ≡ slice_get (window (state_of state.now)) a }
{
    if a >= length_of(state) {
        return None;
    }
    Some(state.cell(state.psw.l + a))
}

/// An address as a bit; none of an address from 64 on.
fn bit(a: u32) -> u64 {
    1u64.checked_shl(a).unwrap_or(0)
}

impl Cells for Noting<'_> {
    ghost use Rattle.pg_lang_meaning.specs.States.{window};
    ghost use Rattle.pg_type.specs.Listed.{state_of};

    ghost window = { λ n. window (state_of n.state.now) };

    fn cell(&self, a: u32) -> Option<u64> {
        if let Ok(mut notes) = self.notes.try_borrow_mut() {
            notes.again |= notes.once & bit(a);
            notes.once |= bit(a);
        }
        word_at(self.state, a)
    }
}

/// The cells that the step from a state touches beside that of the instruction, each as a bit of its address in the storage; none where
/// it reads its own word as an operand, or writes over it, or touches a cell where a trap stores or loads. The window has at most 24
/// cells.
pub(crate) fn touched(m: &Machine, s: &Sparse) -> Option<u64>
    requires { IsState m.now.desc (state_of s.now) }
{
    let notes = RefCell::new(Notes { once: 0, again: 0 });
    let noting = Noting {
        state: s,
        notes: &notes,
    };
    let outcome = execute(m, &noting, s.psw);
    let own = bit(s.psw.p);
    let (once, again) = match notes.try_borrow() {
        Ok(noted) => (noted.once, noted.again),
        Err(_) => return None,
    };
    let stored = written(&outcome);
    let cells = (once & !own | again & own | stored)
        .checked_shl(s.psw.l)
        .unwrap_or(0);
    let kept = bit(OLD_PSW_CELL) | bit(NEW_PSW_CELL) | own.checked_shl(s.psw.l).unwrap_or(0);
    if cells & kept == 0 { Some(cells) } else { None }
}

/// The addresses of stores, each as a bit.
fn written(outcome: &Outcome) -> u64 {
    let Outcome::Done(effect) = outcome else {
        return 0;
    };
    let mut all = 0;
    for write in effect.writes.as_slice() {
        all |= bit(write.at);
    }
    all
}
