//! Whether a state is one of a machine.

ghost use Rattle.std.specs.Prelude.{◌≡◌, ◌↔◌, ◌^◌, ◌<◌, ◌≤◌, IsTrue, All};
ghost use Rattle.pg_word.specs.Psw.{IsPsw};
ghost use Rattle.pg_lang_meaning.specs.States.{IsState};
ghost use Rattle.pg_type.specs.Listed.{state_of};

use pg_mach_ready::Machine;
use pg_word::{Psw, Sparse};

/// Whether a number has at most so many bits, 1 to 64.
fn fits(number: u64, bits: u32) -> bool
    requires least { 1 ≤ bits }
    requires most { bits ≤ 64 }
    ensures { IsTrue result ↔ (number < 2 ^ bits) }
{
    if bits == 64 {
        return true;
    }
    number >> bits == 0
}

/// Whether the fields of a program status word are addresses of so many bits, 1 to 64.
fn is_psw(a: u32, psw: &Psw) -> bool
    requires least { 1 ≤ a }
    requires most { a ≤ 64 }
    ensures { IsTrue result ↔ IsPsw a psw.now }
{
    if !fits(u64::from(psw.p), a) {
        return false;
    }
    if !fits(u64::from(psw.l), a) {
        return false;
    }
    fits(u64::from(psw.b), a)
}

/// Whether all words of a list are of so many bits, 1 to 64.
fn are_words(w: u32, cells: &[(u32, u64)]) -> bool
    requires least { 1 ≤ w }
    requires most { w ≤ 64 }
    ensures { IsTrue result ↔ All (λ cell. cell.1 < 2 ^ w) cells.now }
{
    cells.iter().all(|cell| fits(cell.1, w))
}

/// Whether a state is one of a machine: of 2 to q cells, each a word, with addresses in its program status word.
pub fn is_state(m: &Machine, s: &Sparse) -> bool
    ensures { IsTrue result ↔ IsState m.now.desc (state_of s.now) }
{
    let shape = m.shape();
    if s.size < 2 {
        return false;
    }
    if s.size > shape.q {
        return false;
    }
    if !is_psw(shape.a, &s.psw) {
        return false;
    }
    are_words(shape.w, s.cells.as_slice())
}
