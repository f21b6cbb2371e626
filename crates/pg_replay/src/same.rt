//! Whether two states are the same, or their windows are.
//!
//! Two windows of one length are the same where each cell that is not zero in one of them stands in the other. So only the
//! cells that are listed are looked at.

ghost use Rattle.std.specs.Prelude.{◌≡◌, ◌↔◌, IsTrue, All, length};
ghost use Rattle.pg_lang_meaning.specs.States.{window, in_user};
ghost use Rattle.pg_type.specs.Listed.{state_of};
ghost use Rattle.pg_replay.specs.Covers.{IsCovered, StandsIn};

use crate::window::{length_of, window_of};
use pg_interp::Cells;
use pg_word::{Mode, Psw, Sparse};

/// Whether two lists of cells are the same.
fn are_same(x: &[(u32, u64)], y: &[(u32, u64)]) -> bool
    ensures { IsTrue result ↔ (x.now ≡ y.now) }
{
    if x.len() != y.len() {
        return false;
    }
    for (k, cell) in x.iter().enumerate() {
        if cell.0 != y[k].0 || cell.1 != y[k].1 {
            return false;
        }
    }
    true
}

/// Whether two states are of one size.
pub fn same_size(s: &Sparse, t: &Sparse) -> bool
    ensures { IsTrue result ↔ (length (state_of s.now).cells ≡ length (state_of t.now).cells) }
{
    s.size == t.size
}

/// Whether two states have the same storage.
fn same_storage(s: &Sparse, t: &Sparse) -> bool
    ensures { IsTrue result ↔ ((state_of s.now).cells ≡ (state_of t.now).cells) }
{
    if s.size != t.size {
        return false;
    }
    are_same(s.cells.as_slice(), t.cells.as_slice())
}

/// Whether two modes are the same.
pub fn same_mode(x: Mode, y: Mode) -> bool
    ensures { IsTrue result ↔ (x ≡ y) }
{
    x == y
}

/// Whether two program status words are the same.
fn same_psw(x: &Psw, y: &Psw) -> bool
    ensures { IsTrue result ↔ (x.now ≡ y.now) }
{
    if x.p != y.p || x.l != y.l || x.b != y.b {
        return false;
    }
    same_mode(x.mode, y.mode)
}

/// Whether the second state is the first.
pub fn is_same(s: &Sparse, t: &Sparse) -> bool
    ensures { IsTrue result ↔ (state_of t.now ≡ state_of s.now) }
{
    if !same_psw(&t.psw, &s.psw) {
        return false;
    }
    same_storage(t, s)
}

/// Whether the second state is the first in user mode.
pub fn is_in_user(s: &Sparse, t: &Sparse) -> bool
    ensures { IsTrue result ↔ (state_of t.now ≡ in_user (state_of s.now)) }
{
    let psw = Psw {
        mode: Mode::U,
        p: s.psw.p,
        l: s.psw.l,
        b: s.psw.b,
    };
    if !same_psw(&t.psw, &psw) {
        return false;
    }
    same_storage(t, s)
}

/// Whether a cell of a storage, where it lies in the window of one state, is that of the window of another.
fn stands(s: &Sparse, t: &Sparse, at: u32, word: u64) -> bool
    ensures { IsTrue result ↔ StandsIn (state_of s.now) (window (state_of t.now)) at word }
{
    if at < s.psw.l || at - s.psw.l >= length_of(s) {
        return true;
    }
    window_of(t).cell(at - s.psw.l) == Some(word)
}

/// The same of all cells of a list.
fn all_stand(s: &Sparse, t: &Sparse, cells: &[(u32, u64)]) -> bool
    ensures { IsTrue result ↔ All (λ cell. StandsIn (state_of s.now) (window (state_of t.now)) cell.0 cell.1) cells.now }
{
    cells.iter().all(|cell| stands(s, t, cell.0, cell.1))
}

/// Whether each cell of the window of the first state that is not zero stands in that of the second.
fn is_covered(s: &Sparse, t: &Sparse) -> bool
    ensures { IsTrue result ↔ IsCovered (window (state_of s.now)) (window (state_of t.now)) }
{
    all_stand(s, t, s.cells.as_slice())
}

/// Whether two states have the same window.
pub fn same_window(s: &Sparse, t: &Sparse) -> bool
    ensures { IsTrue result ↔ (window (state_of s.now) ≡ window (state_of t.now)) }
{
    if length_of(s) != length_of(t) {
        return false;
    }
    if !is_covered(s, t) {
        return false;
    }
    is_covered(t, s)
}
