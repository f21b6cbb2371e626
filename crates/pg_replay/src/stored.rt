//! A state with one cell changed, and with the stores of an instruction made.
//!
//! The list of cells is made anew, in the order of addresses: those below the cell, the cell where its word is not zero, and
//! those above it.

ghost use Rattle.std.specs.Prelude.{◌≡◌, ◌≢◌, ◌+◌, ◌^◌, ◌<◌, ◌++◌, ◌∷◌, [], length, slice_set, filter, if◌then◌else◌, IsTrue, IfOk, OnOk, All};
ghost use Rattle.pg_word.specs.Sparse.{IsCellList, IsPastLast, AreWithin};
ghost use Rattle.pg_lang_meaning.specs.States.{window, put_back};
ghost use Rattle.pg_interp.specs.Writes.{written};
ghost use Rattle.pg_type.specs.Listed.{state_of};
ghost use Rattle.pg_replay.specs.Storing.{is_between};

use pg_interp::Write;
use pg_word::{CellList, Sparse};
use std::alloc::{AllocError, Global};

/// Pushes a cell, or does not.
fn push_if(state: &mut Sparse, kept: bool, at: u32, word: u64) -> Result<(), AllocError>
    requires within { at < state.old.size }
    requires past_last { IsTrue kept → IsPastLast state.old.cells at }
    requires not_zero { IsTrue kept → word ≢ 0 }
    ensures ok { OnOk result (state.new.cells ≡ state.old.cells ++ (if kept then (at, word) ∷ [] else [])) }
    ensures size { state.new.size ≡ state.old.size }
    ensures psw { state.new.psw ≡ state.old.psw }
{
    if kept { state.push(at, word) } else { Ok(()) }
}

/// Whether an address is one from the first on, and below the second.
fn is_between(from: u64, to: u64, at: u32) -> bool
    ensures { result ≡ is_between from to at }
{
    from <= u64::from(at) && u64::from(at) < to
}

/// Pushes the cells of a list whose addresses are from the first on, and below the second.
fn push_between(
    state: &mut Sparse,
    cells: &[(u32, u64)],
    from: u64,
    to: u64,
) -> Result<(), AllocError>
    requires listed { IsCellList cells.now }
    requires within { AreWithin state.old.size cells.now }
    requires below { All (λ c. c.0 < from) state.old.cells }
    ensures ok { OnOk result (state.new.cells ≡ state.old.cells ++ filter (λ c. is_between from to c.0) cells.now) }
    ensures size { state.new.size ≡ state.old.size }
    ensures psw { state.new.psw ≡ state.old.psw }
{
    for cell in cells {
        push_if(state, is_between(from, to, cell.0), cell.0, cell.1)?;
    }
    Ok(())
}

/// The addresses of all cells are below it.
const PAST_ALL: u64 = 1 << 32;

/// A state with a word at an address, and all else as it was.
pub fn stored(alloc: Global, s: &Sparse, at: u32, word: u64) -> Result<Sparse, AllocError>
    requires { at < s.now.size }
    ensures cells { IfOk result (λ t. (state_of t).cells ≡ slice_set (state_of s.now).cells at word) }
    ensures size { IfOk result (λ t. t.size ≡ s.now.size) }
    ensures psw { IfOk result (λ t. t.psw ≡ s.now.psw) }
{
    let mut state = Sparse::new(s.size, s.psw, CellList::new(alloc));
    push_between(&mut state, s.cells.as_slice(), 0, u64::from(at))?;
    push_if(&mut state, word != 0, at, word)?;
    push_between(&mut state, s.cells.as_slice(), u64::from(at) + 1, PAST_ALL)?;
    Ok(state)
}

/// The same state once more.
fn copied(alloc: Global, s: &Sparse) -> Result<Sparse, AllocError>
    ensures same { IfOk result (λ t. t ≡ s.now) }
    ensures size { OnOk result (s.now.size < 2 ^ 32) }
{
    let cells = Vec::from_slice(alloc, s.cells.as_slice())?;
    Ok(Sparse::new(s.size, s.psw, CellList::from_vec(cells)))
}

/// A state after stores into its window, made in order.
pub fn after_stores(alloc: Global, s: &Sparse, writes: &[Write]) -> Result<Sparse, AllocError>
    requires { All (λ w. w.at < length (window (state_of s.now))) writes.now }
    ensures cells { IfOk result (λ t. (state_of t).cells ≡ put_back (state_of s.now) (written writes.now (window (state_of s.now)))) }
{
    let mut state = copied(alloc, s)?;
    for w in writes {
        let next = stored(alloc, &state, s.psw.l + w.at, w.cell)?;
        state = next;
    }
    Ok(state)
}
