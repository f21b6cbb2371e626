//! Rows of cells that are added to a state.
//!
//! A row is `LINE_CELLS` cells beside each other, or fewer where the storage ends. It comes behind all cells that were listed
//! so far, so the state stays one of which each cell is listed once, in order.

ghost use Rattle.std.specs.Prelude.{◌≡◌, ◌-◌, ◌<◌, ◌≤◌, ◌++◌, ◌∷◌, [], length, nat_lt, IfOk, OnOk};
ghost use Rattle.std.specs.List.{All, list_all};
ghost use Rattle.pg_cert_drawn.specs.Drawn.{drawn_of, drawn, listed, row_fits, with_row, IsStateDue};

use pg_image::LINE_CELLS;
use pg_word::{CellList, Psw, Sparse};
use std::alloc::{AllocError, Global};

/// A state of this size and this program status word, of which no row was read: each cell is zero. It takes no memory yet.
pub fn drawn(alloc: Global, size: u32, psw: Psw) -> Sparse
    ensures { drawn_of result ≡ drawn size psw }
{
    Sparse::new(size, psw, CellList::new(alloc))
}

/// Whether all cells lie below an address: the last of them does.
fn lie_below(cells: &CellList, first: u32) -> bool
    ensures { result ≡ list_all (λ cell. nat_lt cell.0 first) cells.now }
{
    let cells = cells.as_slice();
    let count = cells.len();
    if count == 0 {
        return true;
    }
    let last = cells[count - 1].0;
    last < first
}

/// Whether a row of these words from cell `first` on is the next of a state.
fn row_fits(state: &Sparse, first: u32, words: &[u64]) -> bool
    ensures { result ≡ row_fits (drawn_of state.now) first words.now }
{
    if !lie_below(&state.cells, first) {
        return false;
    }
    words.len() == LINE_CELLS.min(state.size.saturating_sub(first) as usize)
}

/// A word behind the cells of a state, unless it is zero.
fn push_word(state: &mut Sparse, at: u32, word: u64) -> Result<(), AllocError>
    requires below { All (λ cell. cell.0 < at) state.old.cells }
    requires within { at < state.old.size }
    ensures cells { OnOk result (state.new.cells ≡ state.old.cells ++ listed at (word ∷ [])) }
    ensures size { state.new.size ≡ state.old.size }
    ensures psw { state.new.psw ≡ state.old.psw }
{
    if word == 0 {
        return Ok(());
    }
    state.push(at, word)
}

/// The cells of a row that are not zero, behind those of a state.
fn push_words(state: &mut Sparse, first: u32, words: &[u64]) -> Result<(), AllocError>
    requires below { All (λ cell. cell.0 < first) state.old.cells }
    requires within { length words.now ≤ state.old.size - first }
    ensures cells { OnOk result (state.new.cells ≡ state.old.cells ++ listed first words.now) }
    ensures size { state.new.size ≡ state.old.size }
    ensures psw { state.new.psw ≡ state.old.psw }
{
    let size = state.size;
    let mut at = first;
    for word in words {
        prove!(at < size);
        push_word(state, at, *word)?;
        at += 1;
    }
    Ok(())
}

/// A state with a row more, of these words from cell `first` on: `None` where it does not fit, and else the state whose cells in the row
/// are these words.
///
/// It fits where `first` lies above each cell that is not zero, and the words are as many as the storage has there, `LINE_CELLS` at most.
/// It costs the number of words.
pub fn with_row(mut state: Sparse, first: u32, words: &[u64]) -> Result<Option<Sparse>, AllocError>
    ensures { IfOk result (λ next. IsStateDue (with_row first words.now (drawn_of state)) next) }
{
    if !row_fits(&state, first, words) {
        return Ok(None);
    }
    push_words(&mut state, first, words)?;
    Ok(Some(state))
}
