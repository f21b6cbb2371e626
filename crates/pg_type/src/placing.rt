//! The states that an answer names: few words of a window, and zeros in all other cells.
//!
//! An answer to a question about two states names words at addresses of their window, in any order, and some of them twice.
//! `placed` makes such a state, listed as states are. It costs the sorting of what is named, however large the window is.

ghost use Rattle.std.specs.Prelude.{◌≡◌, ◌≢◌, ℕ, ◌+◌, ◌++◌, ◌<◌, ◌^◌, [], IfOk, OnOk, All};
ghost use Rattle.std.specs.List.Sorted.{IsNonDecreasingBy, IsStableByKey};
ghost use Rattle.std.specs.Ordering.{nat_cmp};
ghost use Rattle.pg_word.specs.Psw.{window_len_of};
ghost use Rattle.pg_word.specs.Sparse.{IsPastLast, storage_of};
ghost use Rattle.pg_lang_meaning.specs.States.{window};
ghost use Rattle.pg_type.specs.Listed.{state_of};
ghost use Rattle.pg_type.specs.Placing.{window_of, zeros_around, state_around, listed};

use pg_word::{CellList, Psw, Sparse};
use std::alloc::{AllocError, Global};

/// Lists a word past the last cell, unless it is zero.
fn push_word(state: &mut Sparse, at: u32, word: u64) -> Result<(), AllocError>
    requires within { at < state.old.size }
    requires past_last { IsPastLast state.old.cells at }
    ensures cells { OnOk result (state.new.cells ≡ state.old.cells ++ listed at word) }
    ensures size { state.new.size ≡ state.old.size }
    ensures psw { state.new.psw ≡ state.old.psw }
{
    if word == 0 {
        return Ok(());
    }
    state.push(at, word)
}

/// The words in the order of their addresses. Those of one address keep theirs.
fn sorted(alloc: Global, cells: &[(u32, u64)]) -> Result<Vec<(u32, u64)>, AllocError>
    ensures ascending { IfOk result (λ v. IsNonDecreasingBy (λ cell. cell.0) v.items) }
    ensures stable { IfOk result (λ v. IsStableByKey (λ cell. cell.0) nat_cmp cells.now v.items) }
{
    let mut ordered = Vec::from_slice(alloc, cells)?;
    ordered.sort_by_key(|cell| cell.0)?;
    Ok(ordered)
}

/// `placed`, of words whose addresses ascend.
fn in_order(
    alloc: Global,
    cells: &[(u32, u64)],
    usable: u32,
    size: u32,
    psw: Psw,
) -> Result<Sparse, AllocError>
    requires usable { usable ≡ window_len_of psw size }
    requires ascending { IsNonDecreasingBy (λ cell. cell.0) cells.now }
    ensures storage { IfOk result (λ s. storage_of s.size s.cells ≡ zeros_around size psw.l (window_of cells.now usable)) }
    ensures size { IfOk result (λ s. s.size ≡ size) }
    ensures psw { IfOk result (λ s. s.psw ≡ psw) }
{
    let mut state = Sparse::new(size, psw, CellList::new(alloc));
    let mut least = 0;
    for cell in cells {
        let (address, word) = *cell;
        if (least..usable).contains(&address) {
            push_word(&mut state, psw.l + address, word)?;
            least = address + 1;
        }
    }
    Ok(state)
}

/// The state of a size under a program status word with these words in its window, each beside its address there, and zeros in all other
/// cells. Of two words at one address the first one counts. A word at an address from `usable` on, the length of the window, is left out.
pub fn placed(
    alloc: Global,
    cells: &[(u32, u64)],
    usable: u32,
    size: u32,
    psw: Psw,
) -> Result<Sparse, AllocError>
    requires { usable ≡ window_len_of psw size }
    ensures state { IfOk result (λ s. state_of s ≡ state_around size psw (window_of cells.now usable)) }
    ensures size { IfOk result (λ s. s.size ≡ size) }
    ensures psw { IfOk result (λ s. s.psw ≡ psw) }
    ensures window { IfOk result (λ s. window (state_of s) ≡ window_of cells.now usable) }
    ensures words { (w : ℕ) → All (λ cell. cell.1 < 2 ^ w) cells.now → IfOk result (λ s. All (λ word. word < 2 ^ w) (state_of s).cells) }
{
    let ordered = sorted(alloc, cells)?;
    let state = in_order(alloc, ordered.as_slice(), usable, size, psw)?;
    Ok(state)
}
