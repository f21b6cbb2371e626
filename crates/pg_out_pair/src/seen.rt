//! A storage, seen through the window of a program status word.

ghost use Rattle.std.specs.Prelude.{◌≡◌, ℕ, ◌+◌, ◌<◌, ◌^◌, slice_get};
ghost use Rattle.pg_lang_meaning.specs.States.{window_length};
ghost use Rattle.pg_type.specs.Listed.{state_of};
ghost use Rattle.pg_out_pair.specs.Telling.{seen};
ghost use Rattle.pg_out_pair.specs.Views.{seen_window};

use pg_word::{Psw, Sparse, window_len};

/// The storage of a state, seen through the window that a program status word opens in it.
#[derive(Clone, Copy)]
pub(crate) struct Seen<'a> {
    /// The program status word that opens the window.
    pub psw: Psw,
    /// The state with the storage.
    pub state: &'a Sparse,
}

/// How many cells the window has.
fn length_of(x: &Seen<'_>) -> u32
    ensures value { result ≡ window_length (seen x.now.psw (state_of x.now.state.now)) }
    ensures within { (a : ℕ) → a < result → x.now.psw.l + a < x.now.state.now.size }
    ensures size { x.now.state.now.size < 2 ^ 32 }
{
    window_len(x.psw, x.state.size)
}

/// The word at an address of the window, and none past its end.
pub(crate) fn word_at(x: &Seen<'_>, a: u32) -> Option<u64>
    ensures { result ≡ slice_get (seen_window x.now) a }
{
    if a >= length_of(x) {
        return None;
    }
    Some(x.state.cell(x.psw.l + a))
}
