//! The window of a state of which only the cells that are not zero are listed.

ghost use Rattle.std.specs.Prelude.{◌≡◌, ℕ, ◌+◌, ◌<◌, ◌^◌};
ghost use Rattle.pg_lang_meaning.specs.States.{window_length};
ghost use Rattle.pg_type.specs.Listed.{state_of};

use pg_interp::Cells;
use pg_word::{Sparse, window_len};

/// The cells that the program status word of a state makes usable.
#[derive(Clone, Copy)]
pub struct Window<'a> {
    state: &'a Sparse,
}

/// The window of a state.
pub fn window_of(state: &Sparse) -> Window<'_>
    ensures { result.state.now ≡ state.now }
{
    Window { state }
}

/// How many cells the window of a state has.
pub fn length_of(state: &Sparse) -> u32
    ensures value { result ≡ window_length (state_of state.now) }
    ensures within { (a : ℕ) → a < result → state.now.psw.l + a < state.now.size }
    ensures size { state.now.size < 2 ^ 32 }
{
    window_len(state.psw, state.size)
}

impl Cells for Window<'_> {
    ghost use Rattle.pg_lang_meaning.specs.States.{window};
    ghost use Rattle.pg_type.specs.Listed.{state_of};

    ghost window = { λ w. window (state_of w.state.now) };

    fn cell(&self, a: u32) -> Option<u64> {
        if a >= length_of(self.state) {
            return None;
        }
        Some(self.state.cell(self.state.psw.l + a))
    }
}
