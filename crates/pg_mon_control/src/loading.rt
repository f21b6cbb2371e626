//! Words that are put into a grant.

ghost use Rattle.std.specs.Prelude.{◌≡◌, ◌+◌, ◌<◌, ◌≤◌, ◌^◌, length, All};
ghost use Rattle.pg_word.specs.Sparse.{storage_of};
ghost use Rattle.pg_hw.specs.Serving.{IsServedWord};
ghost use Rattle.pg_mon_control.specs.Loading.{with_words};

use pg_hw::Hardware;
use pg_word::Sparse;

/// Pokes words into the cells from `base` on, one after another.
pub fn put_words<H: Hardware>(hw: &mut H, base: u32, words: &[u64])
    requires addressable { base + length words.now < 2 ^ 32 }
    requires within { base + length words.now ≤ length (H.machinery hw.old).state.cells }
    requires words { All (IsServedWord (H.serves (H.fixed hw.old))) words.now }
    ensures put { H.machinery hw.new ≡ with_words base words.now (H.machinery hw.old) }
    ensures fixed { H.fixed hw.new ≡ H.fixed hw.old }
{
    let count = words.len() as u32;
    for at in 0..count {
        hw.poke(base + at, words[at as usize]);
    }
}

/// Pokes the cells of a state into those from `base` on, one after another.
pub fn put_state<H: Hardware>(hw: &mut H, base: u32, state: &Sparse)
    requires addressable { base + state.now.size < 2 ^ 32 }
    requires within { base + state.now.size ≤ length (H.machinery hw.old).state.cells }
    requires words { All (IsServedWord (H.serves (H.fixed hw.old))) (storage_of state.now.size state.now.cells) }
    ensures put { H.machinery hw.new ≡ with_words base (storage_of state.now.size state.now.cells) (H.machinery hw.old) }
    ensures fixed { H.fixed hw.new ≡ H.fixed hw.old }
{
    for at in 0..state.size {
        hw.poke(base + at, state.cell(at));
    }
}
