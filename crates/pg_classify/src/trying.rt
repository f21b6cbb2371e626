//! A change of two states, tried.

ghost use Rattle.std.specs.Prelude.{◌≡◌, false};
ghost use Rattle.pg_classify.specs.Trying.{IsShown};

use crate::extent::Extent;
use crate::pair::{Aim, Change, Pair};
use crate::words::words_after;
use pg_replay::replay;
use pg_type::placed;
use pg_word::{Sparse, window_len};
use std::alloc::{AllocError, Global};

/// The state of these numbers with these words in its window, and zeros elsewhere.
fn state(alloc: Global, cells: &[(u32, u64)], extent: Extent) -> Result<Sparse, AllocError> {
    let usable = window_len(extent.psw, extent.size);
    placed(alloc, cells, usable, extent.size, extent.psw)
}

/// The two states of a change.
fn changed(alloc: Global, pair: &Pair, change: &Change) -> Result<Pair, AllocError> {
    let cells = words_after(alloc, &pair.first, change.words)?;
    let first = state(alloc, cells.as_slice(), change.extents.first)?;
    let second = state(alloc, cells.as_slice(), change.extents.second)?;
    Ok(Pair { first, second })
}

/// Makes a change of two states where they show the kind after it, and says whether it did. Where memory is refused they stay.
pub fn tried(aim: &Aim<'_>, pair: &mut Pair, change: &Change) -> bool
    requires { IsShown aim.now pair.old }
    ensures shown { IsShown aim.now pair.new }
    ensures stay { result ≡ false → pair.new ≡ pair.old }
{
    match changed(aim.alloc, pair, change) {
        Ok(next) => {
            let shows = replay(aim.machine, aim.instr, aim.kind, &next.first, &next.second);
            if shows {
                *pair = next;
            }
            shows
        }
        Err(AllocError) => false,
    }
}
