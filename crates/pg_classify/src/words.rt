//! What becomes of the words of a window.

ghost use Rattle.std.specs.Prelude.{◌≡◌};
ghost use Rattle.pg_classify.specs.Changes.{word_after};

use pg_word::Sparse;
use std::alloc::{AllocError, Global};

/// A change of the words of a window, by their addresses in it.
#[derive(Clone, Copy, Debug)]
pub enum Words {
    /// They stay.
    Same,
    /// The word of the first address goes to the second, in place of what stands there.
    Moved(u32, u32),
    /// The word of this address stays, and all others are zero.
    Only(u32),
    /// The word of this address is another.
    With(u32, u64),
}

impl Words {
    /// The word of an address after a change, beside the address where it then stands; none where it is gone.
    fn after(self, at: u32, word: u64) -> Option<(u32, u64)>
        ensures { result ≡ word_after self at word }
    {
        match self {
            Words::Same => Some((at, word)),
            Words::Moved(from, to) => {
                if at == from {
                    Some((to, word))
                } else if at == to {
                    None
                } else {
                    Some((at, word))
                }
            }
            Words::Only(kept) => { if at == kept { Some((at, word)) } else { None } }
            Words::With(place, new) => Some((at, if at == place { new } else { word })),
        }
    }
}

/// The words of the window of a state after a change, beside their addresses.
pub fn words_after(
    alloc: Global,
    state: &Sparse,
    words: Words,
) -> Result<Vec<(u32, u64)>, AllocError> {
    let mut all = Vec::new(alloc);
    for cell in state.cells.as_slice() {
        if cell.0 >= state.psw.l {
            if let Some(next) = words.after(cell.0 - state.psw.l, cell.1) {
                all.push(next)?;
            }
        }
    }
    Ok(all)
}
