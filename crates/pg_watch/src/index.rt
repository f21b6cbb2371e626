//! Which literals the clauses watch.
//!
//! A clause has its pair, which is what holds, and stands in the lists of both, which is how it is found. A list may have a
//! clause too many, never one too few: a visit of a clause that does not watch the literal finds nothing to do.

ghost use Rattle.std.specs.Prelude.{◌≡◌, ◌<◌, ◌++◌, ◌∷◌, [], length, OnOk, OnErr, slice_set};
ghost use Rattle.pg_watch.specs.Places.{place_of};
ghost use Rattle.pg_watch.specs.Watching.{list_at};

use crate::assignment::place_of;
use crate::lists::{Lists, Watch};
use std::alloc::AllocError;

/// The two literals that a clause watches.
#[derive(Clone, Copy)]
pub struct Pair {
    pub first: i32,
    pub second: i32,
}

/// For each clause the literals that it watches, and for each literal the clauses that watch it.
#[derive(Drop)]
pub struct Index {
    pub pairs: Vec<Pair>,
    pub lists: Lists,
}

impl Index {
    /// Lets a clause watch two literals, of which it does not watch the second yet. The error is out of memory, and nothing
    /// changes.
    pub fn watch(&mut self, clause: u32, first: i32, second: i32) -> Result<(), AllocError>
        requires clause { clause < length self.old.pairs.items }
        requires place { place_of second < length self.old.lists }
        ensures lists { OnOk result (self.new.lists ≡ slice_set self.old.lists (place_of second) (list_at self.old.lists (place_of second) ++ record { clause = clause; blocker = first } ∷ [])) }
        ensures pairs { OnOk result (self.new.pairs.items ≡ slice_set self.old.pairs.items clause (record { first = first; second = second })) }
        ensures same_lists { OnErr result (self.new.lists ≡ self.old.lists) }
        ensures same_pairs { OnErr result (self.new.pairs.items ≡ self.old.pairs.items) }
    {
        let watch = Watch {
            clause,
            blocker: first,
        };
        match self.lists.push(place_of(second), watch) {
            Ok(()) => {
                self.pairs[clause as usize] = Pair { first, second };
                Ok(())
            }
            Err(error) => Err(error),
        }
    }
}
