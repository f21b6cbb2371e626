//! The stores of code under way.
//!
//! They lie in order in a buffer that has room for as many as an instruction makes. To forget them is to set their number,
//! and what lies behind it is never read: each run of code begins with none, and most make one at most, so that clearing
//! places would be a good part of what a run costs.
//!
//! A contract sees the list of the stores that are kept.

ghost use Rattle.std.specs.Prelude.{◌≡◌, ◌==◌, ◌<◌, [], ◌∷◌, ◌++◌, length};
ghost use Rattle.pg_lang_valid.specs.Limits.{most_accesses};

use crate::effect::Write;
use pg_lang_valid::MOST_ACCESSES;
use std::marker::Model;

/// Stores that are yet to be made, in the order in which they are to be made; at most `MOST_ACCESSES`.
#[derive(Debug, Drop)]
pub struct Stores {
    places: [Write; MOST_ACCESSES],
    count: usize,
}

impl Model for Stores {
    ghost use Rattle.std.specs.Prelude.{◌≡◌, ◌≤◌, List, take, length};
    ghost use Rattle.pg_lang_valid.specs.Limits.{most_accesses};
    ghost use Rattle.pg_interp.specs.declared.effect.Write.{Write as Writes};

    ghost Value = { List Writes };

    ghost view = { λ s. take s.count s.places };

    ghost invariant = { λ s. (s.count ≤ most_accesses) × (length s.places ≡ most_accesses) };
}

impl Stores {
    /// No store.
    pub fn new() -> Stores
        ensures { result ≡ [] }
    {
        Stores {
            places: [Write { at: 0, cell: 0 }; MOST_ACCESSES],
            count: 0,
        }
    }

    /// Forgets all stores.
    #[inline(always)]
    pub fn clear(&mut self)
        ensures { self.new ≡ [] }
    {
        self.count = 0;
    }

    /// Whether there is no store.
    #[inline(always)]
    pub fn is_empty(&self) -> bool
        ensures { result ≡ (length self.now == 0) }
    {
        self.count == 0
    }

    /// The stores, in order.
    #[inline(always)]
    pub fn as_slice(&self) -> &[Write]
        ensures { result.now ≡ self.now }
    {
        &self.places[..self.count]
    }

    /// Keeps a store more, behind the others.
    #[inline(always)]
    pub fn push(&mut self, write: Write)
        requires { length self.old < most_accesses }
        ensures { self.new ≡ self.old ++ write ∷ [] }
    {
        self.places[self.count] = write;
        self.count += 1;
    }
}
