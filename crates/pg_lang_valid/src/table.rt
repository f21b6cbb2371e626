//! A table of names, found by look-up.
//!
//! The test that each instruction's name is given once fills one, and so does the assembler with labels. Contracts see the names
//! in the order in which they came. The table owns copies of the names. Only `insert` takes memory.
//!
//! No type that many crates name holds one: a library whose public calls name it keeps all statements of `indexmap` for the
//! crates above.

ghost use Rattle.std.specs.Prelude.{◌≡◌, not, if◌then◌else◌, [], ◌∷◌, ◌++◌, position, bytes_eq, IfOk, OnErr};
ghost use Rattle.pg_lang_valid.specs.Twice.{is_among};

use indexmap::IndexSet;
use std::alloc::{AllocError, Global};
use std::marker::Model;

/// Names in order, each once.
#[derive(Drop)]
pub struct NameTable {
    names: IndexSet<Vec<u8>>,
}

impl Model for NameTable {
    ghost use Rattle.std.specs.Prelude.{ℕ, List, map};

    ghost Value = { List (List ℕ) };

    ghost view = { λ s. map (λ n. n.items) s.names.keys };
}

impl NameTable {
    /// No names.
    pub fn new(alloc: Global) -> NameTable
        ensures { result ≡ [] }
    {
        NameTable {
            names: IndexSet::new(alloc),
        }
    }

    /// The number of a name.
    pub fn find(&self, name: &[u8]) -> Option<usize>
        ensures { result ≡ position (λ n. bytes_eq n name.now) self.now }
    {
        self.names.get_index_of(name)
    }

    /// Adds a name at the end, if it is not there, and says whether it was not. The error is out of memory, and the names
    /// stay.
    pub fn insert(&mut self, alloc: Global, name: &[u8]) -> Result<bool, AllocError>
        ensures added { IfOk result (λ added. added ≡ not (is_among self.old name.now)) }
        ensures names { IfOk result (λ added. self.new ≡ (if added then self.old ++ name.now ∷ [] else self.old)) }
        ensures kept { OnErr result (self.new ≡ self.old) }
    {
        let key = match Vec::from_slice(alloc, name) {
            Err(error) => return Err(error),
            Ok(key) => key,
        };
        match self.names.insert(key) {
            Err(_) => Err(AllocError),
            Ok(added) => Ok(added),
        }
    }
}
