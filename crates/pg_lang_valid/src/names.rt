//! Lists of names that are lent.
//!
//! The tests of names go over bodies with such a list: `twice` gathers the names of lets in one, and `scopes` has the
//! visible lets in one. The names stay where they are, in the tree, so a list takes memory for its places alone, and
//! only `push` takes any. A search goes over the whole list: the limits have been tested when it is asked for, so it is short.

ghost use Rattle.std.specs.Prelude.{◌≡◌, ℕ, List, [], ◌∷◌, ◌++◌, length, take, map, bytes_eq, OnOk};
ghost use Rattle.pg_lang_valid.specs.Twice.{is_among};

use std::alloc::{AllocError, Global};
use std::marker::Model;

/// Whether two names are the same.
pub fn same_name(left: &[u8], right: &[u8]) -> bool
    ensures { result ≡ bytes_eq left.now right.now }
{
    left == right
}

/// Names, in the order in which they came.
#[derive(Debug, Drop)]
pub struct NameList<'m> {
    names: Vec<&'m [u8]>,
}

impl<'m> Model for NameList<'m> {
    ghost use Rattle.std.specs.Prelude.{ℕ, List, map};

    ghost Value = { List (List ℕ) };

    ghost view = { λ s. map (λ n. n.now) s.names.items };
}

impl<'m> NameList<'m> {
    /// No names.
    pub fn new(alloc: Global) -> NameList<'m>
        ensures { result ≡ [] }
    {
        NameList {
            names: Vec::new(alloc),
        }
    }

    /// How many names there are.
    pub fn len(&self) -> usize
        ensures { result ≡ length self.now }
    {
        self.names.len()
    }

    /// The names.
    pub fn as_slice(&self) -> &[&'m [u8]]
        ensures { map (λ n. n.now) result.now ≡ self.now }
    {
        self.names.as_slice()
    }

    /// A name more, at the end.
    pub fn push(&mut self, name: &'m [u8]) -> Result<(), AllocError>
        ensures { OnOk result (self.new ≡ self.old ++ name.now ∷ []) }
    {
        self.names.push(name)?;
        Ok(())
    }

    /// Keeps the first names.
    pub fn truncate(&mut self, count: usize)
        ensures { self.new ≡ take count self.old }
    {
        self.names.truncate(count);
    }

    /// Whether a name is among these.
    pub fn contains(&self, name: &[u8]) -> bool
        ensures { result ≡ is_among self.now name.now }
    {
        for other in self.names.as_slice() {
            if same_name(*other, name) {
                return true;
            }
        }
        false
    }
}
