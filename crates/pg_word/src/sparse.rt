//! States with few cells that are not zero.
//!
//! A state of a machine is the size of its storage, a program status word and a word for each cell. Where almost all of
//! these are zero only the others are listed, in the order of their addresses. That they ascend, are within the size and
//! are not zero is kept by the types, so that a state is listed in one way alone (`laws`): two states are the same where
//! their lists are. Whoever makes one pushes its cells as it goes over the addresses upwards.

ghost use Rattle.std.specs.Prelude.{◌≡◌, ◌≢◌, ◌<◌, [], ◌∷◌, ◌++◌, ◌↔◌, slice_index, IsTrue, IsSome, IfSome, IfOk, IfErr, OnOk, OnErr};
ghost use Rattle.pg_word.specs.Sparse.{IsCellList, IsPastLast, AreWithin, AreWithin-prop, IsListedAt, IsNotListed, storage_of};

use super::psw::Psw;
use std::alloc::{AllocError, Global};
use std::marker::Model;

/// Cells that are not zero: their addresses, which ascend, and their words.
#[derive(Debug, Drop)]
pub struct CellList {
    cells: Vec<(u32, u64)>,
}

impl Model for CellList {
    ghost use Rattle.std.specs.Prelude.{List, ℕ};
    ghost use Rattle.pg_word.specs.Sparse.{IsCellList};

    ghost Value = { List (ℕ × ℕ) };

    ghost view = { λ l. l.cells.items };

    ghost invariant = { λ l. IsCellList l.cells.items };
}

impl CellList {
    /// No cell. It takes no memory yet.
    pub fn new(alloc: Global) -> CellList
        ensures { result ≡ [] }
    {
        CellList {
            cells: Vec::new(alloc),
        }
    }

    /// These cells, whose addresses ascend strictly and whose words are not zero. It takes the vector over, and no memory.
    pub fn from_vec(cells: Vec<(u32, u64)>) -> CellList
        requires { IsCellList cells.items }
        ensures { result ≡ cells.items }
    {
        CellList { cells }
    }

    /// The list of these cells, or none where addresses do not ascend strictly or a word is zero. It takes the vector over,
    /// and no memory.
    pub fn checked(cells: Vec<(u32, u64)>) -> Option<CellList>
        ensures listed { IsSome result ↔ IsCellList cells.items }
        ensures cells { IfSome result (λ list. list ≡ cells.items) }
    {
        if are_listed(cells.as_slice()) {
            Some(CellList { cells })
        } else {
            None
        }
    }

    /// The cells, in the order of their addresses.
    pub fn as_slice(&self) -> &[(u32, u64)]
        ensures cells { result.now ≡ self.now }
        ensures listed { IsCellList self.now }
    {
        self.cells.as_slice()
    }

    /// One more cell, past the last one, with a word that is not zero. The error is out of memory, and the cells stay.
    pub fn push(&mut self, at: u32, word: u64) -> Result<(), AllocError>
        requires past_last { IsPastLast self.old at }
        requires not_zero { word ≢ 0 }
        ensures ok { OnOk result (self.new ≡ self.old ++ (at, word) ∷ []) }
        ensures err { OnErr result (self.new ≡ self.old) }
    {
        self.cells.push((at, word))?;
        Ok(())
    }

    /// The place of the cell with an address, or where it would stand: a binary search.
    fn place_of(&self, at: u32) -> Result<usize, usize>
        ensures found { IfOk result (IsListedAt self.now at) }
        ensures absent { IfErr result (IsNotListed self.now at) }
    {
        self.cells
            .binary_search_by_key(&at, |&(address, _)| address)
    }
}

/// The least word that is listed.
const LEAST_WORD: u64 = 1;

/// Whether addresses ascend strictly and no word is zero.
fn are_listed(cells: &[(u32, u64)]) -> bool
    ensures { IsTrue result ↔ IsCellList cells.now }
{
    let mut least = 0;
    for cell in cells {
        let (address, word) = *cell;
        if word < LEAST_WORD {
            return false;
        }
        if u64::from(address) < least {
            return false;
        }
        least = u64::from(address) + 1;
    }
    true
}

/// A state whose cells that are not listed are zero.
#[derive(Debug, Drop)]
pub struct Sparse {
    /// How many cells the storage has.
    pub size: u32,
    /// The program status word.
    pub psw: Psw,
    /// The cells that are not zero, all below the size.
    pub cells: CellList,
    pub ghost within: { AreWithin size cells } by { AreWithin-prop size cells },
}

impl Sparse {
    /// The state of these cells, all below the size. It takes the list over, and no memory.
    pub fn new(size: u32, psw: Psw, cells: CellList) -> Sparse
        requires { AreWithin size cells }
        ensures size { result.size ≡ size }
        ensures psw { result.psw ≡ psw }
        ensures cells { result.cells ≡ cells }
    {
        Sparse { size, psw, cells }
    }

    /// One more cell, past the last one and below the size, with a word that is not zero. The error is out of memory, and
    /// the cells stay. Size and program status word stay in any case.
    pub fn push(&mut self, at: u32, word: u64) -> Result<(), AllocError>
        requires within { at < self.old.size }
        requires past_last { IsPastLast self.old.cells at }
        requires not_zero { word ≢ 0 }
        ensures ok { OnOk result (self.new.cells ≡ self.old.cells ++ (at, word) ∷ []) }
        ensures err { OnErr result (self.new.cells ≡ self.old.cells) }
        ensures size { self.new.size ≡ self.old.size }
        ensures psw { self.new.psw ≡ self.old.psw }
    {
        self.cells.push(at, word)
    }

    /// The word of a cell: a binary search among those that are listed.
    pub fn cell(&self, at: u32) -> u64
        requires { at < self.now.size }
        ensures { result ≡ slice_index (storage_of self.now.size self.now.cells) at }
    {
        match self.cells.place_of(at) {
            Ok(place) => self.cells.as_slice()[place].1,
            Err(_) => 0,
        }
    }
}
