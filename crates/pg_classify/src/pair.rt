//! Two states, and changes of them.

ghost use Rattle.std.specs.Prelude.{◌≡◌, ◌<◌, length};

use crate::extent::{Extents, Lever, Number, extents_of};
use crate::words::Words;
use pg_mach_ready::Machine;
use pg_type::Kind;
use pg_word::Sparse;
use std::alloc::Global;

/// What two states are to show: a kind of an instruction.
#[derive(Clone, Copy)]
pub struct Aim<'m> {
    /// Where memory comes from.
    pub alloc: Global,
    /// The machine.
    pub machine: &'m Machine,
    /// The number of the instruction.
    pub instr: usize,
    /// The kind.
    pub kind: Kind,
    pub ghost there: { instr < length machine.now.desc.instrs },
}

/// Two states that show it.
#[derive(Debug, Drop)]
pub struct Pair {
    /// The first.
    pub first: Sparse,
    /// The second.
    pub second: Sparse,
}

/// A change of two states: their numbers after it, and what becomes of the words of their window.
#[derive(Clone, Copy, Debug)]
pub struct Change {
    /// The numbers.
    pub extents: Extents,
    /// The words.
    pub words: Words,
}

impl Pair {
    ghost use Rattle.pg_classify.specs.Lowering.{pulled};
    ghost use Rattle.pg_classify.specs.Trying.{numbers_of, words_moved};

    /// The numbers of the two.
    pub fn extents(&self) -> Extents
        ensures { result ≡ numbers_of self.now }
    {
        extents_of(&self.first, &self.second)
    }

    /// The word at a place of the list of the first state, beside its address in the window; none behind the last one, or where
    /// the window begins behind it.
    pub fn word(&self, place: usize) -> Option<(u32, u64)> {
        let cell = self.first.cells.as_slice().get(place)?;
        let at = cell.0.checked_sub(self.first.psw.l)?;
        Some((at, cell.1))
    }

    /// The change of the words alone.
    pub fn with_words(&self, words: Words) -> Change {
        Change {
            extents: self.extents(),
            words,
        }
    }

    /// The change to user mode.
    pub fn in_user(&self) -> Change {
        Change {
            extents: self.extents().in_user(),
            words: Words::Same,
        }
    }

    /// The change of a number, which is lowered by a step. The word at P goes with P.
    pub fn lowered(&self, lever: Lever, step: u32) -> Change
        ensures numbers { result.extents ≡ pulled lever step (numbers_of self.now) }
        ensures words { result.words ≡ words_moved lever.number self.now.first.psw.p result.extents.first.psw.p }
    {
        let extents = self.extents().lowered(lever, step);
        let words = match lever.number {
            Number::P => Words::Moved(self.first.psw.p, extents.first.psw.p),
            _ => Words::Same,
        };
        Change { extents, words }
    }
}
