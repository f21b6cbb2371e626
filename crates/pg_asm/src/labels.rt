//! The labels of a source.
//!
//! A label is found by look-up, so that a source of many labels is read in the time that its bytes take. The names stand in the
//! order in which they were given first; a name that is given again changes nothing. Only `give` takes memory.

ghost use Rattle.std.specs.Prelude.{◌≡◌, OnOk};
ghost use Rattle.pg_asm.specs.Sources.{no_labels, given, mark_of};

use crate::mark::Mark;
use pg_lang_valid::NameTable;
use std::alloc::{AllocError, Global};
use std::marker::Model;

/// Labels by their names, each with the line that gave it first, and the place that was reached there.
#[derive(Drop)]
pub struct LabelTable {
    names: NameTable,
    marks: Vec<Mark>,
}

impl Model for LabelTable {
    ghost use Rattle.pg_asm.specs.Sources.{Labels};

    ghost Value = { Labels };

    ghost view = { λ s. record { names = s.names; marks = s.marks.items } };
}

impl LabelTable {
    /// No labels.
    pub fn new(alloc: Global) -> LabelTable
        ensures { result ≡ no_labels }
    {
        LabelTable {
            names: NameTable::new(alloc),
            marks: Vec::new(alloc),
        }
    }

    /// Where a label was given first; `None` where no line gives it.
    pub fn mark_of(&self, name: &[u8]) -> Option<Mark>
        ensures { result ≡ mark_of self.now name.now }
    {
        match self.names.find(name) {
            None => None,
            Some(k) => self.marks.as_slice().get(k).copied(),
        }
    }

    /// A label more, of line `n`, for a place, unless an earlier line gave it.
    pub fn give(
        &mut self,
        alloc: Global,
        name: &[u8],
        n: usize,
        place: usize,
    ) -> Result<(), AllocError>
        ensures { OnOk result (self.new ≡ given name.now n place self.old) }
    {
        match self.names.insert(alloc, name) {
            Err(error) => Err(error),
            Ok(false) => Ok(()),
            Ok(true) => match self.marks.push(Mark { line: n, place }) {
                Err(_) => Err(AllocError),
                Ok(()) => Ok(()),
            },
        }
    }
}
