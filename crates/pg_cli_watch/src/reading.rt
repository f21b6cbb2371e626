//! A shelf that says how far a long file has been read.
//!
//! A certificate is read part by part, and verified so: what takes long is between two parts.

ghost use Rattle.std.specs.Prelude.{◌≡◌, ◌≤◌, []};
ghost use Rattle.pg_edge.specs.Shelf.{CountsRead, CountsSave, Loads, LoadsPart, Saves, Sizes};

use crate::ticker::Ticker;
use pg_edge::{Failed, LoadFault, Shelf};
use std::cell::RefCell;
use std::io::Write;
use std::rt::Clock;

/// A shelf of which is told how far a file has been read that it hands over in parts.
#[derive(Drop)]
pub struct Reading<'a, 't, F: Shelf + Drop, C: Clock, E: Write + Drop> {
    shelf: F,
    ticker: &'a RefCell<Ticker<'t, C, E>>,
    /// The size of the file that was asked for last.
    size: u64,
}

impl<'a, 't, F: Shelf + Drop, C: Clock, E: Write + Drop> Reading<'a, 't, F, C, E> {
    /// This shelf, of which is told here.
    pub fn new(shelf: F, ticker: &'a RefCell<Ticker<'t, C, E>>) -> Reading<'a, 't, F, C, E> {
        Reading {
            shelf,
            ticker,
            size: 0,
        }
    }

    /// The shelf.
    pub fn shelf(&self) -> &F {
        &self.shelf
    }
}

impl<F: Shelf + Drop, C: Clock, E: Write + Drop> Shelf for Reading<'_, '_, F, C, E> {
    ghost files = { λ reading. F.files reading.shelf };

    ghost reads = { λ reading. F.reads reading.shelf };

    ghost saves = { λ reading. F.saves reading.shelf };

    fn load(&mut self, name: &str, limit: u64, into: &mut Vec<u8>) -> Result<(), LoadFault> {
        self.shelf.load(name, limit, into)
    }

    fn size(&mut self, name: &str) -> Result<u64, LoadFault> {
        let answer = self.shelf.size(name);
        if let Ok(size) = answer {
            self.size = size;
        }
        answer
    }

    fn part(
        &mut self,
        name: &str,
        at: u64,
        most: u64,
        into: &mut Vec<u8>,
    ) -> Result<(), LoadFault> {
        let answer = self.shelf.part(name, at, most, into);
        if let Ok(mut ticker) = self.ticker.try_borrow_mut() {
            let done = at.saturating_add(into.len() as u64);
            ticker.read(name, done, self.size);
        }
        answer
    }

    fn save(&mut self, name: &str, bytes: &[u8]) -> Result<(), Failed> {
        self.shelf.save(name, bytes)
    }
}
