//! A shelf that holds what was read of the file that was asked for last, so that a refusal can point into it.
//!
//! A file may be a pipe, which cannot be read again. What is held is a copy, of at most 1,048,576 bytes; of a longer file, or where
//! there is no memory for the copy, nothing is held, and the refusal is told without its line.

ghost use Rattle.std.specs.Prelude.{◌≡◌, ◌≤◌, []};
ghost use Rattle.pg_edge.specs.Shelf.{CountsRead, CountsSave, Loads, LoadsPart, Saves, Sizes};

use pg_edge::{Failed, LoadFault, Shelf};
use std::alloc::Global;
use std::cell::RefCell;

/// How a certificate of `hcheck` begins.
const HYBRID: &[u8] = b"pghybrid ";

/// The most bytes that are held.
const MOST_HELD: usize = 1 << 20;

/// What was read of the file that was asked for last.
#[derive(Drop)]
pub struct LastRead {
    /// The file's name.
    pub name: String,
    /// How many line feeds stand in the file before what is held.
    pub feeds: u64,
    /// What is held: the file, or of a long one that is read in parts the last of its lines.
    pub bytes: Vec<u8>,
    /// Whether that is so: false where there was too much to hold, or no memory.
    pub is_held: bool,
    /// The file that was read first, where it could be held: the description, of every command that reads one.
    pub first: Option<Vec<u8>>,
    /// Whether the certificate that was read last is one of `hcheck`, by its begin.
    pub is_hybrid: bool,
    /// Where the file goes on behind it.
    end: u64,
}

impl LastRead {
    /// Nothing yet.
    pub fn new(alloc: Global) -> LastRead {
        LastRead {
            name: String::new(alloc),
            feeds: 0,
            bytes: Vec::new(alloc),
            is_held: false,
            first: None,
            is_hybrid: false,
            end: 0,
        }
    }

    /// Begins with the file of this name, of which nothing is held yet.
    fn begin(&mut self, name: &str) {
        self.bytes.clear();
        (self.feeds, self.end, self.is_held) = (0, 0, true);
        self.name.clear();
        if self.name.push_str(name).is_err() {
            self.name.clear();
            self.is_held = false;
        }
    }

    /// Holds these bytes behind those that are held, or nothing.
    fn push(&mut self, bytes: &[u8]) {
        self.end = self.end.saturating_add(bytes.len() as u64);
        let fits = bytes.len() <= MOST_HELD && self.bytes.len() <= MOST_HELD - bytes.len();
        if !fits || self.bytes.extend_from_slice(bytes).is_err() {
            self.bytes.clear();
            self.is_held = false;
        }
    }

    /// Holds the whole file of this name, and keeps it where it is the first.
    fn whole(&mut self, alloc: Global, name: &str, bytes: &[u8]) {
        self.begin(name);
        self.push(bytes);
        self.is_hybrid |= bytes.starts_with(HYBRID);
        if self.first.is_none() && self.is_held {
            self.first = Vec::from_slice(alloc, bytes).ok();
        }
    }

    /// Holds a part of the file of this name. Of parts in a row the lines are passed over that ended before this one.
    fn part(&mut self, name: &str, at: u64, bytes: &[u8]) {
        if self.name.as_str() != name || self.end != at {
            self.begin(name);
            self.is_held &= at == 0;
            self.end = at;
        }
        if at == 0 {
            self.is_hybrid = bytes.starts_with(HYBRID);
        }
        self.pass();
        self.push(bytes);
    }

    /// Passes over the lines that are held whole.
    fn pass(&mut self) {
        let Some(last) = self.bytes.iter().rposition(|byte| *byte == b'\n') else {
            return;
        };
        let whole = last + 1;
        let lines = self.bytes[..whole]
            .iter()
            .filter(|byte| **byte == b'\n')
            .count();
        self.feeds = self.feeds.saturating_add(lines as u64);
        self.bytes.drain(..whole);
    }
}

/// A shelf of which is held what was read last.
#[derive(Drop)]
pub struct Holding<'a, F: Shelf + Drop> {
    alloc: Global,
    shelf: F,
    held: &'a RefCell<LastRead>,
    saved: Option<u64>,
}

impl<'a, F: Shelf + Drop> Holding<'a, F> {
    /// This shelf, of which is held here what is read.
    pub fn new(alloc: Global, shelf: F, held: &'a RefCell<LastRead>) -> Holding<'a, F> {
        Holding {
            alloc,
            shelf,
            held,
            saved: None,
        }
    }

    /// How many bytes the file has that was saved last, if one was.
    pub fn saved(&self) -> Option<u64> {
        self.saved
    }

    /// The shelf.
    pub fn shelf(&self) -> &F {
        &self.shelf
    }
}

impl<F: Shelf + Drop> Shelf for Holding<'_, F> {
    ghost files = { λ holding. F.files holding.shelf };

    ghost reads = { λ holding. F.reads holding.shelf };

    ghost saves = { λ holding. F.saves holding.shelf };

    fn load(&mut self, name: &str, limit: u64, into: &mut Vec<u8>) -> Result<(), LoadFault> {
        let answer = self.shelf.load(name, limit, into);
        if let Ok(mut held) = self.held.try_borrow_mut() {
            held.whole(self.alloc, name, into.as_slice());
        }
        answer
    }

    fn size(&mut self, name: &str) -> Result<u64, LoadFault> {
        let answer = self.shelf.size(name);
        if let Ok(mut held) = self.held.try_borrow_mut() {
            held.begin(name);
        }
        answer
    }

    fn part(
        &mut self,
        name: &str,
        at: u64,
        most: u64,
        into: &mut Vec<u8>,
    ) -> Result<(), LoadFault> {
        let answer = self.shelf.part(name, at, most, into);
        if let Ok(mut held) = self.held.try_borrow_mut() {
            held.part(name, at, into.as_slice());
        }
        answer
    }

    fn save(&mut self, name: &str, bytes: &[u8]) -> Result<(), Failed> {
        let answer = self.shelf.save(name, bytes);
        if answer.is_ok() {
            self.saved = Some(bytes.len() as u64);
        }
        answer
    }
}
