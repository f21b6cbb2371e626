//! The clauses that are watched, and what is known of each.

use crate::ordered::clause_of;
use crate::sums::Sums;
use pg_cnf::Cnf;
use pg_watch::Watches;
use std::alloc::{AllocError, Global};

/// The greatest variable that a literal may have.
const MOST_VARIABLES: u32 = i32::MAX as u32;

/// How many clauses are watched at most.
const MOST: usize = 1 << 31;

/// What is known of a clause.
#[derive(Clone, Copy)]
pub struct Entry {
    /// Its number in the log.
    pub number: u32,
    /// Its number in an LRAT proof, or 0 where it has none.
    pub id: u64,
    /// Whether it was removed.
    pub removed: bool,
}

/// Clauses under watch. The clause at a place has the number `place + 1` among the watches.
#[derive(Drop)]
pub struct Held {
    pub watches: Watches,
    entries: Vec<Entry>,
    sums: Sums,
    removed: usize,
}

impl Held {
    /// No clause, over so many variables.
    pub fn new(alloc: Global, variables: u32) -> Result<Held, AllocError> {
        Ok(Held {
            watches: Watches::new(alloc, &Cnf::new(alloc, variables.min(MOST_VARIABLES)))?,
            entries: Vec::new(alloc),
            sums: Sums::new(alloc),
            removed: 0,
        })
    }

    /// One clause more, whose literals are in order; one that is none is passed over.
    pub fn add(
        &mut self,
        alloc: Global,
        literals: &[i32],
        number: u32,
        id: u64,
    ) -> Result<(), AllocError> {
        let variables = self.watches.variables();
        // what is said to the prover alone: `new` and the draft keep to both
        if variables > MOST_VARIABLES || self.watches.len() >= MOST {
            return Ok(());
        }
        let Some(clause) = clause_of(alloc, variables, literals)? else {
            return Ok(());
        };
        let place = self.entries.len();
        self.entries.push(Entry {
            number,
            id,
            removed: false,
        })?;
        self.sums.put(literals, place)?;
        self.watches.add(&clause)
    }

    /// The number in the log of the clause with a number among the watches, or 0 where there is none.
    pub fn number(&self, watched: u32) -> u32 {
        match self.entries.get((watched as usize).saturating_sub(1)) {
            Some(entry) => entry.number,
            None => 0,
        }
    }

    /// The literals of the clause with a number among the watches, or none where there is none.
    pub fn literals(&self, watched: u32) -> &[i32] {
        if watched == 0 || watched as usize > self.watches.len() {
            return &[];
        }
        self.watches.clause(watched)
    }

    /// The literals of the clause at a place, or none where there is none.
    fn literals_at(&self, place: usize) -> &[i32] {
        if place >= MOST {
            return &[];
        }
        self.literals(place as u32 + 1)
    }

    /// The literal at a place of the trail, and the number among the watches of the clause that set it, if one did.
    pub fn set_by(&self, at: usize) -> Option<(i32, u32)> {
        let trail = self.watches.trail();
        if at >= trail.len() {
            return None;
        }
        let reason = self.watches.reason(at)?;
        Some((trail[at], reason))
    }

    /// How many clauses there are, also removed ones.
    pub fn len(&self) -> usize {
        self.entries.len()
    }

    /// What is known of the clause at a place, and its literals, where it is not removed.
    pub fn left_at(&self, place: usize) -> Option<(Entry, &[i32])> {
        match self.entries.get(place) {
            Some(entry) if !entry.removed => Some((*entry, self.literals_at(place))),
            _ => None,
        }
    }

    /// The clause of these literals, which are in order, is removed, if it is held.
    pub fn remove(&mut self, literals: &[i32]) {
        match self.sums.take(literals) {
            Some(place) if self.literals_at(place) == literals => self.remove_at(place),
            _ => {}
        }
    }

    /// The clause of a number in an LRAT proof is removed, if it is held.
    pub fn remove_numbered(&mut self, id: u64) {
        let mut low = 0;
        let mut high = self.entries.len();
        while low < high {
            let middle = low + (high - low) / 2;
            if self.entries[middle].id < id {
                low = middle + 1;
            } else {
                high = middle;
            }
        }
        match self.entries.get(low) {
            Some(entry) if entry.id == id => self.remove_at(low),
            _ => {}
        }
    }

    /// The clause at a place is removed.
    fn remove_at(&mut self, place: usize) {
        if place < self.entries.len() && !self.entries[place].removed {
            self.entries[place].removed = true;
            self.removed = self.removed.saturating_add(1);
        }
    }

    /// Whether so many clauses are removed that the others are better watched anew.
    pub fn is_sparse(&self) -> bool {
        self.removed > 1000 && self.removed > self.entries.len() / 2
    }
}
