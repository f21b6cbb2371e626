//! A walk over assignments, one variable at a time, that looks for one that makes all clauses true.
//!
//! This is WalkSAT (Selman, Kautz and Cohen, 1994). A clause that is false is taken at random, and one of its literals is made
//! true: one that makes no other clause false, where there is such a one; else, by chance, any of them, or one that makes the
//! fewest false. So a model of a formula at random is found in a tenth of a second, where a search that learns takes seconds.
//! Where no model is found nothing is known.
//!
//! What is found are values that the search tries first, so contracts say nothing of it.

use pg_cnf::{Clause, Cnf};
use pg_sat::Guide;
use std::alloc::{AllocError, Global};

/// How often of a thousand times any literal of the clause is taken: near the best for random clauses of three literals (Seitz, Alava
/// and Orponen, 2005).
const NOISE: usize = 567;

/// The first walk ends after it has looked at so many clauses, some milliseconds, and each later one after as many more.
const EFFORT: usize = 75_000;

/// An odd number whose bits are mixed: that of the golden ratio (Knuth).
const SEED: u64 = 0x9E37_79B9_7F4A_7C15;

/// The clauses in which each literal stands, by its place.
#[derive(Drop)]
struct Occurrences {
    lists: Vec<Vec<u32>>,
}

/// Two places for each variable.
fn place_of(literal: i32) -> usize {
    let first = (literal.unsigned_abs() as usize).saturating_mul(2);
    if literal < 0 {
        first.saturating_add(1)
    } else {
        first
    }
}

impl Occurrences {
    /// Those of a formula. It costs its length.
    fn new(alloc: Global, cnf: &Cnf) -> Result<Occurrences, AllocError> {
        let count = (cnf.variables as usize).saturating_mul(2).saturating_add(2);
        let mut lists = Vec::with_capacity(alloc, count)?;
        for _ in 0..count {
            lists.push(Vec::new(alloc))?;
        }
        let mut occurrences = Occurrences { lists };
        for (number, clause) in cnf.clauses.as_slice().iter().enumerate() {
            occurrences.add(number as u32, clause)?;
        }
        Ok(occurrences)
    }

    /// A clause more.
    fn add(&mut self, number: u32, clause: &Clause) -> Result<(), AllocError> {
        for literal in clause.lits() {
            if let Some(list) = self.lists.get_mut(place_of(*literal)) {
                list.push(number)?;
            }
        }
        Ok(())
    }

    /// The clauses in which a literal stands.
    fn of(&self, literal: i32) -> Option<&Vec<u32>> {
        self.lists.get(place_of(literal))
    }
}

/// An assignment, and which clauses are false under it.
#[derive(Drop)]
struct Walk {
    /// By variable.
    values: Vec<bool>,
    /// By clause, how many of its literals are true.
    counts: Vec<u32>,
    /// The clauses of which none is.
    failing: Vec<u32>,
    /// By clause, where it stands among these, if it does.
    places: Vec<usize>,
    random: u64,
    /// How many clauses may still be looked at.
    effort: usize,
}

impl Walk {
    /// From the values that a search had last. It costs the length of the formula.
    fn new(alloc: Global, cnf: &Cnf, guide: &Guide, number: usize) -> Result<Walk, AllocError> {
        let mut values = Vec::with_capacity(alloc, cnf.variables as usize + 1)?;
        for variable in 0..cnf.variables + 1 {
            values.push(guide.phase(variable))?;
        }
        let mut walk = Walk {
            values,
            counts: vec![in alloc; 0u32; cnf.clauses.len()]?,
            failing: Vec::new(alloc),
            places: vec![in alloc; 0usize; cnf.clauses.len()]?,
            random: (number as u64).wrapping_mul(SEED),
            effort: number.saturating_mul(EFFORT),
        };
        for (number, clause) in cnf.clauses.as_slice().iter().enumerate() {
            walk.begin(number as u32, clause)?;
        }
        Ok(walk)
    }

    /// Counts the literals of a clause that are true.
    fn begin(&mut self, number: u32, clause: &Clause) -> Result<(), AllocError> {
        let mut count = 0u32;
        for literal in clause.lits() {
            if self.is_true(*literal) {
                count = count.saturating_add(1);
            }
        }
        self.set_count(number, count);
        if count == 0 {
            self.fail(number)?;
        }
        Ok(())
    }

    /// Whether a literal is true.
    fn is_true(&self, literal: i32) -> bool {
        match self.values.get(literal.unsigned_abs() as usize) {
            Some(value) => *value == (literal > 0),
            None => false,
        }
    }

    /// A clause has become false.
    fn fail(&mut self, number: u32) -> Result<(), AllocError> {
        if let Some(place) = self.places.get_mut(number as usize) {
            *place = self.failing.len();
        }
        self.failing.push(number)?;
        Ok(())
    }

    /// A clause that was false has become true: the last of those that are false takes its place.
    fn mend(&mut self, number: u32) {
        let place = match self.places.get(number as usize) {
            Some(place) => *place,
            None => return,
        };
        if place >= self.failing.len() {
            return;
        }
        let _ = self.failing.swap_remove(place);
        if let Some(moved) = self.failing.get(place) {
            if let Some(other) = self.places.get_mut(*moved as usize) {
                *other = place;
            }
        }
    }

    /// A number at random, less than another one.
    fn below(&mut self, end: usize) -> usize {
        // xorshift (Marsaglia, 2003)
        self.random ^= self.random << 13;
        self.random ^= self.random >> 7;
        self.random ^= self.random << 17;
        if end == 0 {
            return 0;
        }
        (self.random >> 33) as usize % end
    }

    /// How many clauses get false where a literal gets true.
    fn broken(&mut self, occurrences: &Occurrences, literal: i32) -> usize {
        let mut broken = 0usize;
        if let Some(list) = occurrences.of(literal.saturating_neg()) {
            self.effort = self.effort.saturating_sub(list.len());
            for number in list.as_slice() {
                if self.count(*number) == 1 {
                    broken = broken.saturating_add(1);
                }
            }
        }
        broken
    }

    /// The literal of a clause that gets true.
    fn choose(&mut self, occurrences: &Occurrences, literals: &[i32]) -> Option<i32> {
        let mut best = None;
        let mut least = usize::MAX;
        for literal in literals {
            let broken = self.broken(occurrences, *literal);
            if broken < least {
                least = broken;
                best = Some(*literal);
            }
        }
        if least > 0 && self.below(1000) < NOISE {
            let any = self.below(literals.len());
            return literals.get(any).copied();
        }
        best
    }

    /// Lets a literal get true that is false.
    fn flip(&mut self, occurrences: &Occurrences, literal: i32) -> Result<(), AllocError> {
        if let Some(value) = self.values.get_mut(literal.unsigned_abs() as usize) {
            *value = literal > 0;
        }
        if let Some(list) = occurrences.of(literal) {
            for number in list.as_slice() {
                self.gain(*number);
            }
        }
        if let Some(list) = occurrences.of(literal.saturating_neg()) {
            for number in list.as_slice() {
                self.lose(*number)?;
            }
        }
        Ok(())
    }

    /// A literal of a clause got true.
    fn gain(&mut self, number: u32) {
        let count = self.count(number).saturating_add(1);
        self.set_count(number, count);
        if count == 1 {
            self.mend(number);
        }
    }

    /// A literal of a clause got false.
    fn lose(&mut self, number: u32) -> Result<(), AllocError> {
        let count = self.count(number).saturating_sub(1);
        self.set_count(number, count);
        if count == 0 {
            self.fail(number)?;
        }
        Ok(())
    }

    /// How many literals of a clause are true.
    fn count(&self, number: u32) -> u32 {
        match self.counts.get(number as usize) {
            Some(count) => *count,
            None => 0,
        }
    }

    /// So many literals of a clause are true.
    fn set_count(&mut self, number: u32, count: u32) {
        if let Some(place) = self.counts.get_mut(number as usize) {
            *place = count;
        }
    }

    /// The clause that stands at a place among those that are false, or else the first clause.
    fn failing_at(&self, at: usize) -> usize {
        match self.failing.get(at) {
            Some(number) => *number as usize,
            None => 0,
        }
    }

    /// Whether no clause is false, or enough were looked at.
    fn is_over(&self) -> bool {
        self.failing.is_empty() || self.effort == 0
    }

    /// Makes one of the clauses true that are false.
    fn step(&mut self, cnf: &Cnf, occurrences: &Occurrences) -> Result<(), AllocError> {
        self.effort = self.effort.saturating_sub(1);
        let count = self.failing.len();
        let at = self.below(count);
        let number = self.failing_at(at);
        let clause = match cnf.clauses.as_slice().get(number) {
            Some(clause) => clause,
            None => return Ok(()),
        };
        match self.choose(occurrences, clause.lits()) {
            Some(literal) => self.flip(occurrences, literal),
            None => Ok(()),
        }
    }
}

/// Values that make all clauses of a formula true, where the walk of this number, which counts from 1, comes to such: it begins with those
/// that a search had last.
pub fn walked(
    alloc: Global,
    cnf: &Cnf,
    guide: &Guide,
    number: usize,
) -> Result<Option<Vec<bool>>, AllocError> {
    let occurrences = Occurrences::new(alloc, cnf)?;
    let mut walk = Walk::new(alloc, cnf, guide, number)?;
    for _ in 0..walk.effort {
        if walk.is_over() {
            break;
        }
        walk.step(cnf, &occurrences)?;
    }
    if walk.failing.is_empty() {
        Ok(Some(walk.values))
    } else {
        Ok(None)
    }
}
