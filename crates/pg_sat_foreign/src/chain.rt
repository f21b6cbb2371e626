//! A conflict, traced back to the clauses that led to it.
//!
//! Literals of a clause are false, and what follows has led to a clause that is false, or made a literal of the clause itself true.
//! Going back along the trail, each literal that led there was set by a clause, which is a hint. Two kinds of literals end the
//! trace: those of the clause itself, and those that follow with nothing assumed, whose own clauses are the first hints.
//!
//! Where a literal of the clause itself was made true, its reason is false without it; what came behind it is not needed, and the
//! trace begins there anew.

use crate::held::Held;
use crate::marks::Marks;
use crate::units::Units;
use pg_proof::HintList;
use std::alloc::{AllocError, Global};

/// A trace, as far as it has come.
#[derive(Drop)]
pub struct Chain<'a> {
    held: &'a Held,
    units: &'a Units,
    marks: &'a mut Marks,
    /// Clauses of one literal that led there.
    facts: Vec<u32>,
    /// The others, the last one first.
    reasons: Vec<u32>,
}

/// The hints by which a clause follows, which the marks have at hand: the clauses that led to the false one of a number, or to a literal of
/// the clause itself, from the place `root` of the trail on. It costs the trail from there on, and the length of the hints' clauses.
pub fn hints_of(
    alloc: Global,
    held: &Held,
    units: &Units,
    marks: &mut Marks,
    root: usize,
    conflict: Option<u32>,
) -> Result<HintList, AllocError> {
    let mut chain = Chain {
        held,
        units,
        marks,
        facts: Vec::new(alloc),
        reasons: Vec::new(alloc),
    };
    if let Some(number) = conflict {
        chain.take(number)?;
    }
    let mut at = held.watches.trail().len();
    while at > root {
        at -= 1;
        chain.step_back(at)?;
    }
    chain.finish(alloc)
}

impl Chain<'_> {
    /// Goes back over a place of the trail.
    fn step_back(&mut self, at: usize) -> Result<(), AllocError> {
        let Some((literal, reason)) = self.held.set_by(at) else {
            return Ok(());
        };
        if self.marks.is_own(literal) {
            self.marks.forget();
            self.facts.clear();
            self.reasons.clear();
            return self.take(reason);
        }
        if self.marks.is_seen(literal) {
            return self.take(reason);
        }
        Ok(())
    }

    /// The clause of a number among the watches is one that led there.
    fn take(&mut self, watched: u32) -> Result<(), AllocError> {
        self.reasons.push(self.held.number(watched))?;
        for literal in self.held.literals(watched) {
            if self.marks.has_variable(*literal) || self.marks.is_seen(*literal) {
                continue;
            }
            self.marks.see(*literal);
            if let Some(number) = self.units.number(*literal) {
                self.facts.push(number)?;
            }
        }
        Ok(())
    }

    /// The hints, in the order in which they are used.
    fn finish(self, alloc: Global) -> Result<HintList, AllocError> {
        let mut hints = HintList::new(alloc);
        for number in self.facts.as_slice() {
            hints.push(*number)?;
        }
        for number in self.reasons.as_slice().iter().rev() {
            hints.push(*number)?;
        }
        Ok(hints)
    }
}
