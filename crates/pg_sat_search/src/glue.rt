//! On how many levels the literals of a clause are.
//!
//! A level is what was set from one decision to the next. A clause whose literals are on few levels, its glue, soon sets a literal
//! again (Audemard and Simon, 2009).

use pg_watch::Watches;
use std::alloc::{AllocError, Global};

/// By variable, which clause it stood in last of those that were looked at.
#[derive(Drop)]
pub struct Levels {
    stamps: Vec<u32>,
    stamp: u32,
}

impl Levels {
    /// For so many variables.
    pub fn new(alloc: Global, variables: u32) -> Result<Levels, AllocError> {
        Ok(Levels {
            stamps: vec![in alloc; 0u32; variables as usize + 1]?,
            stamp: 0,
        })
    }

    /// On how many levels the literals of a clause are that are set. It takes time in the trail from the first of them on.
    pub fn glue(&mut self, watches: &Watches, clause: &[i32]) -> u32 {
        self.mark(clause);
        let mut glue = 0u32;
        let mut is_met = false;
        let mut left = clause.len();
        for (place, literal) in watches.trail().iter().enumerate().rev() {
            if self.is_marked(*literal) {
                is_met = true;
                left = left.saturating_sub(1);
            }
            if is_met && watches.reason(place).is_none() {
                glue = glue.saturating_add(1);
                is_met = false;
                if left == 0 {
                    break;
                }
            }
        }
        glue
    }

    /// Marks the variables of a clause, and no other.
    fn mark(&mut self, clause: &[i32]) {
        self.stamp = self.stamp.wrapping_add(1);
        for literal in clause {
            if let Some(stamp) = self.stamps.get_mut(literal.unsigned_abs() as usize) {
                *stamp = self.stamp;
            }
        }
    }

    /// Whether the variable of a literal is marked.
    fn is_marked(&self, literal: i32) -> bool {
        match self.stamps.get(literal.unsigned_abs() as usize) {
            Some(stamp) => *stamp == self.stamp,
            None => false,
        }
    }
}
