//! The log that is made, step by step.

use crate::rup_fault::RupFault;
use pg_proof::{Act, ActList, HintList, LitList, Step};
use std::alloc::Global;

/// The greatest number that a clause may have.
const MOST: u64 = (1 << 31) - 2;

/// The steps so far, and the number of the last clause.
#[derive(Drop)]
pub struct Draft {
    acts: ActList,
    last: u64,
}

impl Draft {
    /// No step yet, behind so many clauses.
    pub fn new(alloc: Global, clauses: usize) -> Draft {
        Draft {
            acts: ActList::new(alloc),
            last: clauses as u64,
        }
    }

    /// A step more, and the number of its clause. `Many` where there are too many, and `Memory`.
    pub fn push(&mut self, lits: LitList, hints: HintList) -> Result<u32, RupFault> {
        if self.last >= MOST {
            return Err(RupFault::Many);
        }
        self.acts.push(Act::Add(Step { lits, hints }))?;
        self.last += 1;
        Ok(self.last as u32)
    }

    /// The log.
    pub fn finish(self) -> ActList {
        let Draft { acts, last: _ } = self;
        acts
    }
}
