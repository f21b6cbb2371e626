//! What a search that forgets goes by.
//!
//! As in `pg_sat` the contracts ask of it no more than that a literal is unset: answers are right whatever it says.

ghost use Rattle.std.specs.Prelude.{◌<◌, ◌^◌};

use crate::glue::Levels;
use crate::keep::{Worth, kept_of};
use crate::pace::Pace;
use crate::walk::walked;
use pg_cnf::Cnf;
use pg_proof::Step;
use pg_sat::Guide;
use pg_watch::Watches;
use std::alloc::{AllocError, Global};

/// What is assigned next, when the search begins anew, and what it forgets.
#[derive(Drop)]
pub struct Course {
    pub guide: Guide,
    pace: Pace,
    levels: Levels,
    /// What each of the learned clauses that are held is worth.
    worths: Vec<Worth>,
    /// How many walks there were.
    walks: usize,
}

impl Course {
    /// For so many variables.
    pub fn new(alloc: Global, variables: u32) -> Result<Course, AllocError>
        requires { variables < 2 ^ 31 }
    {
        Ok(Course {
            guide: Guide::new(alloc, variables)?,
            pace: Pace::new(),
            levels: Levels::new(alloc, variables)?,
            worths: Vec::new(alloc),
            walks: 0,
        })
    }

    /// A step was learned from a conflict, of a question of so many clauses: says whether the search begins anew.
    pub fn end_conflict(
        &mut self,
        alloc: Global,
        cnf: &Cnf,
        watches: &Watches,
        step: &Step,
    ) -> Result<bool, AllocError> {
        let glue = self.levels.glue(watches, step.lits.as_slice());
        let is_planned = self.guide.end_trace(alloc, cnf)?;
        let is_due = self.pace.count(glue);
        let used = self.pace.conflicts();
        for hint in step.hints.as_slice() {
            self.use_hint(*hint, cnf.clauses.len(), used);
        }
        self.worths.push(Worth { glue, used })?;
        let anew = is_planned || is_due || self.pace.is_full();
        if anew {
            self.guide.begin_anew();
        }
        Ok(anew)
    }

    /// A clause was a hint.
    fn use_hint(&mut self, hint: u32, first: usize, used: u64) {
        if let Some(place) = (hint as usize).checked_sub(first.saturating_add(1)) {
            if let Some(worth) = self.worths.get_mut(place) {
                worth.used = used;
            }
        }
    }

    /// Whether the search is to forget.
    pub fn is_full(&self) -> bool {
        self.pace.is_full()
    }

    /// For each of the learned clauses, which stand behind so many others, whether it is kept; what it is worth is forgotten with it.
    pub fn forget(
        &mut self,
        alloc: Global,
        watches: &Watches,
        first: usize,
    ) -> Result<Vec<bool>, AllocError> {
        let kept = kept_of(
            alloc,
            watches,
            first,
            self.worths.as_slice(),
            self.pace.last(),
        )?;
        let mut worths = Vec::new(alloc);
        for (worth, kept) in self.worths.iter().zip(kept.as_slice()) {
            if *kept {
                worths.push(*worth)?;
            }
        }
        self.worths = worths;
        self.pace.forgot();
        Ok(kept)
    }

    /// Walks over assignments, and where all clauses are true under one, lets the search try its values first.
    pub fn walk(&mut self, alloc: Global, cnf: &Cnf) -> Result<(), AllocError> {
        self.walks = self.walks.saturating_add(1);
        if let Some(values) = walked(alloc, cnf, &self.guide, self.walks)? {
            self.guide.follow(values.as_slice());
        }
        Ok(())
    }
}
