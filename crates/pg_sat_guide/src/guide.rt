//! What the search goes by: which variable is assigned next and how, and when the search begins anew.
//!
//! The contracts ask of it no more than that a literal is unset, so it may be any other: answers are right whatever it
//! says, and only the time that they take depends on it.

ghost use Rattle.std.specs.Prelude.{◌<◌, ◌^◌, IfSome};
ghost use Rattle.pg_sat_guide.specs.Over.{IsOver};
ghost use Rattle.pg_sat_guide.specs.Free.{IsFree};

use crate::free::free_literal;
use crate::heap::Heap;
use crate::pace::Pace;
use crate::plan::Plan;
use pg_cnf::Cnf;
use pg_watch::Watches;
use std::alloc::{AllocError, Global};

/// At which conflict a plan is made: most questions are settled before.
const PLANNED: u64 = 1000;

/// Variables by their activity, the value that each had last, the conflicts until the search begins anew, and after many
/// conflicts a plan.
#[derive(Drop)]
pub struct Guide {
    heap: Heap,
    phases: Vec<bool>,
    pace: Pace,
    freed: u64,
    conflicts: u64,
    plan: Option<Plan>,
}

impl Guide {
    /// For so many variables, each as active as any, and false last.
    pub fn new(alloc: Global, variables: u32) -> Result<Guide, AllocError>
        requires { variables < 2 ^ 31 }
    {
        Ok(Guide {
            heap: Heap::new(alloc, variables)?,
            phases: vec![in alloc; false; variables as usize + 1]?,
            pace: Pace::new(),
            freed: 0,
            conflicts: 0,
            plan: None,
        })
    }

    /// A conflict is traced over a literal.
    pub fn see(&mut self, literal: i32) {
        self.heap.raise(literal.unsigned_abs());
    }

    /// A conflict of the search for an assignment of a formula was traced: says whether a plan wants the search to begin anew.
    pub fn end_trace(&mut self, alloc: Global, cnf: &Cnf) -> Result<bool, AllocError> {
        self.heap.age();
        self.conflicts = self.conflicts.saturating_add(1);
        if self.conflicts == PLANNED {
            self.plan = Some(Plan::new(alloc, cnf)?);
        }
        match &mut self.plan {
            Some(plan) => Ok(plan.count()),
            None => Ok(false),
        }
    }

    /// The search begins anew.
    pub fn begin_anew(&mut self) {
        if let Some(plan) = &mut self.plan {
            plan.begin_anew();
        }
    }

    /// The same as `end_trace`, and it counts the conflict: says whether the search begins anew, as a plan wants it, or after the numbers
    /// of conflicts that `pace` has.
    pub fn end_conflict(&mut self, alloc: Global, cnf: &Cnf) -> Result<bool, AllocError> {
        let is_planned = self.end_trace(alloc, cnf)?;
        let anew = self.pace.count() || is_planned;
        if anew {
            self.begin_anew();
        }
        Ok(anew)
    }

    /// A literal that was set gets unset.
    pub fn free(&mut self, literal: i32) -> Result<(), AllocError> {
        let variable = literal.unsigned_abs();
        if let Some(phase) = self.phases.get_mut(variable as usize) {
            *phase = literal > 0;
        }
        self.freed = self.freed.saturating_add(1);
        self.heap.push(variable)
    }

    /// These values, by variable, are to be tried first, and no plan before them.
    pub fn follow(&mut self, values: &[bool]) {
        for (phase, value) in self.phases.iter_mut().zip(values) {
            *phase = *value;
        }
        self.plan = None;
    }

    /// How many literals got unset.
    pub fn freed(&self) -> u64 {
        self.freed
    }

    /// What is assigned next, if anything: what the plan says, or else the most active of the variables that are unset, with the
    /// value that it had last.
    pub fn next(&mut self, watches: &Watches, variables: u32) -> Option<i32>
        requires over { IsOver variables watches.now.clauses watches.now.trail }
        ensures { IfSome result (IsFree variables watches.now.trail.literals) }
    {
        match self.planned(watches, variables) {
            Some(literal) => Some(literal),
            None => self.most_active(watches, variables),
        }
    }

    /// What the plan says, where there is one.
    fn planned(&mut self, watches: &Watches, variables: u32) -> Option<i32>
        requires over { IsOver variables watches.now.clauses watches.now.trail }
        ensures { IfSome result (IsFree variables watches.now.trail.literals) }
    {
        match &mut self.plan {
            None => None,
            Some(plan) => plan.next(watches, variables),
        }
    }

    /// The most active of the variables that are unset, with the value that it had last.
    fn most_active(&mut self, watches: &Watches, variables: u32) -> Option<i32>
        requires over { IsOver variables watches.now.clauses watches.now.trail }
        ensures { IfSome result (IsFree variables watches.now.trail.literals) }
    {
        for _ in 0..self.heap.len() {
            let variable = self.heap.pop()?;
            let phase = self.phase(variable);
            if let Some(literal) = free_literal(watches, variables, variable, phase) {
                return Some(literal);
            }
        }
        None
    }

    /// The value that a variable had last, or is to have first.
    pub fn phase(&self, variable: u32) -> bool {
        match self.phases.get(variable as usize) {
            None => false,
            Some(&phase) => phase,
        }
    }
}
