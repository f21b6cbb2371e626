//! A plan of decisions: pairs of variables that may be equal, each of which is refuted to differ.
//!
//! Where a question compares two circuits of the same values, as a sum and the one with its operands exchanged, a search has
//! to find out that their gates are equal, the lower ones first; left to itself it may not (Kuehlmann and Krohm, 1997, do so
//! for equivalence alone). Of each pair both sides are tried: that the first is false and the second true, and that it is the
//! other way round. The literals of a side are decided, then the operands of both, and then the search goes on as ever, until the
//! side is refuted or there were some conflicts. Then the search begins anew with the next side, and keeps what it learned.
//! Where too many sides are left so, the pairs are not what makes the question hard, and the plan is given up.
//!
//! As for the guide: answers are right whatever a plan says, and contracts ask no more of it than that a literal is unset.

ghost use Rattle.std.specs.Prelude.{IfSome};
ghost use Rattle.pg_sat_guide.specs.Over.{IsOver};
ghost use Rattle.pg_sat_guide.specs.Free.{IsFree};

use crate::free::{first_free, is_false};
use crate::gates::{Gate, gates_of};
use crate::pairs::{Pair, pairs_of};
use pg_cnf::Cnf;
use pg_watch::Watches;
use std::alloc::{AllocError, Global};

/// After how many conflicts a side is left.
const TRIES: u32 = 12;

/// So many sides may be left, and one more for each `SHARE` that are refuted, before the plan is given up.
const LEFT: usize = 16;

const SHARE: usize = 8;

/// Pairs to be refuted to differ, in order, and how far that is done.
#[derive(Drop)]
pub struct Plan {
    gates: Vec<Gate>,
    pairs: Vec<Pair>,
    /// The pair at hand.
    at: usize,
    /// Whether its other side is at hand.
    turned: bool,
    /// The conflicts since that side was taken up.
    tries: u32,
    /// Whether something was decided since the search last began anew.
    begun: bool,
    /// By how many pairs the decisions since then have gone beyond the one at hand.
    ahead: usize,
    /// How many sides were left, and how many refuted.
    left: usize,
    refuted: usize,
}

impl Plan {
    /// The plan for a formula. It costs the number of clauses, and to sort the variables.
    pub fn new(alloc: Global, cnf: &Cnf) -> Result<Plan, AllocError> {
        let gates = gates_of(alloc, cnf)?;
        let pairs = pairs_of(alloc, gates.as_slice())?;
        Ok(Plan {
            gates,
            pairs,
            at: 0,
            turned: false,
            tries: 0,
            begun: false,
            ahead: 0,
            left: 0,
            refuted: 0,
        })
    }

    /// Whether no pair is left.
    pub fn is_done(&self) -> bool {
        self.at >= self.pairs.len()
    }

    /// Counts a conflict, and says whether the search is to begin anew: where the side at hand was tried often enough, and where
    /// decisions have gone beyond its pair.
    pub fn count(&mut self) -> bool {
        if self.is_done() {
            return false;
        }
        if self.ahead > 0 {
            return true;
        }
        self.tries = self.tries.saturating_add(1);
        if self.tries < TRIES {
            return false;
        }
        self.left = self.left.saturating_add(1);
        self.leave_side();
        self.give_up();
        true
    }

    /// Gives the plan up, where too many sides were left.
    fn give_up(&mut self) {
        if self.left > LEFT.saturating_add(self.refuted / SHARE) {
            self.at = self.pairs.len();
        }
    }

    /// The search begins anew.
    pub fn begin_anew(&mut self) {
        self.begun = false;
        self.ahead = 0;
    }

    /// What is decided next: a literal that is unset, of the first side that is not refuted by what is set.
    pub fn next(&mut self, watches: &Watches, variables: u32) -> Option<i32>
        requires over { IsOver variables watches.now.clauses watches.now.trail }
        ensures { IfSome result (IsFree variables watches.now.trail.literals) }
    {
        for _ in 0..self.pairs.len().saturating_mul(2) {
            let side = self.side()?;
            if is_refuted(watches, variables, &side) {
                self.pass();
                continue;
            }
            self.begun = true;
            return self.literal(watches, variables, &side);
        }
        None
    }

    /// Two literals that may not both be true: a side of the pair at hand, or of one beyond it.
    fn side(&self) -> Option<Pair> {
        let pair = self.pairs.get(self.at.saturating_add(self.ahead))?;
        let is_other = self.turned && self.ahead == 0;
        if is_other {
            Some(Pair {
                first: pair.first,
                second: pair.second.saturating_neg(),
            })
        } else {
            Some(Pair {
                first: pair.first.saturating_neg(),
                second: pair.second,
            })
        }
    }

    /// The side at hand is done with: its pair's other side is next, or the next pair.
    fn leave_side(&mut self) {
        self.tries = 0;
        if self.turned {
            self.at = self.at.saturating_add(1);
        }
        self.turned = !self.turned;
    }

    /// The side that was looked at is refuted. Under a decision that falsifies the one side the other cannot be tried: that
    /// waits until the search begins anew, and the decisions go on with the next pair.
    fn pass(&mut self) {
        if self.ahead > 0 {
            self.ahead = self.ahead.saturating_add(1);
            return;
        }
        self.refuted = self.refuted.saturating_add(1);
        self.leave_side();
        if self.begun && self.turned {
            self.ahead = 1;
        }
    }

    /// The first that is unset of the literals of a side and the operands of both.
    fn literal(&self, watches: &Watches, variables: u32, side: &Pair) -> Option<i32>
        requires over { IsOver variables watches.now.clauses watches.now.trail }
        ensures { IfSome result (IsFree variables watches.now.trail.literals) }
    {
        let one = self.gate(side.first);
        let other = self.gate(side.second);
        let literals = [
            side.first,
            side.second,
            one.first,
            one.second,
            other.first,
            other.second,
        ];
        first_free(watches, variables, &literals)
    }

    /// The gate of a literal's variable.
    fn gate(&self, literal: i32) -> Gate {
        match self.gates.get(literal.unsigned_abs() as usize) {
            None => Gate::none(),
            Some(&gate) => gate,
        }
    }
}

/// Whether one of two literals is false.
fn is_refuted(watches: &Watches, variables: u32, side: &Pair) -> bool
    requires over { IsOver variables watches.now.clauses watches.now.trail }
{
    if is_false(watches, variables, side.first) {
        return true;
    }
    is_false(watches, variables, side.second)
}
