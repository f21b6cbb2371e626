//! When the search begins anew, and when it forgets.
//!
//! For the first three thousand conflicts it begins anew as `pg_sat` does, after the numbers of Luby, Sinclair and Zuckerman (1993),
//! and keeps all: that many clauses cost little. From then on it begins anew where the glue of late is more than it was over all
//! (Audemard and Simon, 2012), and forgets after some thousand conflicts, each time after more.

/// How many conflicts a 1 of Luby's numbers stands for.
const UNIT: u64 = 100;

/// How many conflicts are counted so; then also the search first forgets.
const CALM: u64 = 3000;

/// The fewest conflicts from one beginning to the next.
const LEAST: u64 = 20;

/// How much more glue of late is too much, in hundredths of the mean.
const MARGIN: u64 = 120;

/// After how many conflicts the search forgets the second time, and how many are added each time.
const STEP: u64 = 2000;

const MORE: u64 = 300;

/// Conflicts, counted.
#[derive(Drop)]
pub struct Pace {
    conflicts: u64,
    /// The conflicts since the search last began anew, and when it last forgot.
    since: u64,
    last: u64,
    /// The glue of all conflicts, and the mean of late, times 2^16.
    sum: u64,
    late: u64,
    /// Luby's numbers: the conflicts left, and what Knuth makes the next from.
    left: u64,
    turn: u64,
    term: u64,
    /// At which conflict the search forgets next, and how many are between that and the one after.
    next: u64,
    step: u64,
}

impl Pace {
    /// Before the first conflict.
    pub fn new() -> Pace {
        Pace {
            conflicts: 0,
            since: 0,
            last: 0,
            sum: 0,
            late: 0,
            left: UNIT,
            turn: 1,
            term: 1,
            next: CALM,
            step: STEP,
        }
    }

    /// How many conflicts there were.
    pub fn conflicts(&self) -> u64 {
        self.conflicts
    }

    /// At which conflict the search forgot last.
    pub fn last(&self) -> u64 {
        self.last
    }

    /// Whether the search is to forget.
    pub fn is_full(&self) -> bool {
        self.conflicts >= self.next
    }

    /// The search has forgotten.
    pub fn forgot(&mut self) {
        self.last = self.conflicts;
        self.step = self.step.saturating_add(MORE);
        self.next = self.conflicts.saturating_add(self.step);
    }

    /// Counts a conflict of some glue, and says whether the search is to begin anew.
    pub fn count(&mut self, glue: u32) -> bool {
        let own = u64::from(glue) << 16;
        self.conflicts = self.conflicts.saturating_add(1);
        self.since = self.since.saturating_add(1);
        self.sum = self.sum.saturating_add(own);
        self.late = (self.late - self.late / 32).saturating_add(own / 32);
        let anew = if self.conflicts <= CALM {
            self.is_luby()
        } else {
            self.since >= LEAST
                && self.late > (self.sum / self.conflicts / 100).saturating_mul(MARGIN)
        };
        if anew {
            self.since = 0;
        }
        anew
    }

    /// Whether the conflicts are as many as Luby's next number.
    fn is_luby(&mut self) -> bool {
        if self.left > 1 {
            self.left -= 1;
            return false;
        }
        if self.turn & self.turn.wrapping_neg() == self.term {
            self.turn = self.turn.wrapping_add(1);
            self.term = 1;
        } else {
            self.term = self.term.saturating_mul(2);
        }
        self.left = self.term.saturating_mul(UNIT);
        true
    }
}
