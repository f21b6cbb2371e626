//! When the search begins anew.
//!
//! After so many conflicts all that was assigned is given up, and what was learned is kept. The numbers are those of Luby,
//! Sinclair and Zuckerman (1993), 1 1 2 1 1 2 4 and so on, each times a unit, made as Knuth makes them.

/// How many conflicts a 1 stands for.
const UNIT: u64 = 100;

/// How many conflicts are left until the search begins anew.
#[derive(Drop)]
pub struct Pace {
    left: u64,
    turn: u64,
    term: u64,
}

impl Pace {
    /// Before the first conflict.
    pub fn new() -> Pace {
        Pace {
            left: UNIT,
            turn: 1,
            term: 1,
        }
    }

    /// Counts a conflict, and says whether the search is to begin anew.
    pub fn count(&mut self) -> bool {
        if self.left > 1 {
            self.left -= 1;
            return false;
        }
        if self.turn & self.turn.wrapping_neg() == self.term {
            self.turn = self.turn.wrapping_add(1);
            self.term = 1;
        } else {
            self.term = self.term.saturating_mul(2);
        }
        self.left = self.term.saturating_mul(UNIT);
        true
    }
}
