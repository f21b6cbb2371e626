//! After how many turns of a search the clock is looked at.
//!
//! A turn takes some microseconds where a question is small, and may take a second where it has millions of clauses. So looks begin with
//! each turn, and come more seldom as long as few milliseconds are between them, or more often where many are.

use std::time::Instant;

/// The most turns between two looks.
const MOST: u32 = 1024;

/// Between two looks fewer milliseconds than these are few,
const FEW: u128 = 20;

/// and more than these are many.
const MANY: u128 = 200;

/// Turns, counted from one look to the next.
#[derive(Drop)]
pub struct Rhythm {
    last: Option<Instant>,
    every: u32,
    left: u32,
}

impl Rhythm {
    /// Before the first turn.
    pub fn new() -> Rhythm {
        Rhythm {
            last: None,
            every: 1,
            left: 1,
        }
    }

    /// Counts a turn, and says whether it is time to look.
    pub fn beats(&mut self) -> bool {
        if self.left > 1 {
            self.left -= 1;
            return false;
        }
        self.left = self.every;
        true
    }

    /// The clock was looked at.
    pub fn look(&mut self, now: Instant) {
        if let Some(last) = self.last {
            let passed = now.duration_since(last).as_millis();
            if passed < FEW {
                self.every = self.every.saturating_mul(2).min(MOST);
            } else if passed > MANY {
                self.every = (self.every / 2).max(1);
            }
        }
        self.last = Some(now);
        self.left = self.every;
    }
}
