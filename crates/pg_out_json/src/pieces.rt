//! Which turns of a long run are told.
//!
//! A run of at most 4,096 turns is told whole. Of a longer one 16 pieces of 256 turns are, at even distances, the first and the
//! last turns among them. Each piece begins with a whole state.

/// How many turns of a run are told at most.
const MOST: u64 = 4096;

/// How many turns a piece of a longer run has.
const PIECE: u64 = 256;

/// How many pieces a longer run has.
const PIECES: u64 = 16;

/// How far the telling has come.
#[derive(Clone, Copy)]
pub(crate) struct Pieces {
    /// How many turns the run has.
    turns: u64,
    /// How many pieces have begun.
    begun: u64,
    /// Behind how many turns the next one begins.
    next: u64,
    /// How many turns more are told of this one.
    left: u64,
}

impl Pieces {
    /// Of a run of so many turns, less than 2^32, whose first piece has begun.
    pub fn new(turns: u64) -> Pieces {
        if turns <= MOST {
            return Pieces {
                turns,
                begun: PIECES,
                next: turns,
                left: turns,
            };
        }
        Pieces {
            turns,
            begun: 1,
            next: begin_of(turns, 1),
            left: PIECE,
        }
    }

    /// Whether a piece begins behind so many turns; it is begun.
    pub fn begins(&mut self, done: u64) -> bool {
        if self.begun >= PIECES || done != self.next {
            return false;
        }
        self.begun = self.begun.saturating_add(1);
        self.next = begin_of(self.turns, self.begun);
        self.left = PIECE;
        true
    }

    /// Whether the next turn is told; it is counted.
    pub fn tells(&mut self) -> bool {
        if self.left == 0 {
            return false;
        }
        self.left -= 1;
        true
    }
}

/// Behind how many of the turns of a longer run a piece begins, by its number from 0.
fn begin_of(turns: u64, piece: u64) -> u64 {
    let span = turns.saturating_sub(PIECE);
    span.saturating_mul(piece) / (PIECES - 1)
}
