//! Numbers that look random, the same in each run.

/// What they are made from.
#[derive(Clone, Copy, Debug)]
pub(crate) struct Dice {
    state: u64,
}

impl Dice {
    /// From the same begin each time.
    pub(crate) fn new() -> Dice {
        Dice {
            state: 0x9e37_79b9_7f4a_7c15,
        }
    }

    /// The next number, by the shifts of Marsaglia's xorshift of 64 bits.
    pub(crate) fn number(&mut self) -> u64 {
        let mut next = self.state;
        next ^= next << 13;
        next ^= next >> 7;
        next ^= next << 17;
        self.state = next;
        next
    }

    /// The next number below a bound; 0 where the bound is 0.
    pub(crate) fn below(&mut self, bound: u64) -> u64 {
        self.number().checked_rem(bound).unwrap_or(0)
    }
}
