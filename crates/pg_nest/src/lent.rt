//! A hardware on loan, as one that is had.
//!
//! A `Lent` passes every call on to the hardware that it was lent. Its counts at the bottom are the lent one's own, so that who lent
//! it can read off how often it was stepped, whatever lies below it.

ghost use Rattle.std.specs.Prelude.{◌≡◌};

use pg_hw::{Counts, Hardware};
use pg_mach_ready::Machine;
use pg_word::Psw;
use std::alloc::AllocError;

/// A hardware on loan.
pub struct Lent<'a, H: Hardware> {
    hw: &'a mut H,
}

impl<'a, H: Hardware> Lent<'a, H> {
    /// The hardware that is lent.
    pub fn new(hw: &'a mut H) -> Lent<'a, H>
        ensures same_reference { result.hw.ghost_name ≡ hw.entry.ghost_name }
        ensures same { result.hw.now ≡ hw.old }
    {
        Lent { hw }
    }
}

/// What was done to it was done to the one that was lent.
impl<H: Hardware> Drop for Lent<'_, H> {
    fn drop(self)
        ensures { self.exit.0.now ≡ self.entry.hw.now }
    {
        let Lent { hw: _hw } = self;
    }
}

impl<H: Hardware> Hardware for Lent<'_, H> {
    ghost use Rattle.std.specs.Prelude.{ℕ};

    ghost machinery = { λ s. record {
      state = (H.machinery s.hw.now).state;
      tally = (H.machinery s.hw.now).tally;
      bottom = record { steps = (H.machinery s.hw.now).tally.steps; untrapped = (H.machinery s.hw.now).tally.untrapped };
    } };

    ghost Fixed = { ℕ × H.Fixed };

    ghost fixed = { λ s. (s.hw.ghost_name, H.fixed s.hw.now) };

    ghost serves = { λ f. H.serves f.1 };

    ghost room = { λ f. H.room f.1 };

    fn install(&mut self, size: u32) -> Result<(), AllocError> {
        self.hw.install(size)
    }

    fn size(&self) -> u32 {
        self.hw.size()
    }

    fn room(&self) -> u32 {
        self.hw.room()
    }

    fn step(&mut self, m: &Machine) {
        self.hw.step(m);
    }

    fn burst(&mut self, m: &Machine, k: u64) -> u64 {
        self.hw.burst(m, k)
    }

    fn peek(&self, at: u32) -> u64 {
        self.hw.peek(at)
    }

    fn poke(&mut self, at: u32, word: u64) {
        self.hw.poke(at, word);
    }

    fn psw(&self) -> Psw {
        self.hw.psw()
    }

    fn set_psw(&mut self, psw: Psw) {
        self.hw.set_psw(psw);
    }

    fn counts(&self) -> Counts {
        self.hw.counts()
    }
}
