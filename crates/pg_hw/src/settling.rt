//! The trait of a hardware that tells where a burst came to a standstill.
//!
//! A state that a step leaves as it is, without a trap, is left so by every later step: a jump to itself, as programs end with, is
//! of that kind. A burst that comes to one is the same as if each of its steps had been done, and its counts rise by as many; the
//! hardware need not do them, and whoever runs on it may want to know.

use super::hardware::Hardware;
use pg_mach_ready::Machine;

/// What a burst was.
#[derive(Clone, Copy, Debug, PartialEq, Eq)]
pub struct Settled {
    /// How many steps it was, as `Hardware::burst` tells.
    pub done: u64,
    /// Behind how many of them the state first stayed as it was; none where it did not before the last one.
    pub still: Option<u64>,
}

/// A hardware that tells of a burst whether its state came to stay.
pub trait Settling: Hardware {
    ghost use Rattle.std.specs.Prelude.{◌≡◌};
    ghost use Rattle.pg_lang_meaning.specs.States.{IsState};
    ghost use Rattle.pg_lang_meaning.specs.Steps.{steps as stepped_often};
    ghost use Rattle.pg_hw.specs.Tallies.{after_steps};
    ghost use Rattle.pg_hw.specs.Bursts.{untrapped_among, burst_length, BottomRises};
    ghost use Rattle.pg_hw.specs.Serving.{IsServed};
    ghost use Rattle.pg_hw.specs.Stillness.{TellsStill};

    /// `Hardware::burst`, which also tells behind how many of its steps the state first stayed.
    fn burst_settling(&mut self, m: &Machine, k: u64) -> Settled
        requires served { IsServed (Self.serves (Self.fixed self.old)) m.now.desc }
        requires state { IsState m.now.desc (Self.machinery self.old).state }
        ensures count { result.done ≡ burst_length m.now.desc k (Self.machinery self.old).state }
        ensures still { TellsStill m.now.desc result.done (Self.machinery self.old).state result.still }
        ensures state { (Self.machinery self.new).state ≡ stepped_often m.now.desc result.done (Self.machinery self.old).state }
        ensures tally { (Self.machinery self.new).tally ≡ after_steps (Self.machinery self.old).tally result.done (untrapped_among m.now.desc result.done (Self.machinery self.old).state) }
        ensures bottom { BottomRises m.now.desc result.done (Self.machinery self.old).state (Self.machinery self.old).bottom (Self.machinery self.new).bottom }
        ensures fixed { Self.fixed self.new ≡ Self.fixed self.old };
}
