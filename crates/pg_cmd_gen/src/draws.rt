//! Draws: numbers that follow from a first one, by the linear congruential generator of Knuth's MMIX.
//!
//! Contracts speak of the state: what is drawn next, and the state behind it, follow from the state alone. So whoever draws
//! n times from one state says what comes by `state_behind` and `draw` of it, wherever the state itself came from.

ghost use Rattle.std.specs.Prelude.{◌≡◌};
ghost use Rattle.pg_cmd_gen.specs.Draws.{draw, state_behind};

/// What the state is multiplied by.
const MULTIPLIER: u64 = 6_364_136_223_846_793_005;

/// What is then added to it.
const INCREMENT: u64 = 1_442_695_040_888_963_407;

/// A source of draws.
#[derive(Drop)]
pub struct Draws {
    /// The number that it began with, or the state behind the last draw.
    pub state: u64,
}

impl Draws {
    /// The draws of a number.
    pub fn new(number: u64) -> Draws
        ensures { result.state ≡ number }
    {
        Draws { state: number }
    }

    /// The next draw: the high half of the state behind it.
    #[tactic(auto, unfolding(crate::specs::Draws::state_behind, crate::specs::Draws::next_state))]
    pub fn next(&mut self) -> u32
        ensures draw { result ≡ draw self.old.state 0 }
        ensures state { self.new.state ≡ state_behind self.old.state 1 }
    {
        self.state = self.state.wrapping_mul(MULTIPLIER).wrapping_add(INCREMENT);
        (self.state >> 32) as u32
    }
}
