//! What is counted of a hardware.

ghost use Rattle.std.specs.Prelude.{◌≡◌};
ghost use Rattle.pg_hw.specs.Tallies.{no_counts};

/// Counts of a hardware. None falls, and each stands still at `2^64 - 1`.
#[derive(Clone, Copy, Debug, PartialEq, Eq)]
pub struct Counts {
    /// The steps done.
    pub steps: u64,
    /// The steps that began in user mode and did not trap.
    pub untrapped: u64,
    /// The cells set from outside.
    pub pokes: u64,
    /// The program status words loaded from outside.
    pub loads: u64,
}

impl Counts {
    /// The counts of a hardware on which nothing was done.
    pub fn none() -> Counts
        ensures { result ≡ no_counts }
    {
        Counts {
            steps: 0,
            untrapped: 0,
            pokes: 0,
            loads: 0,
        }
    }
}
