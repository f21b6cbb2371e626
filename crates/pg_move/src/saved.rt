//! What is saved of a guest.

use pg_word::Sparse;

/// The most steps that a text counts.
pub const MOST_STEPS: u32 = 1_000_000_000;

/// A guest that was saved.
#[derive(Debug, Drop)]
pub struct Saved {
    /// How many steps it has made: `MOST_STEPS` at most.
    pub steps: u32,
    /// The state at which it stands.
    pub state: Sparse,
}
