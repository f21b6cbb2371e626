//! Who is told how far a search has come.

/// Is told how far a search has come. It answers nothing, and nothing of the search is lent to it, so what the search finds is the same
/// whoever watches.
pub trait SearchWatcher {
    /// The search goes on, and has learned so many clauses of those that it may learn. It is told at each turn, which may be some
    /// microseconds.
    fn goes_on(&mut self, learned: usize, budget: u32);
}

/// Says nothing of it.
#[derive(Clone, Copy, Debug)]
pub struct Silent;

impl SearchWatcher for Silent {
    fn goes_on(&mut self, _learned: usize, _budget: u32) {}
}
