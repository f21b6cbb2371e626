//! Who is told how far a run has come.

/// How far a run has come.
#[derive(Clone, Copy, Debug, PartialEq, Eq)]
pub struct Pace {
    /// How many turns the guests had, all together; the steps of a machine without a monitor.
    pub turns: u64,
    /// How many of the guests were found still.
    pub still: usize,
    /// How many guests there are; 0 of a machine without a monitor.
    pub guests: usize,
}

/// Is told how far a run has come, before its first turn and from time to time. It changes nothing of what the run leaves.
pub trait RunWatcher {
    /// It has come so far.
    fn goes(&mut self, pace: Pace);
}
