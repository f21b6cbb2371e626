//! Where labels are given.

/// Where a label was given first.
#[derive(Clone, Copy, Debug, PartialEq, Eq)]
pub struct Mark {
    /// The number of the line that gave it.
    pub line: usize,
    /// The place that was reached there. It may be past the size.
    pub place: usize,
}
