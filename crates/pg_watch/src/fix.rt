//! Where propagation ends.

/// Where propagation ends.
#[derive(Clone, Copy, Debug, PartialEq, Eq)]
pub enum Fix {
    /// No clause is unit or falsified.
    Quiet,
    /// The clause with this number is falsified.
    Conflict(u32),
}
