//! What is shown of a run.

use crate::handling::Monitor;

/// What is told of a run.
#[derive(Clone, Copy, Debug, PartialEq, Eq)]
pub struct Telling {
    /// Which steps have a line.
    pub shows: Shows,
    /// What kind of monitor steps are told of, where they are.
    pub monitor: Option<Monitor>,
}

/// Which steps have a line.
#[derive(Clone, Copy, Debug, PartialEq, Eq)]
pub enum Shows {
    /// Each.
    Steps,
    /// Those that trap.
    Traps,
    /// None: there are counts alone.
    Counts,
}
