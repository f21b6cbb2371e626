//! The arguments of commands that run images: how many cells are granted, and how many steps are done.
use crate::synopsis::{Argument, Range};

/// How many cells are granted, to a machine or to a guest: 2 to 1,048,575.
pub(crate) const GRANT: Argument = Argument::NumberOption(
    "grant",
    "G",
    Range {
        least: 2,
        most: 1_048_575,
    },
);

/// How many steps are done, exactly: 0 to 1,000,000.
pub(crate) const STEPS: Argument = Argument::NumberOption(
    "steps",
    "N",
    Range {
        least: 0,
        most: 1_000_000,
    },
);
