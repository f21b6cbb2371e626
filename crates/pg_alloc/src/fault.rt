//! Why a call was refused.

use thiserror::Error;

/// Why a grant was not made.
#[derive(Clone, Copy, Debug, PartialEq, Eq, Drop, Error)]
pub enum GrantFault {
    /// No run of so many cells is free.
    #[error("no room for a grant of that size")]
    NoRoom,
    /// Memory ran out. There is room.
    #[error("out of memory")]
    Memory,
}

/// Why a grant was not released: no live grant has the base.
#[derive(Clone, Copy, Debug, PartialEq, Eq, Drop, Error)]
#[error("no grant has that base")]
pub struct NotGranted;
