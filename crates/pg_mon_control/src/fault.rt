//! Why a guest was not taken.

ghost use Rattle.std.specs.Prelude.{◌≡◌};
ghost use Rattle.pg_mon_control.specs.declared.fault.GuestFault.TheVariants.{Memory};

use std::alloc::AllocError;
use thiserror::Error;

/// Why an image or a state was not taken as a guest.
#[derive(Debug, PartialEq, Eq, Drop, Error)]
pub enum GuestFault {
    /// The storage has no room for a grant of that size.
    #[error("no room for a guest of that size")]
    NoRoom,
    /// Memory ran out. It says nothing of the image.
    #[error("out of memory")]
    Memory,
}

impl From<AllocError> for GuestFault {
    ghost from_gives = { λ _ fault. fault ≡ Memory };

    fn from(_error: AllocError) -> GuestFault {
        GuestFault::Memory
    }
}
