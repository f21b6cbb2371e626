//! What a control program keeps of a guest.

use pg_word::Psw;

/// A guest: its grant, and the program status word that it believes to be its machine's.
#[derive(Clone, Copy, Debug, PartialEq, Eq)]
pub struct Guest {
    /// The number of the first cell of its grant.
    pub base: u32,
    /// How many cells its grant has.
    pub size: u32,
    /// The virtual program status word.
    pub psw: Psw,
}
