//! What one step did.

use crate::handling::Handling;
use pg_word::{Cause, Psw};

/// What one step of a machine did. Its stores, where it was done, are kept by the `Tracer` until the next step.
#[derive(Clone, Copy, Debug, PartialEq, Eq)]
pub struct Stepped {
    /// The program status word before it.
    pub psw: Psw,
    /// The word that was fetched, the one at P; none where P lies outside the window.
    pub word: Option<u64>,
    /// The number of the instruction that the word means; none where there is no word, or no pattern matches it.
    pub instr: Option<usize>,
    /// Why it trapped; none where it was done.
    pub cause: Option<Cause>,
    /// The program status word behind it.
    pub next: Psw,
    /// The word of cell 0 behind it: after a trap what the trap stored.
    pub kept: u64,
    /// How a monitor would handle it; none where no monitor was named.
    pub handling: Option<Handling>,
}
