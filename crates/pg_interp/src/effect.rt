//! What an instruction leaves to be done.

use crate::stores::Stores;
use pg_word::Psw;

/// A store that is to be made: a cell at an address of the window.
#[derive(Clone, Copy, Debug, Default, PartialEq, Eq)]
pub struct Write {
    pub at: u32,
    pub cell: u64,
}

/// What an instruction that is done leaves: its stores, in the order in which they are to be made, and the program status
/// word that follows.
#[derive(Debug, Drop)]
pub struct Effect {
    pub writes: Stores,
    pub psw: Psw,
}

/// How an instruction ends, with what it leaves.
#[derive(Debug, Drop)]
pub enum Outcome {
    /// By an access outside the window, of the fetch too.
    MemTrap,
    /// By `trap;`.
    Trap,
    /// No pattern matches the word that was fetched.
    NoPattern,
    Done(Effect),
}

/// How an instruction ends, where what it leaves lies in a frame.
#[derive(Clone, Copy, Debug, PartialEq, Eq)]
pub enum Ended {
    /// By an access outside the window, of the fetch too.
    MemTrap,
    /// By `trap;`.
    Trap,
    /// No pattern matches the word that was fetched.
    NoPattern,
    /// It is done: the frame has its stores and the program status word that follows.
    Done,
}
