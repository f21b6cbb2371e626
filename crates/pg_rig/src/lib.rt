//! The hardware in memory.
//!
//! `Rig` is a machine whose storage is a vector, the `Memory` of `pg_hw`: it executes by the interpreter over the window that
//! the program status word opens (`window`), makes the stores that come out, and traps by the swap of program status words
//! (`rig`). Where the machine knows words, steps go by their short forms while these do not bail (`short_steps`). Within a burst it keeps that word, the count of untrapped steps and where the window lies to itself. It serves every
//! machine and has room for `2^32 - 1` cells; nothing of it grows with the number of steps, and a step costs no more on a
//! larger storage.
//!
//! `Spy` is any hardware, watched: of the addresses that are poked it keeps the least and the greatest (`spy`).
//!
//! `power_on` and `bare`, which are for every hardware, stand in `pg_hw`; they are named here too.
#![tactic(auto)]

mod rig;
mod short_steps;
mod spy;
mod window;

pub use pg_hw::{bare, power_on};
pub use rig::{Interpreting, Rig};
pub use spy::Spy;
