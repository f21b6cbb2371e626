//! The interpretive routines of a monitor: what it does for a guest whose instruction trapped.
//!
//! A guest has a *grant*, `size` cells of the hardware's storage from `base` on, and a program status word of its own,
//! the virtual one, which the hardware never holds. `compose` gives the program status word under which the hardware runs
//! the guest: in user mode, with the guest's window moved to where it lies and clipped to the grant. `emulate` does one
//! step of the guest's machine over the grant, as the definitions say: it reads the instruction's cells from the hardware
//! (`window`), executes it by the interpreter, and pokes what it stores, or makes the guest's trap in the guest's cells
//! (`routine`).
//!
//! No routine takes memory or refuses anything, and none touches a cell outside the grant. Who does many steps lends a frame of
//! the interpreter to each, since it is large beside a step.
#![tactic(auto)]

mod composing;
pub mod laws;
mod routine;
mod window;

pub use composing::compose;
pub use routine::{Emulated, emulate, emulate_seen, emulate_told};
