//! The monitor: a control program that runs guests on a hardware, each of which believes to have the machine to itself.
//!
//! It is the monitor of Popek and Goldberg's proof. A guest has a *grant*, some cells of the hardware's storage, and a
//! program status word of its own. The hardware runs it in user mode, under a program status word composed of its own: its
//! window lies where the grant lies, and ends where the grant ends. What the guest's instructions do there they would do
//! on the guest's machine, as long as they do not trap: that is what an accepted machine is. An instruction that traps
//! enters the control program by the word in cell 1, and is interpreted on the guest's cells and its own program status
//! word, whatever it then does there. So the state of a guest, which is its cells and that word, goes one step on at each
//! of its turns, and nothing else changes but cell 0, where the hardware stores its traps.
//!
//! # Modules
//!
//! - `monitor`: the monitor, and how it takes a storage. `prepared`: one whose memory was taken before.
//! - `granting`: the grants that it makes. `admitting`: how it takes images and states as guests.
//! - `reaching`: what is done to a guest from outside.
//! - `dispatching`: turns of guests, one, a burst, many and by a plan, and what a change of guest is.
//! - `turning`: turns of the guest that runs: bursts of direct steps, and steps that are interpreted. `settling`: turns that tell
//!   when a guest is still.
//! - `slicing`: turns of every guest, by slices, round after round. `laws`: what follows from the definitions alone.
//!
//! Guests, grants and what the hardware stands for are those of every control program, and stand in `pg_mon_control`.
//! Nothing here names a hardware but by its trait, nor rests on more of it than the clauses say.
#![tactic(auto)]

mod admitting;
mod dispatching;
mod granting;
pub mod laws;
mod monitor;
mod prepared;
mod reaching;
mod settling;
mod slicing;
mod turning;

pub use monitor::Monitor;
pub use pg_mon_control::{Guest, GuestFault, KEPT_CELLS};
pub use prepared::Prepared;
pub use turning::BurstTold;
