//! The hybrid monitor: a control program that runs guests on a hardware, and interprets whatever they do in supervisor mode.
//!
//! It is the hybrid monitor of Popek and Goldberg's Theorem 3. A guest has a *grant*, some cells of the hardware's storage,
//! and a program status word of its own. A turn that begins in supervisor mode is interpreted on the guest's cells and its
//! own program status word: the hardware makes no step, and no word is loaded. A turn that begins in user mode is one step
//! of the hardware, under a program status word composed of the guest's own, and is interpreted only where it traps. So no
//! more is asked of the machine than that its instructions are privileged or not sensitive *in user mode*: what they do in
//! supervisor mode no guest's hardware ever does. The state of a guest goes one step on at each of its turns, and nothing
//! else changes but cell 0, where the hardware stores its traps.
//!
//! # Modules
//!
//! - `hybrid`: the monitor, and how it takes a storage. `admitting`: how it takes images as guests.
//! - `turning`: turns of the guest at work: a step that is interpreted, and a burst of the hardware.
//! - `dispatching`: turns of guests, one, many and by a plan.
//! - `slicing`: turns of every guest, by slices, round after round. `laws`: what follows from the definitions alone.
//!
//! Guests, grants and what the hardware stands for are those of every control program, and stand in `pg_mon_control`.
//! Nothing here names a hardware but by its trait, nor rests on more of it than the clauses say.
#![tactic(auto)]

mod admitting;
mod dispatching;
mod hybrid;
pub mod laws;
mod slicing;
mod turning;

pub use hybrid::Hybrid;
pub use pg_mon_control::{Guest, GuestFault, KEPT_CELLS};
