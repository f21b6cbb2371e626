//! The hardware, as its users see it: a trait, whose clauses are the machine of the 1974 paper (section 2).
//!
//! What a user of the trait knows of an implementation is what the clauses say of two ghost members. The one is its
//! `Machinery`: a state, which is a storage and a program status word, and which moves by *Step* and by nothing else but the
//! calls that name it; and four counts of what was done to it, and two of the hardware at the bottom, which never fall. The
//! other is what no call changes. Two things follow from it: the room, the greatest size that the hardware can be given, and
//! the machines that it serves, which it may run. Each implementation chooses of which type it is: a hardware that holds
//! another one keeps there which one that is, and so shows that it holds it still.
//!
//! Each implementation is proved against the clauses. Nothing above this crate names one.
//!
//! # Modules
//!
//! - `hardware`: the trait. `counts`: what is counted. `settling`: a hardware that tells where a burst came to a standstill.
//! - `runs`: what is run on any hardware, switching on and bare runs. `laws`: of counts and bursts.
//! - `memory`: a hardware in memory, whatever machines it runs, and what is owed by a way to do their steps, a burst a call;
//!   `parts`: the trap, and a count that rises. `idle`: the smallest hardware.
#![tactic(auto)]

mod counts;
mod hardware;
mod idle;
pub mod laws;
mod memory;
mod parts;
mod runs;
mod settling;

pub use counts::Counts;
pub use hardware::Hardware;
pub use idle::{Idle, Idling};
pub use memory::{BurstEnd, Memory, Works};
pub use parts::{raised, trap};
pub use runs::{bare, power_on};
pub use settling::{Settled, Settling};
