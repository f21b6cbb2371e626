//! Monitors under monitors: a guest of a monitor as a hardware of its own.
//!
//! It is Theorem 2 of the 1974 paper. A monitor runs its guest on any hardware, and knows no more of it than the clauses of the
//! trait. What it makes of its guest meets these clauses again: a `Level` is a hardware whose storage is the guest's grant and whose
//! program status word is the guest's own. So another monitor runs on it, as it runs on the hardware below, and nothing is proved
//! anew for a second depth. A machine of one size less the cells that a monitor keeps has the same instructions, so what a
//! monitor may run on the wider one it may run on it too.
//!
//! A burst of a level goes down as bursts of the hardware below. A run of steps that no level has to interpret is one burst through all
//! of them.
//!
//! # Modules
//!
//! - `level`: the guest of a monitor as a hardware. `bursting`: its bursts.
//! - `lent`: a hardware on loan as one that is had.
#![tactic(auto)]

mod bursting;
mod lent;
mod level;

pub use lent::Lent;
pub use level::Level;
