//! Saved guests: the state of a guest, how many steps it has made, and its text, from which it goes on elsewhere.
//!
//! `capture` takes the state of a monitor's guest; `adopt` makes a guest of it, under the same monitor or another one, on the
//! same hardware or another, of the same machine or one that agrees with it and is large enough. Between the two it may be a
//! text, which has one spelling: `write_saved` and `put_saved` make it, and `read_saved` reads it or says why it is none.
//!
//! # Modules
//!
//! - `saved`: what is saved of a guest. `fault`: why a text is refused.
//! - `reader`: how far a text has been read, and what a line leaves of it. `reading`: whole texts that are read.
//! - `lines`: the lines that no certificate has. `writing`: texts that are written.
//! - `moving`: guests that are captured, and adopted. `putting`: their text, put where there is room for it.
//! - `laws`: what follows from the definitions alone.
#![tactic(auto)]

mod fault;
pub mod laws;
mod lines;
mod moving;
mod putting;
mod reader;
mod reading;
mod saved;
mod writing;

pub use fault::SavedFault;
pub use moving::{adopt, capture};
pub use putting::put_saved;
pub use reading::{SAVED_BYTES, read_saved};
pub use saved::{MOST_STEPS, Saved};
pub use writing::{saved_room, write_saved};
