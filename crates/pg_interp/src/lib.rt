//! Executes an instruction over the cells that it sees.
//!
//! An instruction sees a window of a storage, read by address (`cells`). It is fetched at P, found by its pattern, and its code
//! is run (`stepper`, and `fetch` for a single step). Code is a list of operations, which `pg_mach_code` makes once of each body; it
//! runs over a frame (`frame`): slots for numbers, the stores so far (`stores`), and the program status word that will be left.
//! `operations` goes through them, one after another, and ends where the definitions of code end (`course` has how it may
//! end); what it computes of single numbers stands in `numbers`, for others that execute, too.
//!
//! Nothing is written into the window meanwhile: stores are kept in the frame, in order, and a load looks through them first
//! where there are any (`overlay`), and so does whoever compares what effects leave. What comes out is a trap of either kind,
//! no pattern, or an effect: the stores to be made and the program status word that follows (`effect`). So a body that traps
//! after a store has changed nothing, and whoever holds the cells makes the stores where it pleases.
//!
//! A frame is made once and begun anew for each instruction; steps one after another leave in it the program status word that
//! the next one begins with (`stepper`). Nothing is allocated, and no operation copies more than a number.
#![tactic(auto)]

mod cells;
mod course;
mod effect;
mod fetch;
mod frame;
mod numbers;
mod operations;
mod overlay;
mod stepper;
mod stores;

pub use cells::Cells;
pub use effect::{Effect, Ended, Outcome, Write};
pub use fetch::{at, execute, step_in};
pub use frame::Frame;
pub use numbers::{cut, operate, sext};
pub use overlay::{Overlay, overlaid};
pub use stepper::Stepper;
pub use stores::Stores;
