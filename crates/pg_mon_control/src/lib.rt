//! What control programs have in common: how they keep guests, and what the hardware under them stands for.
//!
//! A control program runs guests, each of which believes to have a machine to itself. A guest has a *grant*, some cells of
//! the hardware's storage, and a program status word of its own; its state is these cells and that word. The control
//! program makes the grants, so that no two have a cell in common, keeps cells 0 and 1 for the hardware's traps, and
//! enters a guest by a program status word composed of the guest's own. Which steps the hardware then executes for the
//! guest, and which the control program interprets, each of them decides for itself: nothing here makes a turn.
//!
//! # Modules
//!
//! - `guest`: what is kept of a guest. `fault`: why one was not taken.
//! - `placing`: grants, with a guest or without one. `loading`: words that are put into a grant.
//! - `admitting`: how a control program takes an image as a guest. `taking`: how it takes a storage. `entering`: how it enters a guest.
//!
//! What several control programs say of their guests stands in `specs/`: states of guests and the storage that stands for
//! them, direct steps, plans and schedules of turns.
#![tactic(auto)]

mod admitting;
mod entering;
mod fault;
mod guest;
mod loading;
mod placing;
mod taking;

pub use admitting::admit_image;
pub use entering::{enter, is_current, select};
pub use fault::GuestFault;
pub use guest::Guest;
pub use loading::{put_state, put_words};
pub use pg_alloc::KEPT_CELLS;
pub use placing::{hold, place};
pub use taking::take_storage;
