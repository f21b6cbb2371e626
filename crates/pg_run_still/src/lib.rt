//! Runs of guests that end: each guest has its turns until it is still, or has had as many as it may have.
//!
//! A guest is still where a step leaves its state as it is, as a jump to itself does: every later step then does so too. Guests run by
//! slices in rounds, as those of `run` do. One that was found still in a round has the rest of its slice, instead of leaving at once,
//! and no turn in later ones: so the turns are rounds of slices, and which guest has which turn follows from when each is first still.
//! The run ends when no guest is left, or all steps were made.
//!
//! # Modules
//!
//! - `rounds`: the rounds. `running`: a run of images, from the hardware on. `bare`: a run of one without a monitor.
//! - `telling`: its text. `view`: what may be told of a guest in place of its state. `viewing`: the text of that.
#![tactic(auto)]

mod bare;
mod rounds;
mod running;
mod telling;
mod view;
mod viewing;

pub use bare::{run_bare_until_still, step_seen};
pub use rounds::{MOST_GUESTS, Rest, Rests, run_rounds};
pub use running::{Rested, run_until_still};
pub use telling::{put_rested, put_stood};
pub use view::{ByteCount, Span, View};
