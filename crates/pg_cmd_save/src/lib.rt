//! The commands that save a guest, and let it go on: `save` and `resume`.
//!
//! - `save`: an image as a guest of a monitor, and the state that it reaches saved. `resume`: a saved guest that goes on.
//! - `saved`: a file to a saved guest.
#![tactic(auto)]

mod resume;
mod save;
mod saved;

pub use resume::carry_resume;
pub use save::carry_save;
