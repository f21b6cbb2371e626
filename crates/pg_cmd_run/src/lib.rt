//! The commands that run guests: `run`, `hybrid` and `nest`.
//!
//! - `files`, `loading`: what every such command loads first. `plan`, `preparing`: a run made ready.
//! - `run`: images as guests under a monitor, where a certificate says that one may run the machine. `hybrid`: the same under a
//!   hybrid monitor. `nest`: one under monitors under monitors, with `nest_plan`, `nest_preparing`.
#![tactic(auto)]

mod files;
mod hybrid;
mod loading;
mod nest;
mod nest_plan;
mod nest_preparing;
mod plan;
mod preparing;
mod run;

pub use files::{GuestFiles, LoadedGuests};
pub use hybrid::carry_hybrid;
pub use loading::load_guests;
pub use nest::carry_nest;
pub use run::carry_run;
