//! The commands that judge a machine: `check`, `hcheck`, `verify`, `replay` and `migrate`.
//!
//! - `check` (and `hcheck`): a certificate is found. `migrate`: one is made anew of another. `saving`: it is saved, and its verdict
//!   told.
//! - `verify`: the verdict of a certificate. `replay`: the states that it shows.
#![tactic(auto)]

mod check;
mod migrate;
mod replay;
mod saving;
mod verify;

pub use check::carry_check;
pub use migrate::carry_migrate;
pub use replay::carry_replay;
pub use verify::carry_verify;
