//! Questions about instructions, as clauses.
//!
//! # Modules
//!
//! - `asking`: the call, `ask`: the clauses that two states show a kind of an instruction, and what they stand for.
//! - `unknowns`: what is not known of the two states, as gates. `fits`: what must hold of it, and of the word at P.
//! - `ends`: two runs of one body over one storage, and whether they end as the kind asks.
//! - `states`: the states that an assignment stands for. `laws`: what questions mean.
#![tactic(auto)]

mod asking;
mod ends;
mod fits;
pub mod laws;
mod states;
mod unknowns;

pub use asking::{Asked, ask};
pub use ends::{BothEnds, End};
pub use states::states_of;
pub use unknowns::Unknowns;
