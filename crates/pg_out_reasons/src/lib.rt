//! Why a machine is refused, in words.
//!
//! `tell_reasons` goes over the instructions of a report that are shown not to be privileged and shown to be sensitive. For each it
//! tells the pairs of states that show it, with one step from each (`pg_out_pair`). Then it asks what would mend the machine:
//! whether a hybrid monitor may run it, and whether it is accepted with guards (`pg_out_guarded`). Where it is wished, two states that are
//! laid out for a reader are told beside each pair (`pg_out_pair`).
//!
//! - `part`: what of a report is told, and how. `telling`: all of it. `instr`: one instruction. `mending`: what would mend it.
//! - `single`: one kind alone. `pair`: two states. `state`: one state. `outcome`: what is left behind the steps. `push`: pieces of a line.
#![tactic(auto)]

mod instr;
mod mending;
mod outcome;
mod pair;
mod part;
mod push;
mod single;
mod state;
mod telling;

pub use part::{Part, Wish};
pub use single::{Single, tell_single};
pub use telling::{Mended, Reasons, tell_reasons};
