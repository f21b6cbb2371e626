//! Runs of guests: under a monitor, under a hybrid monitor, and under monitors under monitors; and what is told of them.
//!
//! A run is of states that go on side by side as guests of one control program, whichever it is: each in a grant of its own
//! size, by slices, until each has had so many turns. Each then stands at the state that a machine of its own reaches in as
//! many steps. The text has these states and the counts of turns; it is told from the hardware, of guests where they lie.
//!
//! A hardware is given the machine's greatest size, a control program takes its storage, each image is loaded as a guest, and the
//! guests have their turns by slices; or a state is the one guest, behind cells that are held (`run_state`). All memory is taken
//! before the first turn. Under a hybrid monitor the guests reach the same states; what is counted differs, since each turn from
//! supervisor mode is interpreted there. Of monitors under monitors the outermost runs on the hardware that is handed in, and each
//! other on the guest of the one below it (`pg_nest`), which has two cells fewer; the innermost has an image as its guest, which ends
//! where it ends alone on a bare machine.
//!
//! `specs/Runs.antt` says what a run is and what it reaches, `specs/Setting.antt` what the hardware is before the first turn, and
//! `specs/UnderMonitor.antt`, `specs/UnderHybrid.antt` and `specs/Nesting.antt` what a run leaves of it.
//!
//! # Modules
//!
//! - `starting`: the hardware, the monitor and its guests, before the first turn. `running`: the turns. `hybrid_starting`,
//!   `hybrid_running`: the same under a hybrid monitor. `nesting`: a guest under one to four monitors.
//! - `telling`: the text. `summing`: the text in short, a line for each guest. `watching`: who is told how far a run has come.
#![tactic(auto)]

mod hybrid_running;
mod hybrid_starting;
mod nesting;
mod running;
mod starting;
mod summing;
mod telling;
mod watching;

pub use hybrid_running::{HybridRan, run_hybrid};
pub use nesting::{Innermost, nest};
pub use running::{Ran, run_guests, run_state};
pub use starting::start;
pub use summing::put_summaries;
pub use telling::{put_guests, put_one_guest};
pub use watching::{Pace, RunWatcher};
