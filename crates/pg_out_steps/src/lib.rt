//! A look inside a run: what each step of a machine did, as text, counts of the steps, and as a value change dump.
//!
//! A machine runs on a hardware, step by step (`tracer`). Of each step there is a record (`stepped`): where it began, the word that
//! was fetched, the instruction that the word means, the stores that were made, why it trapped, and where the machine goes on.
//! What a record says is pinned by the definitions of a step (`specs/Tells.antt`): the hardware makes the step, and the
//! interpreter, which reads the same cells before it, says how it ends. Steps are counted by their records (`tally`).
//!
//! Of a machine that could be a monitor's guest the record says too how the monitor would handle the step (`handling`), and the steps
//! are counted by that (`shares`).
//!
//! `tracing` makes many steps and puts their lines (`line`), or of those that trap alone (`shows`). Memory is taken for a line only
//! where it is shown. `counts` has the lines of the counts.
//!
//! `dump` puts a run from its image on as a value change dump (IEEE Std 1364-2005, 18), which viewers of waves read. A step is a unit
//! of time. Behind n steps, at the time n, stand the program status word before the next step, the number of its instruction, why it
//! traps, and under a monitor whether the hardware does it; at the end the program status word that is reached. A value is written
//! where it is another one than before. Its text is `dump_text` (`specs/Dump.antt`). `signal`: what is dumped. `sample`: the values at
//! a time. `head`: the text before the times; `times`: that of a time.
#![tactic(auto)]

mod counts;
mod dump;
mod handling;
mod head;
mod line;
mod sample;
mod shares;
mod shows;
mod signal;
mod stepped;
mod tally;
mod times;
mod tracer;
mod tracing;
mod window;

pub use counts::push_counts;
pub use dump::put_dump;
pub use handling::{Handling, Monitor};
pub use line::push_step;
pub use shares::{Shares, push_shares};
pub use shows::{Shows, Telling};
pub use stepped::Stepped;
pub use tally::Tally;
pub use tracer::Tracer;
pub use tracing::{TraceFault, trace, trace_bare};
