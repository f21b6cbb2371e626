//! The texts that the program puts into a sink.
//!
//! These go out: the line of a refusal, the lines of usage, the text of a state, the lines around states of guests, the lines
//! of a summary, the text of a verdict, that of a replay, and texts that stand in memory. Each is put line by line, and each
//! line, in a buffer of fixed length or as it stands in memory, is one `put`, so that nothing here takes memory, but for the
//! state that follows a step in a replay, and nothing else but the sink can refuse. A call answers as one `put` of its whole
//! text would: where a put fails it answers `Failed`, and nothing more is put.
//!
//! - `line`: what a refusal says.
//! - `push`: bytes, numbers and names at the end of a line.
//! - `refusal`: the lines of refusals and of usage.
//! - `state`: the text of a state.
//! - `run`: the lines around the states of guests.
//! - `summary`: the lines of a summary.
//! - `sparse`: the text of a state of which only cells that are not zero are listed.
//! - `answers`: the line of what is known of an instruction. `verdict`: the text of a verdict.
//! - `replay`: the text of a replay.
//! - `text`: a text that stands in memory.
//! - `laws`: what follows from the definitions alone.
#![tactic(auto)]

mod answers;
pub mod laws;
mod line;
mod push;
mod refusal;
mod replay;
mod run;
mod sparse;
mod state;
mod summary;
mod text;
mod verdict;

pub use line::{CertificateLine, DescriptionLine, ImageLine, RefusalLine, SavedLine, SourceLine};
pub use refusal::{put_refusal, put_usage};
pub use replay::{ReplayFault, put_replay};
pub use run::{put_guest, put_steps, put_total};
pub use sparse::put_sparse;
pub use state::{put_state, row_line};
pub use summary::{put_instructions, put_summary};
pub use text::put_text;
pub use verdict::{put_outcome, put_verdict};
