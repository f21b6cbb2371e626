//! What the side programs tell, as JSON.
//!
//! A text is pushed piece by piece at the end of a buffer, which whoever owns it puts and clears, so no whole answer is ever held; a
//! piece for which there is no memory is told when it is put. It
//! is UTF-8. Numbers are decimal, and a word of the machine is a string of hexadecimal digits, since the numbers of many readers
//! have fewer than 64 bits. `docs/DATA.md` says each key, and `share/page/data.schema.json` the form.
//!
//! - `value`: flags, words and strings. `list`: lines and names. `state`: states.
//! - `head`: how a text begins. `instr`: an instruction; `source`: its place in the text of the description; `touched`: what a body
//!   reads and sets of the mode and of the window.
//! - `finding`: a finding. `log`: how long the logs of a certificate are.
//! - `run`: a run from its image on. `turn`: a step. `turns`: many steps, in `pieces`. `asked`: what the hardware of a monitor does.
//!   `counts`: counts of steps. `held`: the state that a hardware holds.
//!
//! The texts rest on no definition but the grammar of JSON: what is told is what `pg_out_pair` and `pg_out_steps` say, and rows of tests
//! hold it beside their texts. Proved is that nothing here fails but for lack of memory or at a put that failed, and that a run goes on as it would unwatched.
#![tactic(auto)]

mod asked;
mod counts;
mod finding;
mod head;
mod held;
mod instr;
mod list;
mod log;
mod pieces;
mod run;
mod source;
mod state;
mod touched;
mod turn;
mod turns;
mod value;

pub use finding::{Shown, push_open, push_refuted, push_shown};
pub use head::push_head;
pub use instr::push_instr;
pub use list::push_lines;
pub use log::{LogLen, Logs};
pub use run::put_run;
pub use source::{Source, SourceList, read_sources};
pub use value::{push_flag, push_string, push_word};
