//! Why a machine is refused, in words, for people who would mend it.
//!
//!     pg_explain DESC CERT [INSTR [KIND] | --json] [--budget K] [--mend FILE] [--readable]
//!
//! CERT is a certificate of the description in DESC, of either family, as `pgv check` and `pgv hcheck` write it. What is written
//! is the verdict, for each instruction that is refused the states that show why, with one step from each, and what would mend the
//! machine (`pg_out_reasons`). With INSTR that instruction alone is told, and with KIND that kind of it: `privileged`, `control`, `mode`,
//! `location`, `bound`, `ucontrol`, `ulocation` or `ubound`. Under `--mend` the description with guards is saved, where it is
//! accepted: its own text with the guards put in, or the mended description printed, if that would not read so (`pg_out_guarded`).
//! Under `--readable` two states that are laid out for a reader are told beside each pair (`pg_out_pair`). With `--json` the
//! machine, all findings and all of the text are one JSON object (`json`).
//!
//! The status is that of `pgv verify`: 0 accepted, 1 refused, 2 open. Words that are not taken, or name no instruction of the
//! description, are answered by the usage (3); the other refusals are those of `pgv verify` too. A file for the mended description that
//! is one of those that are read is refused, before anything is read.
//!
//! What each status leaves is a clause: as text `carry`; as JSON `carry_json` (*JsonLeaves*), by which 0, 1 and 2 are the number of the
//! verdict that is due, which means what it says, and other statuses are as beside text up to where JSON is put. Of what is put then
//! nothing is said.
//!
//! - `explain`: the call. `request`: the words. `source`: whether a file that is read would be replaced. `load`: the files. `found`: what
//!   there is to tell. `mend`: what is saved. `json`: the same as JSON.
#![tactic(auto)]

mod explain;
mod found;
mod json;
mod load;
mod mend;
mod request;
mod source;

pub use explain::{USAGE, refused, run, say_layout};
