//! Certificates: what is found of each instruction and kind, and its text.
//!
//! A certificate has one finding for each instruction of a machine and each kind: a log that shows that no states show the
//! kind, two states that do, or how many steps were spent without an answer. `report_of` keeps of each what a verdict is
//! made of, and `Report::verdict` is the answer: whether a monitor may run the machine, and if not, because of which instruction.
//!
//! # Modules
//!
//! - `cert`: findings. `report`: their marks, and the verdict.
//! - `line`: what a line of a certificate's text says. `parts`: its parts. `reading`: what they are read as. `ranges`:
//!   whether its numbers are in range. `put`: its text. `parse`: the line that bytes say.
//! - `rows`: the cells of a state, row by row. `text`: the text of a certificate.
//! - `laws`: what follows from the definitions alone.
//!
//! What a finding means is `pg_proof`'s and `pg_type`'s to say. Nothing here tests one.
#![tactic(auto)]

mod cert;
pub mod laws;
mod line;
pub mod parse;
pub mod parts;
pub mod put;
pub mod ranges;
pub mod reading;
mod report;
pub mod rows;
mod text;

pub use cert::{Cert, Family, Finding, FindingList, StepList};
pub use line::{Found, Heading, Line};
pub use parse::{LineFault, parse_line};
pub use report::{Mark, MarkList, Report, Verdict, report_of};
pub use text::{instr_of, kind_of, put_finding, put_state, write};
