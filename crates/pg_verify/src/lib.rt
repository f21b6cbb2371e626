//! The verifier of certificates: whether a text is the one spelling of a valid certificate of a machine.
//!
//! A text is read line by line, however its bytes are handed over. Each finding is tried as it comes: the steps of a log by a
//! checker over the clauses of the question, which is asked as the finding opens, two states by replaying them. Nothing is
//! trusted that whoever wrote the text may have done. Once a finding is closed only its mark is kept.
//!
//! # Modules
//!
//! - `verifier`: the type, and its life: `new` or `hybrid`, then `feed` or `line`, then `finish`. `verify` is all of it.
//! - `fault`: why a text is refused.
//! - `families`: which headings begin the certificates of a family, and in which order its kinds come.
//! - `opened`: what is open of a text: a finding, or none.
//! - `drawing`: the two states of a finding, as lines give them.
//! - `reading`: how far a text has been read; its first line, its headers and its last line.
//! - `reading::feeding`: bytes that are fed, cut into lines.
//! - `steps`: a line of a log.
//! - `states`: a line of the two states.
//! - `laws`: what follows from the definitions alone: a text is taken exactly where it spells a valid certificate.
#![tactic(auto)]

mod drawing;
mod families;
mod fault;
pub mod laws;
mod opened;
mod reading;
mod states;
mod steps;
mod verifier;

pub use fault::{StepCause, VerifyFault};
pub use reading::CERT_BYTES;
pub use verifier::{Verifier, verify};
