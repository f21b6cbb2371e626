//! What other solvers write of clauses, proofs that they cannot all be true and assignments that make them so; and such proofs made
//! logs: for each clause that a proof adds, the hints by which it follows.
//!
//! `read` tells by the bytes which form a file has. A file with a byte 0 is a binary proof, since each of its records ends with
//! one and no text has any. A text whose first line is the answer of a solver has an assignment; any other is a proof, DRAT or
//! LRAT as its first line is (Wetzler, Heule and Hunt, SAT 2014; Cruz-Filipe and others, CADE 2017). Nothing of it is believed: only
//! its form is looked at here. It costs the length of the file.
//!
//! A clause follows from others by reverse unit propagation (RUP) where, with all its literals false, unit propagation makes one of
//! them false (Goldberg and Novikov, DATE 2003). `log_of_proof` finds that conflict by `pg_watch::Watches`, and traces it back: the
//! clauses that were used, in the order of the trail, are the hints of the step. It believes neither the proof nor itself: a checker
//! of `pg_proof` takes each step of what it made, and so the log is closed.
//!
//! Literals that follow with nothing assumed get steps of their own, so that each is one hint from then on, however long its
//! reasons are. A removal is no act of the log; but once half of the clauses are removed the others are watched anew, so that
//! propagation is over about as many clauses as the other solver had.
//!
//! # Modules
//!
//! - `reading`: what was written, read. `bytes`: a file, part by part. `words`: the words of a line. `text`: proofs that are texts.
//!   `binary`: binary proofs. `answer`: assignments. `record`: what a file says, and where. `fault`: why it is refused.
//! - `proving`: a log of a proof. `elaborator`: a proof, record by record. `chain`: a conflict, traced back. `denial`: the literals
//!   of a clause, made false. `held`: the clauses that are watched. `draft`: the log so far. `units`: what follows with nothing
//!   assumed. `ordered`: literals in order. `marks`: literals and variables that were seen. `sums`: clauses by a sum of their
//!   literals. `rup_fault`: why a proof is refused.
#![tactic(auto)]

mod answer;
mod binary;
mod bytes;
mod chain;
mod denial;
mod draft;
mod elaborator;
mod fault;
mod held;
mod marks;
mod ordered;
mod proving;
mod reading;
mod record;
mod rup_fault;
mod sums;
mod text;
mod units;
mod words;

pub use fault::ForeignFault;
pub use ordered::clause_of;
pub use proving::log_of_proof;
pub use reading::read;
pub use record::{Act, Foreign, IdList, Place, Record, RecordList};
pub use rup_fault::RupFault;
