//! What programs beside `pgv` share: why one goes no further, what is read, put and saved on the way, and findings exchanged with
//! other solvers.
//!
//! - `stop`: why a program goes no further, the line that tells it, and the status. `fault`: why what another solver wrote is refused.
//! - `files`: files to machines and certificates, and what is put and saved. `either`: what is kept of a certificate, of either family.
//!
//! A certificate comes from its file, made anew as `pgv migrate` makes it (`certificate`), and `place` says where in it a finding
//! stands. What another solver found is made a finding: a log that is closed is trimmed, and an assignment becomes the two states
//! that it stands for, made small (`assignment`, `finding`). `replacing` puts it in the place of the finding that stood there; the new
//! certificate is as valid as the one before, so `verify` takes its text, where that is not too long.
//!
//! What other solvers and checkers read: a question is a formula in the format DIMACS CNF (`question`): lines of comment that say what
//! the variables stand for (`comments`), and the clauses (`text`), which are numbered from 1 in their order. A log that refutes it is a
//! text in the format LRAT (`lrat`), whose numbers go on behind those of the clauses.
#![tactic(auto)]

mod assignment;
mod certificate;
mod comments;
mod either;
mod fault;
pub mod files;
mod finding;
mod lrat;
mod place;
mod question;
mod replacing;
mod stop;
mod text;

pub use assignment::{assignment_of, first_false};
pub use certificate::load_certificate;
pub use either::load_either;
pub use fault::ProofFault;
pub use finding::{refuted, shown};
pub use lrat::lrat_of;
pub use place::place_of;
pub use question::{Names, text_of};
pub use replacing::{Imported, replaced};
pub use stop::{Stop, ended};
