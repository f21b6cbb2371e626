//! A certificate made anew: the text of one is verified whole, and its findings are kept in order, each log trimmed, under the
//! heading that is written today.
//!
//! Nothing is trusted of a text: it is verified first (`pg_verify`), and where it is refused nothing is made. Of a text that is
//! taken the marks are known, so that only its logs are still wanted; they are read once more. A log that refutes is trimmed
//! over the clauses of its question, which is asked anew; one that spends its budget stays as it is, and so do the two states
//! that show a kind. What is made is valid: `verify` takes its text, where that is not too long.
//!
//! # Modules
//!
//! - `logs`: the logs that stand in a text. `making`: one finding, of its mark and its log. `migrating`: all of a certificate.
//! - `families`: the same of either family. `reporting`: its text verified piece by piece. `watching`: who is told how far that is.
#![tactic(auto)]

mod families;
mod logs;
mod making;
mod migrating;
mod reporting;
mod watching;

pub use families::{migrate_of, migrate_watched};
pub use migrating::{Migrated, migrate};
pub use watching::{ReadWatcher, Unwatched};
