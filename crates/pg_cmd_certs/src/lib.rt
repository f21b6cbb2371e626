//! Certificates from files, and what a command leaves that judges by one, or saves one.
//!
//! A certificate is of a description and of a family of kinds: those of Theorem 1, or those of Theorem 3. What its verdict means
//! for the machine is `VerdictMeans` (`specs/Meaning.antt`).
//!
//! - `certified`: a file to what is kept of a certificate. `machine`, `judged`: a machine with that.
//!   `learning`: it learns words of images.
//! - `source`, `guest`: files to one guest, its machine and the certificate by which it may run.
//! - `telling`: the verdict told, and its status. `watching`: who is told of one that could not be saved.
//! - `search`: a certificate is found for a machine, and its text made whole (`written`). `saving`: a text is saved under a name.
#![tactic(auto)]

mod certified;
mod guest;
mod judged;
mod learning;
mod machine;
mod saving;
mod search;
mod source;
mod telling;
mod watching;
mod written;

pub use certified::{load_certificate, stop_of_text};
pub use guest::load_guest;
pub use judged::load_judged;
pub use machine::JudgedMachine;
pub use saving::save_text;
pub use search::checked;
pub use source::{GuestSource, LoadedGuest};
pub use telling::{is_accepted, status_of, tell_verdict};
pub use watching::VerdictWatcher;
pub use written::WrittenCert;
