//! A certificate whose text is made, before any of it is saved.

use crate::JudgedMachine;

/// A machine with a certificate of it, and the text of that.
#[derive(Drop)]
pub struct WrittenCert {
    /// The machine, and what is kept of the certificate.
    pub judged: JudgedMachine,
    /// What is saved: the whole text.
    pub text: Vec<u8>,
}
