//! The command `replay`: the states of a certificate, and the steps from them.
//!
//! It takes two words, the name of the file with the description and that of the file with the certificate, and no option.
use crate::synopsis::{Argument, Synopsis};
use crate::values::FileName;

/// The words of `replay`.
#[derive(Drop)]
pub struct ReplayWords {
    /// The name of the file with the machine's description.
    pub desc: FileName,
    /// The name of the file with the certificate whose states are replayed.
    pub cert: FileName,
}

/// How it is called.
pub(crate) const REPLAY: Synopsis = Synopsis {
    name: "replay",
    arguments: &[Argument::File("DESC"), Argument::File("CERT")],
    usage: "pgv replay DESC CERT\n",
};
