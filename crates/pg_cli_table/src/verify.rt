//! The command `verify`: a certificate checked against a description.
//!
//! It takes two words, the name of the file with the description and that of the file with the certificate, and no option.
use crate::synopsis::{Argument, Synopsis};
use crate::values::FileName;

/// The words of `verify`.
#[derive(Drop)]
pub struct VerifyWords {
    /// The name of the file with the machine's description.
    pub desc: FileName,
    /// The name of the file with the certificate to check.
    pub cert: FileName,
}

/// How it is called.
pub(crate) const VERIFY: Synopsis = Synopsis {
    name: "verify",
    arguments: &[Argument::File("DESC"), Argument::File("CERT")],
    usage: "pgv verify DESC CERT\n",
};
