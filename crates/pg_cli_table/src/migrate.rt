//! The command `migrate`: a new certificate made of one that is there, and saved.
//!
//! It takes three words and no option: the names of the file with the description, of the file with the certificate, and of
//! the file for the new one.
use crate::synopsis::{Argument, Synopsis};
use crate::values::FileName;

/// The words of `migrate`.
#[derive(Drop)]
pub struct MigrateWords {
    /// The name of the file with the machine's description.
    pub desc: FileName,
    /// The name of the file with the certificate that the new one is made of.
    pub cert: FileName,
    /// The name of the file that the new certificate is saved under.
    pub file: FileName,
}

/// How it is called.
pub(crate) const MIGRATE: Synopsis = Synopsis {
    name: "migrate",
    arguments: &[
        Argument::File("DESC"),
        Argument::File("CERT"),
        Argument::File("FILE"),
    ],
    usage: "pgv migrate DESC CERT FILE\n",
};
