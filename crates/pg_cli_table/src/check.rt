//! The command `check`: each instruction of a description classified, and the certificate of that saved.
//!
//! It takes the name of the file with the description, and after `--cert` that of the file for the certificate. An option
//! bounds the solver. `hcheck` takes the same words.
use crate::synopsis::{Argument, Range, Synopsis};
use crate::values::{Budget, FileName};

/// The words of a command that finds and saves a certificate, `check` or `hcheck`.
#[derive(Drop)]
pub struct CheckWords {
    /// The name of the file with the machine's description.
    pub desc: FileName,
    /// The name of the file that the certificate is saved under.
    pub cert: FileName,
    /// How many clauses the solver may learn for a question: 20,000 where the words do not say it.
    pub budget: Budget,
}

/// How it is called.
pub(crate) const CHECK: Synopsis = Synopsis {
    name: "check",
    arguments: CHECK_ARGUMENTS,
    usage: "pgv check DESC --cert FILE [--budget K]\n",
};

/// The arguments of a command that finds and saves a certificate.
pub(crate) const CHECK_ARGUMENTS: &[Argument] = &[
    Argument::File("DESC"),
    Argument::FileOption("cert", "FILE"),
    BUDGET,
];

/// How many clauses the solver may learn for a question: 1 to 1,000,000.
const BUDGET: Argument = Argument::OptionalNumber(
    "budget",
    "K",
    Range {
        least: 1,
        most: 1_000_000,
    },
);
