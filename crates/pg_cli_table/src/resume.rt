//! The command `resume`: a saved guest that goes on.
//!
//! It takes three words: the names of the files with the description, with the certificate and with the saved guest. How many
//! steps the guest does is said by an option that has to be there; how many cells lie before it, by one that may be left out.
use crate::running::STEPS;
use crate::synopsis::{Argument, Range, Synopsis};
use crate::values::{FileName, Skip, Steps};

/// The words of `resume`.
#[derive(Drop)]
pub struct ResumeWords {
    /// The name of the file with the machine's description.
    pub desc: FileName,
    /// The name of the file with the certificate that the machine is accepted by.
    pub cert: FileName,
    /// The name of the file with the saved guest.
    pub saved: FileName,
    /// How many steps it does.
    pub steps: Steps,
    /// How many cells are held before the guest's own: none where the words do not say it.
    pub skip: Skip,
}

/// How it is called.
pub(crate) const RESUME: Synopsis = Synopsis {
    name: "resume",
    arguments: &[
        Argument::File("DESC"),
        Argument::File("CERT"),
        Argument::File("SAVED"),
        STEPS,
        SKIP,
    ],
    usage: "pgv resume DESC CERT SAVED --steps N [--skip P]\n",
};

/// How many cells are held before the guest's own: 0 to 1,048,575.
const SKIP: Argument = Argument::OptionalNumber(
    "skip",
    "P",
    Range {
        least: 0,
        most: 1_048_575,
    },
);
