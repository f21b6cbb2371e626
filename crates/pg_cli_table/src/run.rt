//! The command `run`: runs of images as guests, side by side under a monitor.
//!
//! It takes the names of three files or more: the file with the description, that with the certificate, and those with the
//! images, 1 to 8. What each guest is granted, and how many steps each does, is said by options that have to be there; how
//! many of them a guest does in turn, by one that may be left out. That there are no more than 8 images is no part of how it
//! is called: who reads the words tests it.
use crate::running::{GRANT, STEPS};
use crate::synopsis::{Argument, Range, Synopsis};
use crate::values::{FileName, Grant, Images, Slice, Steps};

/// The words of a command that runs images as guests, `run` or `hybrid`.
#[derive(Drop)]
pub struct RunWords {
    /// The name of the file with the machine's description.
    pub desc: FileName,
    /// The name of the file with the certificate that the machine is accepted by.
    pub cert: FileName,
    /// The names of the files with the images, one for each guest.
    pub images: Images,
    /// How many cells are granted to each guest.
    pub grant: Grant,
    /// How many steps each guest does.
    pub steps: Steps,
    /// How many steps a guest does before the next has its turn: 1,000 where the words do not say it.
    pub slice: Slice,
}

/// How it is called.
pub(crate) const RUN: Synopsis = Synopsis {
    name: "run",
    arguments: RUN_ARGUMENTS,
    usage: "pgv run DESC CERT IMAGE.. --grant G --steps N [--slice K]\n",
};

/// The arguments of a command that runs images as guests.
pub(crate) const RUN_ARGUMENTS: &[Argument] = &[
    Argument::File("DESC"),
    Argument::File("CERT"),
    Argument::Files("IMAGE"),
    GRANT,
    STEPS,
    SLICE,
];

/// How many steps a guest does before the next has its turn: 1 to 1,000,000.
const SLICE: Argument = Argument::OptionalNumber(
    "slice",
    "K",
    Range {
        least: 1,
        most: 1_000_000,
    },
);
