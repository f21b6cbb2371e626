//! The command `bare`: a run on a bare machine.
//!
//! It takes two words, the name of the file with the description and that of the file with the image. What it grants, and
//! how many steps it does, is said by options that have to be there.
use crate::running::{GRANT, STEPS};
use crate::synopsis::{Argument, Synopsis};
use crate::values::{FileName, Grant, Steps};

/// The words of `bare`.
#[derive(Drop)]
pub struct BareWords {
    /// The name of the file with the machine's description.
    pub desc: FileName,
    /// The name of the file with the image.
    pub image: FileName,
    /// How many cells are granted to the machine.
    pub grant: Grant,
    /// How many steps are done.
    pub steps: Steps,
}

/// How it is called.
pub(crate) const BARE: Synopsis = Synopsis {
    name: "bare",
    arguments: &[
        Argument::File("DESC"),
        Argument::File("IMAGE"),
        GRANT,
        STEPS,
    ],
    usage: "pgv bare DESC IMAGE --grant G --steps N\n",
};
