//! The command `save`: a run of an image as a guest, and the state that it reaches saved.
//!
//! It takes four words: the names of the files with the description, with the certificate and with the image, and of the file
//! that the guest is saved under. What the guest is granted, and how many steps it does, is said by options that have to be
//! there.
use crate::running::{GRANT, STEPS};
use crate::synopsis::{Argument, Synopsis};
use crate::values::{FileName, Grant, Steps};

/// The words of `save`.
#[derive(Drop)]
pub struct SaveWords {
    /// The name of the file with the machine's description.
    pub desc: FileName,
    /// The name of the file with the certificate that the machine is accepted by.
    pub cert: FileName,
    /// The name of the file with the image.
    pub image: FileName,
    /// The name of the file that the guest is saved under.
    pub file: FileName,
    /// How many cells are granted to the guest.
    pub grant: Grant,
    /// How many steps it does.
    pub steps: Steps,
}

/// How it is called.
pub(crate) const SAVE: Synopsis = Synopsis {
    name: "save",
    arguments: &[
        Argument::File("DESC"),
        Argument::File("CERT"),
        Argument::File("IMAGE"),
        Argument::File("FILE"),
        GRANT,
        STEPS,
    ],
    usage: "pgv save DESC CERT IMAGE FILE --grant G --steps N\n",
};
