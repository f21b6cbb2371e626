//! The command `nest`: a run of an image under one to four monitors. The outermost runs on the hardware, each other on the guest of
//! the one below it, and the image is the guest of the innermost.
//!
//! It takes three words: the names of the files with the description, with the certificate and with the image. What the guest is
//! granted, how many steps it does, and how many monitors there are, is said by options that have to be there.
use crate::running::{GRANT, STEPS};
use crate::synopsis::{Argument, Range, Synopsis};
use crate::values::{Depth, FileName, Grant, Steps};

/// The words of `nest`.
#[derive(Drop)]
pub struct NestWords {
    /// The name of the file with the machine's description.
    pub desc: FileName,
    /// The name of the file with the certificate that the machine is accepted by.
    pub cert: FileName,
    /// The name of the file with the image.
    pub image: FileName,
    /// How many cells are granted to the guest.
    pub grant: Grant,
    /// How many steps it does.
    pub steps: Steps,
    /// How many monitors there are.
    pub depth: Depth,
}

/// How it is called.
pub(crate) const NEST: Synopsis = Synopsis {
    name: "nest",
    arguments: &[
        Argument::File("DESC"),
        Argument::File("CERT"),
        Argument::File("IMAGE"),
        GRANT,
        STEPS,
        DEPTH,
    ],
    usage: "pgv nest DESC CERT IMAGE --grant G --steps N --depth D\n",
};

/// How many monitors there are: 1 to 4.
const DEPTH: Argument = Argument::NumberOption("depth", "D", Range { least: 1, most: 4 });
