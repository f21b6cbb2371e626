//! The command `disasm`: an image, written as a source that gives it.
//!
//! It takes two words, the name of the file with the description and that of the file with the image. How many cells the image
//! has is said by an option that has to be there.
use crate::running::GRANT;
use crate::synopsis::{Argument, Synopsis};
use crate::values::{FileName, Grant};

/// The words of `disasm`.
#[derive(Drop)]
pub struct DisasmWords {
    /// The name of the file with the machine's description.
    pub desc: FileName,
    /// The name of the file with the image.
    pub image: FileName,
    /// How many cells the image has.
    pub grant: Grant,
}

/// How it is called.
pub(crate) const DISASM: Synopsis = Synopsis {
    name: "disasm",
    arguments: &[Argument::File("DESC"), Argument::File("IMAGE"), GRANT],
    usage: "pgv disasm DESC IMAGE --grant G\n",
};
