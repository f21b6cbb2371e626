//! The command `asm`: a source, assembled into an image.
//!
//! It takes two words, the name of the file with the description and that of the file with the source. How many cells the
//! image has is said by an option that has to be there.
use crate::running::GRANT;
use crate::synopsis::{Argument, Synopsis};
use crate::values::{FileName, Grant};

/// The words of `asm`.
#[derive(Drop)]
pub struct AsmWords {
    /// The name of the file with the machine's description.
    pub desc: FileName,
    /// The name of the file with the source.
    pub source: FileName,
    /// How many cells the image has.
    pub grant: Grant,
}

/// How it is called.
pub(crate) const ASM: Synopsis = Synopsis {
    name: "asm",
    arguments: &[Argument::File("DESC"), Argument::File("SOURCE"), GRANT],
    usage: "pgv asm DESC SOURCE --grant G\n",
};
