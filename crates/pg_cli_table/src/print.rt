//! The command `print`: a printed description.
//!
//! It takes one word, the name of the file with the description, and no option.
use crate::synopsis::{Argument, Synopsis};
use crate::values::FileName;

/// The words of `print`.
#[derive(Drop)]
pub struct PrintWords {
    /// The name of the file with the description to print.
    pub desc: FileName,
}

/// How it is called.
pub(crate) const PRINT: Synopsis = Synopsis {
    name: "print",
    arguments: &[Argument::File("DESC")],
    usage: "pgv print DESC\n",
};
