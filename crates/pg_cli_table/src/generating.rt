//! The command `gen`: a large description made of a number, classified, and guests run on it.
//!
//! It takes two numbers, the one that the description is made of and how many instructions it is to have, and after `--cert`
//! the name of the file for the certificate.
use crate::synopsis::{Argument, Range, Synopsis};
use crate::values::{Count, FileName};

/// The words of `gen`.
#[derive(Drop)]
pub struct GenWords {
    /// The number that the description is made of: 0 to 2^64 - 1.
    pub number: u64,
    /// How many instructions the description has.
    pub count: Count,
    /// The name of the file that the certificate is saved under.
    pub cert: FileName,
}

/// How it is called.
pub(crate) const GEN: Synopsis = Synopsis {
    name: "gen",
    arguments: &[NUMBER, SIZE, Argument::FileOption("cert", "FILE")],
    usage: "pgv gen NUMBER SIZE --cert FILE\n",
};

/// The number that the description is made of: 0 to 2^64 - 1.
const NUMBER: Argument = Argument::Number(
    "NUMBER",
    Range {
        least: 0,
        most: u64::MAX,
    },
);

/// How many instructions the description has: 1 to 60.
const SIZE: Argument = Argument::Number("SIZE", Range { least: 1, most: 60 });
