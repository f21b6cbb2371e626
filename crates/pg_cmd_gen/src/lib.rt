//! The command `gen`: a large input made of a number, classified and run.
//!
//! A number and a count give one description and four images. All of both follows from draws of a linear congruential
//! generator (the one of Knuth's MMIX), so that whoever has the number has the input. Whatever the number, the description is
//! valid, and the images find room in its machine beside the cells that a monitor keeps.
//!
//! - `generating`: the command.
//! - `draws`: the draws. `bodies`: the bodies of instructions. `instrs`: instructions and descriptions. `programs`: images. `whole`: both
//!   together. `laws`: each number has one description, and it is valid.
#![tactic(auto)]

mod bodies;
mod draws;
mod generating;
mod instrs;
pub mod laws;
mod programs;
mod whole;

pub use generating::carry_gen;
pub use whole::{Generated, generate};
