//! The edge between the program and its surroundings: files that it reads and writes by name, and the
//! place where its output goes.
//!
//! The program never opens a file or writes to a stream itself. It is given a [`Shelf`], which loads,
//! measures, reads in parts and saves named files, and a [`Sink`], which takes bytes in order. Both are
//! traits, and their contracts are all that the layers above know of the outside: what an answer says of
//! the files, what a refusal leaves behind, and that a failure is counted where it is reported.
//!
//! An implementation may tell its contents to proofs or keep them to itself. Of one that tells, the
//! contracts speak byte for byte; of the others they bound what comes in and say what is counted.
//! [`MemShelf`] and [`MemSink`] hold everything in memory and tell it. They fail at the calls that they
//! were asked to fail at, where a write would pass the room, and where a save names no file, and nowhere
//! else, so that tests can meet every refusal.
//!
//! # Modules
//!
//! - `shelf`, `sink`: the traits.
//! - `mem_shelf`, `mem_sink`: both in memory. `mem_file`: the files of such a shelf. `failing`: the calls that are to fail.
//! - `count`: counters that stay at their last value.
#![tactic(auto)]

mod count;
mod failing;
mod mem_file;
mod mem_shelf;
mod mem_sink;
mod shelf;
mod sink;

pub use mem_shelf::MemShelf;
pub use mem_sink::MemSink;
pub use shelf::{Failed, LoadFault, Shelf};
pub use sink::Sink;
