//! The real edges: files of the system and its streams, as the shelf and the sink that `pg_edge` asks for.
//!
//! A program makes a [`DirShelf`] over the files and a [`StdSink`] over standard output, and lends both to what it
//! calls; nothing else here or above opens, reads or writes, but for the lines on standard error ([`telling`],
//! [`Progress`]). One read or write of the system moves as many bytes as it likes, so both are made of the loops in
//! [`streams`], which move all of them or say why not. What a system does to its files between two calls nobody can say, so
//! neither edge tells its content: the clauses of the traits that speak of content are then empty, and those on bounds and
//! on counts of faults hold. That the bytes themselves arrive whole and in order is said of any reader and any writer that
//! tells its own, in [`streams`] and at `StdSink::put`.
//!
//! A program is small: it makes the two, and whatever runs machines, and ends with a status.
//!
//! # Modules
//!
//! - `dir_shelf`: the shelf; `opened`, the file of the last part; `saving`, a file that is saved whole. `std_sink`: the sink. `streams`: whole reads and writes, of which both are made.
//! - `fault`: why the system did not give or take what it was to. `refused`: what the shelf keeps of the call that it refused last.
//! - `telling`: the line on standard error of a program that ends without a text. `progress`: the line that says how far it has
//!   come. `push`: what is pushed at the end of either.
#![tactic(auto)]

mod dir_shelf;
mod fault;
mod opened;
mod progress;
mod push;
mod refused;
mod saving;
mod std_sink;
pub mod streams;
pub mod telling;

pub use dir_shelf::DirShelf;
pub use fault::Fault;
pub use progress::Progress;
pub use refused::{Cause, Deed, NAME_BYTES, Refused};
pub use std_sink::StdSink;
