//! A storage of which only the cells are named that are touched.
//!
//! A question about an instruction is asked of a circuit: two runs of its body over one storage of `2^a` words of `w` bits,
//! too many for the inputs of a circuit. So a word is named, by `w` inputs, where a run touches its address, and that the
//! named words are those of one storage is a gate. `Touched` keeps the cells that are named, and the writes of the run that
//! is under way.
//!
//! What that means is said of plain values in `specs/Storage.antt`: a storage is a list of words, `written` what writes make
//! of it, and a cell *agrees* with it where its word is the one at its address. In `specs/Means.antt` stand the two facts
//! that tie circuits to storages: a word that was touched is the storage's after the writes that stand (`IsWordAt`), and
//! the gate of `consistent` is true exactly where there is a storage that agrees with all cells (`TellsConsistent`). The
//! other way, from a storage to inputs, is the law `storages_have_inputs`.
//!
//! # Modules
//!
//! - `touched`: the calls. `cell`: a cell and a write, as gates.
//! - `find`: the cell that has an address, gate for gate. `inputs`: inputs for a word that is new.
//! - `lay`: the writes that stand, laid over a word. `agree`: gates that cells agree.
//! - `string`: one string or another, bit by bit.
//! - `laws`: what follows from the definitions alone. `rows`: worked touches.
#![tactic(auto)]

mod agree;
mod cell;
mod find;
pub mod inputs;
pub mod laws;
mod lay;
pub mod rows;
mod string;
mod touched;

pub use cell::{Cell, Write};
pub use touched::Touched;
