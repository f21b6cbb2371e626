//! A state that is read line by line.
//!
//! A text gives a state by a line of its size, one of its program status word, and rows of its cells that are not zero, upwards.
//! `drawn` is the state behind its first two lines; it is whole, and each row that fits makes one more of it (`with_row`).
//! What the lines say is known already: `parse_line` of `pg_cert` reads them.
//!
//! # Modules
//!
//! - `rows`: a state before its first row, and with a row more.
//!
//! That these are the lines of the state and of no other, and that the lines of a state give it back, is proved in `proofs`
//! (`DrawnLines`, `RowsBack`), for whoever reads texts that have states in them.
#![tactic(auto)]

mod rows;

pub use rows::{drawn, with_row};
