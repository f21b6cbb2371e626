//! What instructions mean.
//!
//! The definitions stand in `specs/`, over description trees, and say what a user's words mean. A pattern lists the bits
//! of a word (`Patterns`), and a letter of it is a field. An expression has a value, or a load in it memory traps
//! (`Values`). A body takes a window, a program status word and the word that was fetched, and leaves another window and
//! another program status word, or ends in a trap (`Bodies`). A machine is a state and its steps: it fetches, executes,
//! and traps by a swap of program status words (`States`, `Steps`), as the machine of the 1974 paper (sections 2 and 3).
//! Everything is total: a tree needs not be valid to have a meaning. Which descriptions are valid stands in `pg_lang_valid`,
//! above, and what is asked of an instruction in `pg_type`.
//!
//! Three things are code here. `patterns` has which words a pattern matches and its fields, place by place as they are
//! defined. `opcode` has the bits that a pattern tests, so that a step asks by one `and` and one comparison, and `decoder` its
//! fields by their letters; both answer as the pattern does. `proofs/` has the equations of values and deeds, one a form, for
//! those who compute with them.
#![tactic(auto)]

mod decoder;
mod opcode;
mod patterns;

pub use decoder::{Decoder, decoders_of};
pub use opcode::{Opcode, opcodes_of, taking_number};
pub use patterns::{Field, field_of, matches, run_length};
