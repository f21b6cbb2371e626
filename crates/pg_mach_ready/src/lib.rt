//! Descriptions made ready to be run.
//!
//! A `Machine` is a description that is valid, with what is worked out of it once (`machine`); `check` makes one of a
//! description that passes the tests of `pg_lang_valid` (`check_desc`). What runs or classifies a description is lent a machine.
//!
//! Which instruction a word means is found by a table (`decode_table`): it is the first whose pattern matches the word. An
//! opcode tests one pattern at once (`pg_lang_meaning`), but where there are many instructions a step would try one opcode after
//! another. Most of them are told apart by a few bits that stand together. So a table says, of each number that eight such
//! bits can make, where the search may begin (`skips`): every instruction before that place wants other bits there, and
//! matches no word that has these. Which eight bits these are changes no answer, only how many opcodes are tried: `bits` takes
//! those by which the most pairs of instructions are told apart, the lowest of those that are as good. So they lie within the
//! word, where words have at least eight bits (`laws`).
#![tactic(auto)]

mod bits;
mod check_desc;
mod decode_table;
pub mod laws;
mod machine;
mod skips;

pub use check_desc::check;
pub use decode_table::DecodeTable;
pub use machine::Machine;
