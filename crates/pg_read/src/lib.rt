//! The reader of descriptions.
//!
//! `read_desc` makes a tree of the bytes of a description. What it answers is the only answer that the text allows: a
//! description exactly where the text's tokens are that description's, and a fault exactly where it has that cause
//! (`specs/Answer.antt`). The language is the one that `tokens_of` of `pg_ast` writes. Where tokens are no description's,
//! the fault is the place of the first with which no description goes on, or which goes down too many levels
//! (`specs/Fronts.antt`).
//!
//! A text of any kind is safe to read. It has at most `DESC_BYTES` bytes, expressions are read down to `EXPR_LEVELS` and
//! blocks down to `BLOCK_LEVELS`, so that no text makes the reader recurse further, and its time grows with the bytes alone. What is read
//! owns its memory, and nothing of the text is kept.
//!
//! - `fault`: why there is no description.
//! - `cursor`: the tokens that are left, and the small steps over them.
//! - `words`: the words that begin expressions and statements, and those of the head.
//! - `exprs`, `stmts`, `instrs`: each form of the language, one function for each definition of `specs/`, which are the
//!   readers of `pg_ast` step by step.
//! - `goals`, `forms`, `judge`: where tokens that are no description's go wrong, or too deep. They share no code with the
//!   forms above, since what is read there is trees, and what is asked here is one place.
//! - `whole`: the text.
//! - `laws`: each text allows one answer, and tokens tell how deep they go.
#![tactic(auto)]

mod cursor;
mod exprs;
mod fault;
mod forms;
mod goals;
mod instrs;
mod judge;
mod laws;
mod stmts;
mod whole;
mod words;

pub use fault::DescFault;
pub use laws::{one_answer_is_due, tokens_determine_marks};
pub use whole::{DESC_BYTES, read_desc};
