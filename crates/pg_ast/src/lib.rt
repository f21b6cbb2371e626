//! Trees of descriptions, their limits and their tokens.
//!
//! A description is a head, `machine { word NUM; address NUM; size NUM; }` with `causes on;` where
//! causes are on, and instructions, `instr NAME PATTERN { .. }`. Its tree is plain data: equal trees
//! are the same description. Three things of it carry a proof, so that nobody tests them twice: a
//! name is a word that is not reserved, a pattern has letters of patterns alone, and the body of an
//! instruction keeps the limits on levels.
//!
//! - `name`: names and patterns.
//! - `tree`: expressions, statements, instructions, descriptions.
//! - `copying`: a description once more.
//! - `limits`: whether a tree goes down too many levels, asked without measuring it.
//! - `laws`: the law of tokens. Each description has one list of tokens (`specs/Tokens.antt`), and
//!   no two have the same. It rests on a reader of such lists (`specs/Reading.antt`), which takes
//!   just the lists that a description has, and is also what a parser is to agree with.
#![tactic(auto)]

mod copying;
mod laws;
mod limits;
mod name;
mod tree;

pub use laws::{reading_is_exact, tokens_determine_tree};
pub use limits::{BLOCK_LEVELS, EXPR_LEVELS, has_depth_within, is_shallow};
pub use name::{Name, PatternText};
pub use tree::{Desc, Expr, Instr, InstrList, Op, Stmt, StmtList};
