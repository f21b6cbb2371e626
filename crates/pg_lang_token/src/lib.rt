//! Tokens of the description language, and the bytes of its words.
//!
//! A description of an instruction set is text in a small language, and this crate has what its
//! lexer makes of that text and what its printer makes text of. A token is a word, a number, a
//! pattern or a sign. A pattern token holds the pattern's letters alone, without the quotes around
//! it and the underscores that group it, and a number token holds the value alone, so tokens carry
//! what a description says and not how it is laid out.
//!
//! - `tok`: the tokens and the signs.
//! - `words`: which bytes make a word, a reserved word, a name and a pattern. The tree of a
//!   description keeps these as facts of its names and patterns, which is why the definitions stand
//!   below both the lexer and the tree.
#![tactic(auto)]

mod tok;
mod words;

pub use tok::{Sign, Tok};
pub use words::{
    NAME_BYTES, is_letter, is_name, is_pattern, is_pattern_byte, is_reserved, is_word, is_word_byte,
};
