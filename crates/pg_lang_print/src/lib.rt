//! Descriptions as text.
//!
//! `print` writes a description in one layout, and what it writes reads as that description again:
//! the tokens of the text are those of the tree.
//!
//! # The layout
//!
//! Words and signs are themselves, numbers are decimal without leading zeros, and a pattern stands
//! in quotes. A line ends, by LF, behind `;`, `{` and `}`, and two tokens of one line have one space
//! between them. A line begins with two spaces for each brace that is open there, one brace fewer
//! where its first token is `}`. So `} else {` is two lines.
//!
//! - `tokens`: the tokens of a tree, in order.
//! - `lines`: tokens as text.
//! - `text`: a description as text.
//! - `laws`: what is printed reads as the tree.
#![tactic(auto)]

pub mod laws;
mod lines;
mod text;
mod tokens;

pub use text::print;
pub use tokens::desc_tokens;
