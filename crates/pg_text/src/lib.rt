//! Text to tokens, digits to numbers, and back.
//!
//! `tokens` cuts the bytes of a description into its tokens, each with its place. `dec_number` and
//! `hex_word_of` read digits, `dec` and `hex_word` write them. This crate knows nothing of what the
//! tokens say.
//!
//! # What the bytes of a text make
//!
//! The bytes space, tab, CR and LF separate tokens. `#` begins a comment, which reaches up to, and
//! does not take, the next LF, or to the end, and may hold any byte. Tokens are read from the left,
//! the longest first.
//!
//! | Token | The bytes that make it | What it carries |
//! |---|---|---|
//! | word | a letter, then every letter, digit and `_` that follows, at most `NAME_BYTES` bytes in all | its bytes |
//! | number | a digit, then every letter, digit and `_` that follows, where these are as below | its value, below 2^64 |
//! | pattern | `"`, then bytes `0`, `1`, `.`, `_` and `a` to `z`, if any, then `"` | these bytes without `_` |
//! | sign | one of `{ } ( ) [ ] ; , : = == ~ + - * & \| ^ < << >>` | which sign |
//!
//! The bytes of a number are decimal digits, or `0x` and 1 to 16 hexadecimal digits of either case. Leading
//! zeros are fine.
//!
//! What is none of these is a fault. Its place is a byte's, counted from 0, and the first fault from
//! the left is the answer. `BadWord` is a longer word, at its first byte; `BadNumber` a number that
//! is not as above, as `12a`, `0X1`, `0x` or 2^64, at its first byte; `BadPattern` a pattern with
//! another byte in it, or with no closing quote, at its opening quote; `BadByte` any other byte
//! outside a comment, as a lone `>`, or the third of `>>>`.
//!
//! # Modules
//!
//! - `place`: places, and the faults of a text.
//! - `classes`: which bytes make what.
//! - `number`: numbers from digits.
//! - `piece`: what stands at the front of a text.
//! - `cutting`: the whole text.
//! - `print`: numbers as decimal digits.
//! - `word`: words as hexadecimal digits, both ways.
//! - `laws`: what follows from the definitions alone.
#![tactic(auto)]

mod classes;
mod cutting;
pub mod laws;
mod number;
mod piece;
mod place;
mod print;
mod word;

pub use classes::len_before;
pub use cutting::{TokList, tokens};
pub use number::{are_digits, are_hex_digits, dec_number};
pub use place::{Span, TextFault};
pub use print::dec;
pub use word::{hex_word, hex_word_of};
