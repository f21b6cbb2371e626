//! Images: the words that a storage begins with, read from text; and the lines of a state text.
//!
//! `read_image` reads the bytes of an image. `size_line`, `psw_line` and `cell_line` write the lines that show a state.
//! `split_line`, `content` and `split_part` cut a text into lines and parts, with comments, as an image is cut.
//!
//! # What the bytes of an image mean
//!
//! - There are at most `IMAGE_BYTES` bytes, 33,554,432. `#` begins a comment, up to, and without, the next LF; it may hold any byte.
//!   Outside comments only hexadecimal digits of either case, `:`, space, tab, CR and LF may stand.
//! - The text is cut into lines at LF, numbered from 1. Space, tab and CR separate the parts of a line. A line without parts
//!   says nothing. Any other is a row: an address, which is 1 to `ADDRESS_DIGITS` (7) decimal digits with a colon right behind them, and one
//!   word or more, each of exactly as many hexadecimal digits as the shape's words have.
//! - The words of a row go to cells one after another, from the address on. They stay within the size, and no cell is given
//!   twice. Cells that no row gives are zero.
//!
//! What is not so is a fault, and the first one is the answer: `Long`; then `Token` with the place of the byte; then
//! `Grammar` with the number of the line; then, by lines, `Address` where a word would pass the size, else `Overlap`.
//!
//! # Modules
//!
//! - `lines`: the lines of a state text.
//! - `cutting`: lines, and parts of lines.
//! - `row`: what one line says.
//! - `scan`: whether a text has the form of an image.
//! - `placing`: the words, put into cells.
//! - `laws`: what follows from the definitions alone. `rows`: worked images.
//! - `image`: the whole. `fault`: what is wrong with an image.
#![tactic(auto)]

mod cutting;
mod fault;
mod image;
pub mod laws;
mod lines;
mod placing;
mod row;
pub mod rows;
mod scan;

pub use cutting::{content, is_gap, split_line, split_part};
pub use fault::ImageFault;
pub use image::{IMAGE_BYTES, Image, read_image};
pub use lines::{LINE_BYTES, LINE_CELLS, Line, cell_line, psw_line, push, size_line};
pub use row::ADDRESS_DIGITS;
