//! The assembler and the disassembler, for any description.
//!
//! `assemble` reads the text of a source into an image, `listing` writes the text of an image, and `disassemble` writes an image as
//! a source that gives it. Below them `word_of` makes the word of an instruction and of values for its fields, and `decode` finds
//! both of a word. The definitions stand in `specs/`: `Words` says which word is meant, `Said` what a line says, `Sources` which
//! image or fault is due, `Placed` the same by the places of lines, and `Texts` what is written.
//!
//! # What the bytes of a source mean
//!
//! - There are at most `SOURCE_BYTES` bytes, 1,048,576. `#` begins a comment, up to, and without, the next LF; it may hold any
//!   byte. Outside comments only letters, digits, `_`, `=`, `:`, `@`, space, tab, CR and LF may stand.
//! - The text is cut into lines at LF, numbered from 1. Space, tab and CR separate the parts of a line. A line without parts says
//!   nothing. `@N`, from 1 to `PLACE_DIGITS` (7) decimal digits, is the place of the next word; the first place is `FIRST_PLACE`
//!   (2). `NAME:` is a label for the place that is reached. `word H` is a word, of exactly as many hexadecimal digits as the
//!   machine's words have. `INSTR f=V ..` is an instruction with a value for each of its fields, from the highest: decimal digits
//!   of a number below 2^64, or a label. Names are words of the description language that are not reserved.
//! - Each word, and each instruction, moves the place on by one. The words stay within the size, and no cell is given twice. Cells
//!   that no line gives are zero. A label that is given twice means its first place.
//!
//! What is not so is a fault, and the first one is the answer: `Long`; then `Token` with the place of the byte; then `Grammar`
//! with the number of the line; then, by lines, in the order of `AsmFault`.
//!
//! # Modules
//!
//! - `fields`, `words`: the fields of a pattern, and words of instructions.
//! - `line`: what one line says.
//! - `mark`, `labels`: labels, found by look-up.
//! - `scan`, `gather`, `place`: the three readings of a source, with `encode` for the word of an instruction.
//! - `assembler`, `image_text`, `disassembler`: the whole. `fault`: what is wrong with a source.
//! - `laws`: what follows from the definitions alone.
#![tactic(auto)]

mod assembler;
mod disassembler;
mod encode;
mod fault;
mod fields;
mod gather;
mod image_text;
mod labels;
pub mod laws;
mod line;
mod mark;
mod place;
mod scan;
mod words;

pub use assembler::{SOURCE_BYTES, assemble};
pub use disassembler::disassemble;
pub use fault::AsmFault;
pub use fields::{FieldList, LetterField, fields_of};
pub use gather::FIRST_PLACE;
pub use image_text::listing;
pub use line::PLACE_DIGITS;
pub use words::{ValueList, decode, word_of};
