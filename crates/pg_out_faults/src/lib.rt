//! From a refusal and the bytes of the file that was refused to what its author sees: the file, line and column, what is wrong
//! in words, the line, and a caret below the place.
//!
//! The refusals are those of `pg_report`, whose lines stay what a program reads. Here is what a person reads, beside them.
//! Nothing is refused here, and no byte is believed: whatever the refusal and the bytes are, there is an answer, or out of
//! memory. That the place is the one that the refusal means is tested; lines and columns are proved where they are counted
//! (`pg_out_place`).
//!
//! What is wrong with a description is found in `pg_out_desc`; here is what is wrong with every other file, and how it is laid out.
//!
//! - `held`: the bytes that are held, and their lines.
//! - `image`: what is wrong with an image. `lines`: with a certificate or a saved guest. `sources`: with a source; `meant` with what it says of
//!   a machine, `labels` with its labels.
//! - `pointed`: the whole, and its text.
#![tactic(auto)]

mod held;
mod image;
mod labels;
mod lines;
mod meant;
mod pointed;
mod sources;

pub use held::Held;
pub use pointed::{Place, Point, Pointed, point_out, three_lines};
