//! Where in a text something stands, and how its line is shown.
//!
//! `pg_out_desc` and `pg_out_faults` stand on it: there a refusal becomes a sentence and a place; here a place becomes a line and a
//! column, and what a refusal of a description names is found in its tokens. Lines and columns are proved to be those of the
//! definitions (`specs/Places.antt`); what is found in tokens is tested.
//!
//! - `chars`: characters of a text. `places`: lines and columns.
//! - `shown`: a line, and the caret below it. `text`: a text that is put together. `sentence`: one that says what is wrong. `found`: it,
//!   and where.
//! - `tokens`: the tokens of a description, instruction by instruction. `names`: where names stand.
//! - `parts`: where the expressions of a statement stand. `near`: names that are near to another.
#![tactic(auto)]

mod chars;
mod found;
mod names;
mod near;
mod parts;
mod places;
mod sentence;
mod shown;
mod text;
mod tokens;

pub use found::{At, Found, Told, alone, at_place, plain};
pub use names::{Twice, Unknown, find_twice, find_unknown};
pub use near::is_near;
pub use parts::{expression, operation, operator};
pub use places::{Spot, bytes_from, place_of_line, spot_at};
pub use sentence::Sentence;
pub use shown::{Shown, show};
pub use text::Text;
pub use tokens::{
    Placed, count_statements, count_word, first_place, instruction, is_sign, is_word, nth_word,
    number_of, pattern_of, statement, word_of,
};
