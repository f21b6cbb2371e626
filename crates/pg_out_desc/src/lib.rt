//! From a refusal of a description and its bytes to what its author reads: what is wrong in words, and where.
//!
//! The refusals are those of `pg_report`. One with a place is told there; one that names an instruction, a name or a number is found
//! anew in the tokens. Nothing is refused here, and no byte is believed: whatever the refusal and the bytes are, there is an answer,
//! or out of memory. That the place is the one that the refusal means is tested. `pg_out_faults` lays the answer out, and tells of
//! files of other kinds, for which it asks here what their description says.
//!
//! - `description`: what is wrong with a description. `signs`: with a byte that no token begins with.
//! - `grammar`: with its tokens; `near` has those around the wrong one, `writing` what to write in their place.
//! - `limits`: with its numbers. `patterns`: with its patterns. `widths`: with its widths; `misfits` finds the statements.
#![tactic(auto)]

mod description;
mod grammar;
mod limits;
mod misfits;
mod near;
mod patterns;
mod signs;
mod widths;
mod writing;

pub use description::{cut, told_of_description};
pub use limits::{Given, Head, head_of};
pub use patterns::{field_width, next_field, pattern_named, push_fields};
