//! Which descriptions are valid, and what a valid one is sure of.
//!
//! `specs/Valid.antt` says which: seven classes, each a condition on the description alone, and the fault of the first
//! class that has one. `test_all` (`check_desc`) tests a description; of one that is not valid it tells that fault, a
//! `TypeFault` (`fault`). A valid one is made into a `Machine` above, in `pg_mach_ready`.
//!
//! The seven classes are tested in `classes`, in their order: the head there; how much is held in `limits`; names given
//! twice in `twice` and, for instructions, with a `table` that a machine keeps; patterns of the wrong form in
//! `well_formed`; patterns that match one word both in `overlaps`; names that mean nothing in `scopes`; and widths in
//! `widths`. Their functions are the definitions one for one. `names` and `let_widths` are the lists that the walks over
//! bodies carry.
//!
//! What a valid description is sure of: `states` says that its machine never leaves its states, over the soundness of
//! widths (`specs/Typed.antt`, and the files of `proofs/` whose names end in `Sound`); and `laws` that at most one pattern
//! matches a word, and that a field lies within it.
#![tactic(auto)]

mod check_desc;
mod classes;
mod fault;
pub mod laws;
mod let_widths;
mod limits;
mod names;
mod overlaps;
mod scopes;
pub mod states;
mod table;
mod twice;
mod well_formed;
mod widths;

pub use check_desc::test_all;
pub use fault::{Limit, TypeFault, WidthClash};
pub use let_widths::LetWidths;
pub use limits::{MOST_ACCESSES, MOST_EXPRESSIONS, MOST_INSTRUCTIONS, MOST_LETS, MOST_STATEMENTS};
pub use table::NameTable;
pub use widths::{Judged, width_of};
