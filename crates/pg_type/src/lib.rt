//! The kinds of instructions, and the machines that a monitor may run.
//!
//! What is asked of an instruction, as the 1974 paper does (section 3): whether it is privileged, and whether it is
//! sensitive, to the mode, to the place of its window, or to the bound. `specs/Kinds.antt` says which two states show a
//! kind (`Kind`, in `kind`), `Accepting` what it is for a description to be accepted, `PaperWords` the same in the paper's own
//! words. They compute: `rows` has runs and pairs of states that were worked out by hand, over the machines of
//! `Examples`.
//!
//! An `Accepted` (`accepted`) is a machine whose instructions are as the monitor of Theorem 1 needs them, a `HybridAccepted` as that
//! of Theorem 3. `alike` says what a monitor gains by it: what is done in user mode is done alike wherever the window and
//! P are the same. `laws` has what else follows from the definitions alone.
//!
//! Whether an instruction has a kind is asked about two states of one window. What it does there depends on the window, on the
//! two program status words and on the word at P alone, so a question about it need not speak of storages: it has a pair of
//! states as a window, two program status words and two sizes (`specs/Pair.antt`). `pair_laws` says that nothing is lost by
//! that: two states show a kind exactly where they are those of a pair that shows it. `placing` goes back from a pair to its
//! states: it makes the state of a window of which few words are named, with zeros in all other cells, and `pair_laws` says
//! that two such states are those of their pair.
//!
//! What instructions mean stands in `pg_lang_meaning`, which descriptions are valid in `pg_lang_valid`, and a valid one made ready is a
//! `Machine` of `pg_mach_ready`. Their public names and definitions are passed on from here.
#![tactic(auto)]

mod accepted;
pub mod alike;
mod kind;
pub mod laws;
pub mod pair_laws;
mod placing;
pub mod rows;

pub use accepted::{Accepted, HybridAccepted};
pub use kind::Kind;
pub use pg_lang_meaning::{Decoder, Field, field_of, matches};
pub use pg_lang_valid::{Limit, TypeFault};
pub use pg_mach_ready::{Machine, check};
pub use placing::placed;
