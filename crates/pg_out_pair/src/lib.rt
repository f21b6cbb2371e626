//! Two states that show a kind of an instruction, told in full: what one step makes of each, and where the two end differently; and
//! two such states laid out for a reader.
//!
//! `explain` takes two states and tells of each the word at P, how the step from it ends, and the state that follows, by the
//! definition of *Step*; and of both each address of the window at which they hold different words behind the step. What
//! shows nothing is not told. The states are tried by `pg_replay`, and nothing is believed of them.
//!
//! The windows that are compared are those that were open before the step, in the storages behind it: what is observed of an
//! instruction that is done. What is done grows with the cells that are not zero, and never with the size of a storage.
//!
//! The pairs that are saved are as small as they go (`pg_classify`): an instruction may be its own operand there, and the cell that it
//! changes the one that it stands in. `readable` looks for two others, of few cells, in which the word of the instruction, each
//! operand, and the cells 0 and 1 of the storage, where a trap stores and loads status words, are different cells. They are tried
//! too, so nothing rests on how they are found. What is found is the best of some thousand tries, and made plain: with bits cleared
//! where they are not wanted.
//!
//! - `told`: the call that tells. `differences`: where two windows hold different words. `seen`: a storage through a window.
//! - `search`: which plans of two states are tried. `trying`: a plan, tried. `touched`: which cells a step touches. `frame`: the
//!   numbers of two states. `words`: the words of a window, and the word of a pattern. `dice`: numbers that look random.
#![tactic(auto)]

mod dice;
mod differences;
mod frame;
mod search;
mod seen;
mod told;
mod touched;
mod trying;
mod words;

pub use differences::Difference;
pub use search::readable;
pub use told::{Explained, Told, explain, words_part};
pub use trying::ReadablePair;
