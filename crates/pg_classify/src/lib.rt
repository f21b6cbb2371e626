//! The classification of a machine: each question of each instruction, with evidence for what is found.
//!
//! A question is asked (`pg_ask`), and its clauses are solved (`pg_sat_search`). An assignment becomes the two states that it stands
//! for; a log that closes is trimmed; a log that spends the budget is kept as it is, and the question stays open. The
//! certificate that this makes is valid whatever the solver does: `verify` takes its text, where that is not too long.
//!
//! A solver's answer has noise in every number that is free: a storage of hundreds of cells, a window far from its beginning, words
//! of random bits. Whoever reads the states wants those that show the same by as little as can be. `small` tries one change
//! after another, and keeps a change where the two states that it makes show the kind (`pg_replay`, which is exact). So
//! nothing rests on what a change does.
//!
//! # Modules
//!
//! - `answers`: what is found of one question. `classifying`: all findings of a machine, in order. `watcher`: who is told of it.
//! - `shrinking`: two states made small: which changes are tried, in which order, and how often. `trying`: a change, tried.
//!   `pair`: two states, and changes of them. `extent`: their numbers, and how far each can be lowered. `words`: what becomes of
//!   the words of a window.
#![tactic(auto)]

mod answers;
mod classifying;
mod extent;
mod pair;
mod shrinking;
mod trying;
mod watcher;
mod words;

pub use classifying::{classify, classify_hybrid, classify_watched};
pub use pg_sat::{SearchWatcher, Silent};
pub use shrinking::small;
pub use watcher::Watcher;
