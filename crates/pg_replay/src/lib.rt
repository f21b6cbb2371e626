//! States of which only the cells that are not zero are listed, tried: whether two of them show a kind of an instruction, and
//! what a step leaves of one.
//!
//! A solver's answer is not trusted: what it names are two states, and they are tried. `replay` says exactly whether they
//! show the kind, by the definition of *Shows*, and asks nothing of them: whether they are states of the machine, and the
//! instruction stands at P of each, is part of what is tested. The instruction is executed by the interpreter.
//!
//! States are lists of the cells that are not zero. What is done grows with these cells and with the stores of the
//! instruction, never with the size of a storage; `replay` takes no memory. `after` makes one step from a state, by the
//! definition of *Step*.
//!
//! - `kinds`: the call, kind by kind. `observe`: the instruction executed at a state, and what is observed of it.
//! - `state`: whether a state is one of the machine. `same`: whether two states, or their windows, are the same.
//! - `window`: the window of a state, as the interpreter reads it.
//! - `steps`: the call for a step. `stored`: a state with cells changed.
#![tactic(auto)]

mod kinds;
mod observe;
mod same;
mod state;
mod steps;
mod stored;
mod window;

pub use kinds::replay;
pub use steps::after;
