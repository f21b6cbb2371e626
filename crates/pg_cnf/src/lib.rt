//! Clauses that say that a gate of a circuit is true.
//!
//! A clause is a list of literals, which are integers: n stands for variable n, and -n for its negation. `encode` gives
//! each node of a circuit a variable, and to the ands and exclusive ors the clauses that tie it to those of the operands:
//! `specs/Encoded.antt` says which. An assignment makes them all true exactly where it is what the nodes are worth on some
//! values of the inputs, and the root is true: that is the law of `laws`.
//!
//! # Modules
//!
//! - `clause`: clauses, and formulas of them. `encoding`: the clauses of a circuit.
//! - `laws`: what these clauses say. `rows`: those of worked circuits.
#![tactic(auto)]

mod clause;
mod encoding;
pub mod laws;
pub mod rows;

pub use clause::{Clause, Cnf};
pub use encoding::encode;
