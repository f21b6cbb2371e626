//! Circuits of inputs, ands and exclusive ors, in which equal gates are one.
//!
//! A circuit is a list of nodes, each over those before it. A gate is a handle on a node, or on its negation. Where the
//! value of a new gate is a constant or the value of one that is there, no node is added, and a node that is there is not
//! added again: `specs/Made.antt` says exactly what each call makes. `specs/Values.antt` says what the nodes are worth where
//! the inputs have values, and `laws` that a call keeps the gates that there are, and makes the gate that its name says.
//!
//! # Modules
//!
//! - `circuit`: circuits, which grow gate by gate. `node`: their nodes, and the handles on them.
//! - `simplify`: gates that need no node. `table`: nodes, found by look-up. `value`: the value of one node.
//! - `laws`: what follows from the definitions alone. `rows`: worked gates.
#![tactic(auto)]

mod circuit;
pub mod laws;
mod node;
pub mod rows;
mod simplify;
mod table;
mod value;

pub use circuit::Circuit;
pub use node::{Gate, Node};
