//! The nodes of a circuit, found by look-up.
//!
//! This is the unique table of structural hashing: nodes in the order in which they were added, and beside them a hash
//! index from a node to its place. So a node is there once, the place of a node that is there is found in constant time,
//! and a node's place never changes. Whether two nodes are equal is read off them as they stand, operands in their order:
//! `x and y` and `y and x` are two.
//!
//! Only `Circuit` calls it: `place` for an and or an exclusive or, which may be there, and `add` for the constant and for
//! inputs, which are not. It knows nothing of values, nor of which nodes may follow which.

ghost use Rattle.std.specs.Prelude.{◌≡◌, ◌+◌, ◌<◌, ◌^◌, ◌++◌, ◌∷◌, [], true, false, length, IsOk, IfOk, OnErr};
ghost use Rattle.pg_circuit.specs.Nodes.{has_node};
ghost use Rattle.pg_circuit.specs.Made.{gate_at, node_made};

use crate::node::{Gate, Node};
use indexmap::IndexSet;
use std::alloc::{AllocError, Global};
use std::marker::Model;

/// A circuit has at most so many nodes.
const MOST_NODES: usize = 0x7fff_ffff;

/// Nodes in order, each once.
#[derive(Drop)]
pub struct NodeTable {
    nodes: IndexSet<Node>,
}

impl Model for NodeTable {
    ghost use Rattle.std.specs.Prelude.{List};
    ghost use Rattle.pg_circuit.specs.declared.node.Node.{Node};

    ghost Value = { List Node };

    ghost view = { λ s. s.nodes.keys };
}

impl NodeTable {
    /// No nodes.
    pub fn new(alloc: Global) -> NodeTable
        ensures { result ≡ [] }
    {
        NodeTable {
            nodes: IndexSet::new(alloc),
        }
    }

    /// How many nodes there are.
    pub fn len(&self) -> usize
        ensures { result ≡ length self.now }
    {
        self.nodes.len()
    }

    /// The nodes.
    pub fn as_slice(&self) -> &[Node]
        ensures { result.now ≡ self.now }
    {
        self.nodes.as_slice()
    }

    /// The gate of a node, which is added at the end if it is not there. The error is out of memory, and the nodes stay.
    pub fn place(&mut self, node: Node) -> Result<Gate, AllocError>
        requires { length self.old < 2 ^ 31 }
        ensures made { IfOk result (λ gate. (gate, self.new) ≡ node_made self.old node) }
        ensures bound { length self.new < 2 ^ 31 }
        ensures found { has_node self.old node ≡ true → IsOk result }
        ensures err { OnErr result (self.new ≡ self.old) }
    {
        match self.nodes.get_index_of(&node) {
            Some(place) => Ok(Gate {
                number: place as u32,
                negated: false,
            }),
            None => self.add(node),
        }
    }

    /// Adds a node at the end, which is not there yet. The error is out of memory, and the nodes stay.
    pub fn add(&mut self, node: Node) -> Result<Gate, AllocError>
        requires bound { length self.old < 2 ^ 31 }
        requires absent { has_node self.old node ≡ false }
        ensures gate { IfOk result (λ gate. gate ≡ gate_at (length self.old)) }
        ensures nodes { IfOk result (λ gate. self.new ≡ self.old ++ node ∷ []) }
        ensures bound { length self.new < 2 ^ 31 }
        ensures err { OnErr result (self.new ≡ self.old) }
    {
        let number = self.nodes.len();
        if number == MOST_NODES {
            return Err(AllocError);
        }
        match self.nodes.insert_full(node) {
            Err(_) => Err(AllocError),
            Ok(_) => Ok(Gate {
                number: number as u32,
                negated: false,
            }),
        }
    }
}
