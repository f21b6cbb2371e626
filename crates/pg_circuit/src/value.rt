//! The value of one node.

ghost use Rattle.std.specs.Prelude.{◌≡◌, ◌<◌, length};
ghost use Rattle.pg_circuit.specs.Values.{gate_value, node_value, IsKnown};

use crate::node::{Gate, Node};

/// The value of a gate, from those of the nodes.
fn gate_value(values: &[bool], gate: Gate) -> bool
    requires { gate.number < length values.now }
    ensures { result ≡ gate_value values.now gate }
{
    values[gate.number as usize] ^ gate.negated
}

/// The value of a node, from those of the inputs and of the nodes before it.
pub fn node_value(inputs: &[bool], before: &[bool], node: Node) -> bool
    requires { IsKnown (length inputs.now) (length before.now) node }
    ensures { result ≡ node_value inputs.now before.now node }
{
    match node {
        Node::Constant => false,
        Node::Input(number) => inputs[number as usize],
        Node::And(x, y) => {
            let left = gate_value(before, x);
            let right = gate_value(before, y);
            left & right
        }
        Node::Xor(x, y) => gate_value(before, x) ^ gate_value(before, y),
    }
}
