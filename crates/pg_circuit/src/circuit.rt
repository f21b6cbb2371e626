//! Circuits that grow gate by gate: a circuit is its nodes in order and how many of them are inputs.
//!
//! This is structural hashing: before a node is added it is looked up, and an equal one that is there is taken in its place.
//! What needs no node (`simplify`) is found before that, so that a constant or an operand stands for its gate. Nodes are
//! never taken away nor changed, and so a gate, which is a place among them, is a handle for ever: it keeps its value in
//! each circuit that this one grows into.
//!
//! `pg_vec` builds strings of gates by `and` and `xor`, and rests on `made` for which nodes there are then, and on `kept`
//! for those that were there, also where memory runs out. `pg_cnf` reads the nodes, and writes their clauses. `eval` is the
//! other reader: it says what all nodes are worth on values of the inputs.

ghost use Rattle.std.specs.Prelude.{◌≡◌, ◌<◌, ◌^◌, ◌∷◌, [], false, length, IsOk, IfOk, IfSome, OnErr, None};
ghost use Rattle.pg_circuit.specs.declared.node.Node.TheVariants.{Constant};
ghost use Rattle.pg_circuit.specs.Nodes.{input_count, is_input, IsNext, IsCircuit, IsCircuit-prop};
ghost use Rattle.pg_circuit.specs.Values.{values_of};
ghost use Rattle.pg_circuit.specs.Made.{constant_gate, not_gate, made, and_made, xor_made, input_made};
ghost use Rattle.pg_circuit.specs.Grown.{GrowsTo};

use crate::node::{Gate, Node};
use crate::simplify::{and_simplified, constant_gate, not_gate, xor_simplified};
use crate::table::NodeTable;
use crate::value::node_value;
use std::alloc::{AllocError, Global};

/// Gates over inputs. Each node is there once, and a gate is known by the place of its node. There are fewer than 2^31
/// nodes: one more is out of memory.
#[derive(Drop)]
pub struct Circuit {
    nodes: NodeTable,
    inputs: u32,
    pub ghost circuit: { IsCircuit nodes } by { IsCircuit-prop nodes },
    pub ghost counted: { inputs ≡ input_count nodes },
    pub ghost bound: { length nodes < 2 ^ 31 },
}

impl Circuit {
    /// A circuit of the constant alone.
    pub fn new(alloc: Global) -> Result<Circuit, AllocError>
        ensures { IfOk result (λ circuit. circuit.nodes ≡ Constant ∷ []) }
    {
        let mut nodes = NodeTable::new(alloc);
        nodes.add(Node::Constant)?;
        Ok(Circuit { nodes, inputs: 0 })
    }

    /// How many nodes there are, the constant among them.
    pub fn len(&self) -> usize
        ensures { result ≡ length self.now.nodes }
    {
        self.nodes.len()
    }

    /// How many inputs there are.
    pub fn inputs(&self) -> usize
        ensures { result ≡ input_count self.now.nodes }
    {
        self.inputs as usize
    }

    /// The nodes, in order.
    pub fn nodes(&self) -> &[Node]
        ensures nodes { result.now ≡ self.now.nodes }
        ensures circuit { IsCircuit result.now }
    {
        self.nodes.as_slice()
    }

    /// The constant, which is always there.
    pub fn constant(&self, value: bool) -> Gate
        ensures { result ≡ constant_gate value }
    {
        constant_gate(value)
    }

    /// The negation of a gate, which needs no node.
    pub fn not(&self, x: Gate) -> Gate
        ensures { result ≡ not_gate x }
    {
        not_gate(x)
    }

    /// One more input, whose number is that of the inputs before it. The error is out of memory, and the circuit stays.
    pub fn input(&mut self) -> Result<Gate, AllocError>
        ensures made { IfOk result (λ gate. (gate, self.new.nodes) ≡ input_made self.old.nodes) }
        ensures there { IfOk result (λ gate. gate.number < length self.new.nodes) }
        ensures kept { GrowsTo self.old.nodes self.new.nodes }
        ensures err { OnErr result (self.new ≡ self.old) }
    {
        let gate = self.nodes.add(Node::Input(self.inputs))?;
        self.inputs += 1;
        Ok(gate)
    }

    /// The and of two gates of the circuit. The error is out of memory for a node that was not there, and the circuit
    /// stays.
    pub fn and(&mut self, x: Gate, y: Gate) -> Result<Gate, AllocError>
        requires left { x.number < length self.old.nodes }
        requires right { y.number < length self.old.nodes }
        ensures made { IfOk result (λ gate. (gate, self.new.nodes) ≡ and_made self.old.nodes x y) }
        ensures there { IfOk result (λ gate. gate.number < length self.new.nodes) }
        ensures kept { GrowsTo self.old.nodes self.new.nodes }
        ensures found { (and_made self.old.nodes x y).1 ≡ self.old.nodes → IsOk result }
        ensures err { OnErr result (self.new ≡ self.old) }
    {
        self.gate_of(and_simplified(x, y), Node::And(x, y))
    }

    /// The exclusive or of two gates of the circuit. The error is out of memory for a node that was not there, and the
    /// circuit stays.
    pub fn xor(&mut self, x: Gate, y: Gate) -> Result<Gate, AllocError>
        requires left { x.number < length self.old.nodes }
        requires right { y.number < length self.old.nodes }
        ensures made { IfOk result (λ gate. (gate, self.new.nodes) ≡ xor_made self.old.nodes x y) }
        ensures there { IfOk result (λ gate. gate.number < length self.new.nodes) }
        ensures kept { GrowsTo self.old.nodes self.new.nodes }
        ensures found { (xor_made self.old.nodes x y).1 ≡ self.old.nodes → IsOk result }
        ensures err { OnErr result (self.new ≡ self.old) }
    {
        self.gate_of(xor_simplified(x, y), Node::Xor(x, y))
    }

    /// The gate of a node that may follow, or the gate of the circuit that stands for it where there is one. The error is
    /// out of memory for a node that was not there, and the circuit stays.
    fn gate_of(&mut self, simplified: Option<Gate>, node: Node) -> Result<Gate, AllocError>
        requires there { IfSome simplified (λ gate. gate.number < length self.old.nodes) }
        requires next { simplified ≡ None → IsNext self.old.nodes node }
        requires no_input { is_input node ≡ false }
        ensures made { IfOk result (λ gate. (gate, self.new.nodes) ≡ made self.old.nodes simplified node) }
        ensures there { IfOk result (λ gate. gate.number < length self.new.nodes) }
        ensures kept { GrowsTo self.old.nodes self.new.nodes }
        ensures found { (made self.old.nodes simplified node).1 ≡ self.old.nodes → IsOk result }
        ensures err { OnErr result (self.new ≡ self.old) }
    {
        match simplified {
            Some(gate) => Ok(gate),
            None => self.nodes.place(node),
        }
    }

    /// The value of each node, where the inputs have values: there is one value for each of the `inputs()`, in order, and
    /// `values` has `len()` places, of which place k gets the value of node k.
    pub fn eval(&self, inputs: &[bool], values: &mut [bool])
        requires inputs { length inputs.now ≡ input_count self.now.nodes }
        requires room { length values.old ≡ length self.now.nodes }
        ensures { values.new ≡ values_of inputs.now self.now.nodes }
    {
        for (k, node) in self.nodes.as_slice().iter().enumerate() {
            let value = node_value(inputs, &values[..k], *node);
            values[k] = value;
        }
    }
}
