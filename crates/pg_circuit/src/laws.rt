//! What follows from the definitions alone, for those who read them: none of it does anything when it runs.

ghost use Rattle.std.specs.Prelude.{◌≡◌, ◌+◌, ◌<◌, ◌&&◌, not, Bool, false, List, length, take, slice_index_or};
ghost use Rattle.pg_circuit.specs.Nodes.{input_count, IsCircuit};
ghost use Rattle.pg_circuit.specs.Values.{differ, gate_value, values_of};
ghost use Rattle.pg_circuit.specs.Made.{constant_gate, not_gate, and_made, xor_made, input_made};
ghost use Rattle.pg_circuit.specs.Grown.{GrowsTo, IsMade, made_value};

use crate::{Gate, Node};

/// Where nodes stay in front, they keep their values.
pub fn values_stay(old: &[Node], new: &[Node], inputs: &[bool])
    requires { GrowsTo old.now new.now }
    ensures { take (length old.now) (values_of inputs.now new.now) ≡ values_of inputs.now old.now }
{}

/// And so does each gate on them.
pub fn gate_stays(old: &[Node], new: &[Node], inputs: &[bool], x: Gate)
    requires front { GrowsTo old.now new.now }
    requires there { x.number < length old.now }
    ensures { gate_value (values_of inputs.now new.now) x ≡ gate_value (values_of inputs.now old.now) x }
{}

/// The constant has the value that it is asked for.
pub fn constant_has_its_value(nodes: &[Node], inputs: &[bool], value: bool)
    requires { IsCircuit nodes.now }
    ensures { gate_value (values_of inputs.now nodes.now) (constant_gate value) ≡ value }
{}

/// A negation has the other value.
pub fn not_has_the_other_value(values: &[bool], x: Gate)
    ensures { gate_value values.now (not_gate x) ≡ not (gate_value values.now x) }
{}

/// An input is there, its value is that of the input, and it is one more.
pub fn input_is_made(nodes: &[Node])
    requires { IsCircuit nodes.now }
    ensures made { IsMade nodes.now (input_made nodes.now) }
    ensures inputs { input_count (input_made nodes.now).1 ≡ input_count nodes.now + 1 }
    ensures value { (inputs : List Bool) → made_value inputs (input_made nodes.now) ≡ slice_index_or inputs (input_count nodes.now) false }
{}

/// The and of two gates is there, and its value is the and of theirs.
pub fn and_is_made(nodes: &[Node], x: Gate, y: Gate)
    requires circuit { IsCircuit nodes.now }
    requires left { x.number < length nodes.now }
    requires right { y.number < length nodes.now }
    ensures made { IsMade nodes.now (and_made nodes.now x y) }
    ensures inputs { input_count (and_made nodes.now x y).1 ≡ input_count nodes.now }
    ensures value { (inputs : List Bool) → made_value inputs (and_made nodes.now x y) ≡ gate_value (values_of inputs nodes.now) x && gate_value (values_of inputs nodes.now) y }
{}

/// The exclusive or of two gates is there, and it is true where exactly one of them is.
pub fn xor_is_made(nodes: &[Node], x: Gate, y: Gate)
    requires circuit { IsCircuit nodes.now }
    requires left { x.number < length nodes.now }
    requires right { y.number < length nodes.now }
    ensures made { IsMade nodes.now (xor_made nodes.now x y) }
    ensures inputs { input_count (xor_made nodes.now x y).1 ≡ input_count nodes.now }
    ensures value { (inputs : List Bool) → made_value inputs (xor_made nodes.now x y) ≡ differ (gate_value (values_of inputs nodes.now) x) (gate_value (values_of inputs nodes.now) y) }
{}
