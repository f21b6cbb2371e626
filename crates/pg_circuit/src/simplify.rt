//! Gates whose value is a constant or that of an operand, so that they need no node.

ghost use Rattle.std.specs.Prelude.{◌≡◌};
ghost use Rattle.pg_circuit.specs.Made.{constant_gate, not_gate, not_where, and_simplified, xor_simplified};

use crate::node::Gate;

/// The constant.
pub fn constant_gate(value: bool) -> Gate
    ensures { result ≡ constant_gate value }
{
    Gate {
        number: 0,
        negated: value,
    }
}

/// The negation of a gate.
pub fn not_gate(x: Gate) -> Gate
    ensures { result ≡ not_gate x }
{
    Gate {
        number: x.number,
        negated: !x.negated,
    }
}

/// The gate, or its negation.
fn not_where(negated: bool, x: Gate) -> Gate
    ensures { result ≡ not_where negated x }
{
    if negated { not_gate(x) } else { x }
}

/// The and of two gates, where it needs no node.
pub fn and_simplified(x: Gate, y: Gate) -> Option<Gate>
    ensures { result ≡ and_simplified x y }
{
    if x.number == 0 {
        Some(if x.negated { y } else { constant_gate(false) })
    } else if y.number == 0 {
        Some(if y.negated { x } else { constant_gate(false) })
    } else if x.number == y.number {
        Some(if x.negated == y.negated {
            x
        } else {
            constant_gate(false)
        })
    } else {
        None
    }
}

/// The exclusive or of two gates, where it needs no node.
pub fn xor_simplified(x: Gate, y: Gate) -> Option<Gate>
    ensures { result ≡ xor_simplified x y }
{
    if x.number == 0 {
        Some(not_where(x.negated, y))
    } else if y.number == 0 {
        Some(not_where(y.negated, x))
    } else if x.number == y.number {
        Some(constant_gate(x.negated != y.negated))
    } else {
        None
    }
}
