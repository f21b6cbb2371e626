//! Operations on two strings, bit by bit.
//!
//! One loop serves the and, the or, the exclusive or and the choice of one of two strings: they differ in the gate that is
//! made of two bits, which a `Pairing` says.

ghost use Rattle.std.specs.Prelude.{◌≡◌, ◌*◌, ◌<◌, length, IfOk};
ghost use Rattle.pg_vec.specs.There.{AreThere};
ghost use Rattle.pg_vec.specs.AddsNodes.{AddsNodes};
ghost use Rattle.pg_vec.specs.Pairing.{pair_made, IsReady};
ghost use Rattle.pg_vec.specs.Strings.{each_made};

use crate::gate::{and, choose, or, xor};
use pg_circuit::{Circuit, Gate};
use std::alloc::{AllocError, Global};

/// What is made of two bits.
#[derive(Clone, Copy, Debug, PartialEq, Eq)]
pub enum Pairing {
    /// Both.
    And,
    /// One or the other, or both.
    Or,
    /// Exactly one.
    Xor,
    /// The first where this gate is true, else the second.
    Choose(Gate),
}

/// The gate of two bits.
fn pair(circuit: &mut Circuit, make: Pairing, x: Gate, y: Gate) -> Result<Gate, AllocError>
    requires ready { IsReady (length circuit.old.nodes) make }
    requires left { x.number < length circuit.old.nodes }
    requires right { y.number < length circuit.old.nodes }
    ensures made { IfOk result (λ gate. (gate, circuit.new.nodes) ≡ pair_made make circuit.old.nodes x y) }
    ensures there { IfOk result (λ gate. gate.number < length circuit.new.nodes) }
    ensures kept { AddsNodes circuit.old.nodes circuit.new.nodes 3 }
{
    match make {
        Pairing::And => and(circuit, x, y),
        Pairing::Or => or(circuit, x, y),
        Pairing::Xor => xor(circuit, x, y),
        Pairing::Choose(choice) => choose(circuit, choice, x, y),
    }
}

/// The gates of two strings of the same width, bit by bit.
pub fn pairwise(
    alloc: Global,
    circuit: &mut Circuit,
    make: Pairing,
    x: &[Gate],
    y: &[Gate],
) -> Result<Vec<Gate>, AllocError>
    requires ready { IsReady (length circuit.old.nodes) make }
    requires left { AreThere (length circuit.old.nodes) x.now }
    requires right { AreThere (length circuit.old.nodes) y.now }
    requires same_width { length x.now ≡ length y.now }
    ensures made { IfOk result (λ bits. (bits.items, circuit.new.nodes) ≡ each_made (pair_made make) circuit.old.nodes x.now y.now) }
    ensures there { IfOk result (λ bits. AreThere (length circuit.new.nodes) bits.items) }
    ensures width { IfOk result (λ bits. length bits.items ≡ length x.now) }
    ensures kept { AddsNodes circuit.old.nodes circuit.new.nodes (length x.now * 3) }
{
    let mut bits = Vec::with_capacity(alloc, x.len())?;
    for (i, left) in x.iter().enumerate() {
        let bit = pair(circuit, make, *left, y[i])?;
        bits.push(bit)?;
    }
    Ok(bits)
}
