//! Sums by ripple carry.
//!
//! From bit 0 on each bit of the sum is the exclusive or of the two bits and the carry into them, and the carry into the
//! next is made of the same three. The last carry is not built, since no bit takes it. A difference is a sum too, with
//! the second string flipped and a carry into bit 0.

ghost use Rattle.std.specs.Prelude.{◌≡◌, ◌*◌, ◌<◌, length, IfOk};
ghost use Rattle.pg_vec.specs.There.{AreThere};
ghost use Rattle.pg_vec.specs.AddsNodes.{AddsNodes};
ghost use Rattle.pg_vec.specs.Strings.{flipped, sum_made};

use crate::gate::{carry_into, xor};
use pg_circuit::{Circuit, Gate};
use std::alloc::{AllocError, Global};

/// The sum of two strings of the same width and a carry into bit 0.
pub fn sum(
    alloc: Global,
    circuit: &mut Circuit,
    carry_in: Gate,
    x: &[Gate],
    y: &[Gate],
) -> Result<Vec<Gate>, AllocError>
    requires carry { carry_in.number < length circuit.old.nodes }
    requires left { AreThere (length circuit.old.nodes) x.now }
    requires right { AreThere (length circuit.old.nodes) y.now }
    requires same_width { length x.now ≡ length y.now }
    ensures made { IfOk result (λ bits. (bits.items, circuit.new.nodes) ≡ sum_made circuit.old.nodes carry_in x.now y.now) }
    ensures there { IfOk result (λ bits. AreThere (length circuit.new.nodes) bits.items) }
    ensures width { IfOk result (λ bits. length bits.items ≡ length x.now) }
    ensures kept { AddsNodes circuit.old.nodes circuit.new.nodes (length x.now * 5) }
{
    let mut bits = Vec::with_capacity(alloc, x.len())?;
    let mut carry = carry_in;
    for (i, left) in x.iter().enumerate() {
        let half = xor(circuit, *left, y[i])?;
        let bit = xor(circuit, half, carry)?;
        carry = carry_into(circuit, &x[i + 1..], *left, y[i], half, carry)?;
        bits.push(bit)?;
    }
    Ok(bits)
}

/// Each bit changed.
pub fn flip(alloc: Global, circuit: &Circuit, x: &[Gate]) -> Result<Vec<Gate>, AllocError>
    ensures { IfOk result (λ bits. bits.items ≡ flipped x.now) }
{
    let mut bits = Vec::with_capacity(alloc, x.len())?;
    for gate in x {
        bits.push(circuit.not(*gate))?;
    }
    Ok(bits)
}
