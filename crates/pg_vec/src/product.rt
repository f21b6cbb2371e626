//! Products, as sums of rows.
//!
//! Row k is the first string moved up by k places, where bit k of the second is true, else zeros; the rows are added one
//! after another. The string is moved first and taken bit by bit then, so that the bits that are moved past the top cost
//! nothing. At 64 bits that is at most 64 rows of 64 ands and 64 adders of at most 320 nodes.

ghost use Rattle.std.specs.Prelude.{◌≡◌, ◌*◌, ◌<◌, length, IfOk};
ghost use Rattle.pg_vec.specs.There.{AreThere};
ghost use Rattle.pg_vec.specs.AddsNodes.{AddsNodes};
ghost use Rattle.pg_vec.specs.Strings.{row_made, mul_made};

use crate::gate::and;
use crate::shift::moved_up;
use crate::sum::sum;
use pg_circuit::{Circuit, Gate};
use std::alloc::{AllocError, Global};

/// A gate and each bit.
fn row(alloc: Global, circuit: &mut Circuit, y: Gate, x: &[Gate]) -> Result<Vec<Gate>, AllocError>
    requires left { y.number < length circuit.old.nodes }
    requires right { AreThere (length circuit.old.nodes) x.now }
    ensures made { IfOk result (λ bits. (bits.items, circuit.new.nodes) ≡ row_made circuit.old.nodes y x.now) }
    ensures there { IfOk result (λ bits. AreThere (length circuit.new.nodes) bits.items) }
    ensures width { IfOk result (λ bits. length bits.items ≡ length x.now) }
    ensures kept { AddsNodes circuit.old.nodes circuit.new.nodes (length x.now) }
{
    let mut bits = Vec::with_capacity(alloc, x.len())?;
    for bit in x {
        let both = and(circuit, y, *bit)?;
        bits.push(both)?;
    }
    Ok(bits)
}

/// The product of two strings, as wide as the first.
pub fn product(
    alloc: Global,
    circuit: &mut Circuit,
    x: &[Gate],
    y: &[Gate],
) -> Result<Vec<Gate>, AllocError>
    requires left { AreThere (length circuit.old.nodes) x.now }
    requires right { AreThere (length circuit.old.nodes) y.now }
    ensures made { IfOk result (λ bits. (bits.items, circuit.new.nodes) ≡ mul_made circuit.old.nodes x.now y.now) }
    ensures there { IfOk result (λ bits. AreThere (length circuit.new.nodes) bits.items) }
    ensures width { IfOk result (λ bits. length bits.items ≡ length x.now) }
    ensures kept { AddsNodes circuit.old.nodes circuit.new.nodes (length y.now * (length x.now * 6)) }
{
    let zero = circuit.constant(false);
    let mut total = vec![in alloc; zero; x.len()]?;
    let mut moved = Vec::from_slice(alloc, x)?;
    for bit in y {
        let addend = row(alloc, circuit, *bit, moved.as_slice())?;
        total = sum(alloc, circuit, zero, total.as_slice(), addend.as_slice())?;
        moved = moved_up(alloc, moved.as_slice(), 1)?;
    }
    Ok(total)
}
