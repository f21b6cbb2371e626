//! Strings of gates.

ghost use Rattle.std.specs.Prelude.{IsTrue, length};
ghost use Rattle.pg_vec.specs.There.{AreThere};

use pg_circuit::Circuit;
use pg_vec::Bits;
use std::alloc::{AllocError, Global};

/// A string of so many new inputs, 1 to 64.
pub fn inputs(alloc: Global, circuit: &mut Circuit, count: u32) -> Result<Bits, AllocError> {
    let mut gates = Vec::new(alloc);
    for _ in 0..count {
        gates.push(circuit.input()?)?;
    }
    if gates.is_empty() || gates.len() > 64 {
        return Err(AllocError);
    }
    Ok(Bits::from_vec(gates))
}

/// Whether the gates of a string are in the circuit.
pub fn is_there(circuit: &Circuit, bits: &Bits) -> bool
    ensures { IsTrue result → AreThere (length circuit.now.nodes) bits.now }
{
    let size = circuit.len();
    bits.as_slice()
        .iter()
        .all(|gate| (gate.number as usize) < size)
}
