//! Inputs that stand for a word.

ghost use Rattle.std.specs.Prelude.{◌≡◌, length, IfOk};
ghost use Rattle.pg_cells.specs.Made.{inputs_made};
ghost use Rattle.pg_cells.specs.Means.{GrowsBy};

use pg_circuit::{Circuit, Gate};
use std::alloc::{AllocError, Global};

/// So many new inputs, one after another.
pub fn inputs(alloc: Global, circuit: &mut Circuit, count: u32) -> Result<Vec<Gate>, AllocError>
    ensures made { IfOk result (λ bits. (bits.items, circuit.new.nodes) ≡ inputs_made circuit.old.nodes count) }
    ensures kept { GrowsBy circuit.old.nodes circuit.new.nodes count count }
{
    let mut bits = Vec::with_capacity(alloc, count as usize)?;
    for _ in 0..count {
        let bit = circuit.input()?;
        bits.push(bit)?;
    }
    Ok(bits)
}
