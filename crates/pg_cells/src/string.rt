//! Strings that are chosen between, bit by bit.
//!
//! `pg_vec` says what is made of them. A word that is chosen is a slice here, so that no string is copied to be read, and how
//! many nodes that adds is said for its own width.

ghost use Rattle.std.specs.Prelude.{◌≡◌, ◌*◌, ◌<◌, length, IfOk};
ghost use Rattle.pg_vec.specs.There.{AreThere};
ghost use Rattle.pg_vec.specs.AddsNodes.{AddsNodes};
ghost use Rattle.pg_vec.specs.Strings.{mux_made};

use pg_circuit::{Circuit, Gate};
use pg_vec::gate::choose;
use std::alloc::{AllocError, Global};

/// `x` where the choice is true, else `y`: two strings of the same width.
pub fn choose_string(
    alloc: Global,
    circuit: &mut Circuit,
    choice: Gate,
    x: &[Gate],
    y: &[Gate],
) -> Result<Vec<Gate>, AllocError>
    requires choice { choice.number < length circuit.old.nodes }
    requires left { AreThere (length circuit.old.nodes) x.now }
    requires right { AreThere (length circuit.old.nodes) y.now }
    requires same_width { length x.now ≡ length y.now }
    ensures made { IfOk result (λ bits. (bits.items, circuit.new.nodes) ≡ mux_made circuit.old.nodes choice x.now y.now) }
    ensures there { IfOk result (λ bits. AreThere (length circuit.new.nodes) bits.items) }
    ensures width { IfOk result (λ bits. length bits.items ≡ length x.now) }
    ensures kept { AddsNodes circuit.old.nodes circuit.new.nodes (length x.now * 3) }
{
    let mut bits = Vec::with_capacity(alloc, x.len())?;
    for (i, left) in x.iter().enumerate() {
        let bit = choose(circuit, choice, *left, y[i])?;
        bits.push(bit)?;
    }
    Ok(bits)
}
