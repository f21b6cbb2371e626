//! Gates that compare two strings.
//!
//! Each is one gate that goes from bit to bit: the carry of a sum of which no bit is built, or that all bits so far are the
//! same.

ghost use Rattle.std.specs.Prelude.{◌≡◌, ◌*◌, ◌<◌, true, length, IfOk};
ghost use Rattle.pg_circuit.specs.Made.{constant_gate};
ghost use Rattle.pg_vec.specs.There.{AreThere};
ghost use Rattle.pg_vec.specs.AddsNodes.{AddsNodes};
ghost use Rattle.pg_vec.specs.Strings.{carry_out_made, same_made};

use crate::gate::{and, carry_out, xor};
use pg_circuit::{Circuit, Gate};
use std::alloc::AllocError;

/// The carry out of the sum of two strings of the same width and a carry into bit 0.
pub fn last_carry(
    circuit: &mut Circuit,
    carry_in: Gate,
    x: &[Gate],
    y: &[Gate],
) -> Result<Gate, AllocError>
    requires carry { carry_in.number < length circuit.old.nodes }
    requires left { AreThere (length circuit.old.nodes) x.now }
    requires right { AreThere (length circuit.old.nodes) y.now }
    requires same_width { length x.now ≡ length y.now }
    ensures made { IfOk result (λ gate. (gate, circuit.new.nodes) ≡ carry_out_made circuit.old.nodes carry_in x.now y.now) }
    ensures there { IfOk result (λ gate. gate.number < length circuit.new.nodes) }
    ensures kept { AddsNodes circuit.old.nodes circuit.new.nodes (length x.now * 4) }
{
    let mut carry = carry_in;
    for (i, left) in x.iter().enumerate() {
        let half = xor(circuit, *left, y[i])?;
        carry = carry_out(circuit, *left, y[i], half, carry)?;
    }
    Ok(carry)
}

/// Whether two strings of the same width are the same, bit by bit.
pub fn same(circuit: &mut Circuit, x: &[Gate], y: &[Gate]) -> Result<Gate, AllocError>
    requires left { AreThere (length circuit.old.nodes) x.now }
    requires right { AreThere (length circuit.old.nodes) y.now }
    requires same_width { length x.now ≡ length y.now }
    ensures made { IfOk result (λ gate. (gate, circuit.new.nodes) ≡ same_made circuit.old.nodes (constant_gate true) x.now y.now) }
    ensures there { IfOk result (λ gate. gate.number < length circuit.new.nodes) }
    ensures kept { AddsNodes circuit.old.nodes circuit.new.nodes (length x.now * 2) }
{
    let mut so_far = circuit.constant(true);
    for (i, left) in x.iter().enumerate() {
        let apart = xor(circuit, *left, y[i])?;
        let together = circuit.not(apart);
        so_far = and(circuit, so_far, together)?;
    }
    Ok(so_far)
}
