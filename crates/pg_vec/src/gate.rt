//! Single gates, made of ands and exclusive ors.
//!
//! Each function makes exactly the nodes of the definition in `specs/Gates.antt` that its contract cites, in that order.
//! The circuit itself simplifies constants and equal gates and finds nodes that are there; nothing else is rewritten
//! here. All else in this crate adds nodes through these functions alone: `kept` says how many at most, also where memory
//! runs out.

ghost use Rattle.std.specs.Prelude.{◌≡◌, ◌<◌, length, IfOk};
ghost use Rattle.pg_circuit.specs.Made.{and_made, xor_made};
ghost use Rattle.pg_vec.specs.AddsNodes.{AddsNodes};
ghost use Rattle.pg_vec.specs.Gates.{or_made, choice_made, carry_made};
ghost use Rattle.pg_vec.specs.Strings.{carry_into_made};

use pg_circuit::{Circuit, Gate};
use std::alloc::AllocError;

/// The and of two gates.
pub fn and(circuit: &mut Circuit, x: Gate, y: Gate) -> Result<Gate, AllocError>
    requires left { x.number < length circuit.old.nodes }
    requires right { y.number < length circuit.old.nodes }
    ensures made { IfOk result (λ gate. (gate, circuit.new.nodes) ≡ and_made circuit.old.nodes x y) }
    ensures there { IfOk result (λ gate. gate.number < length circuit.new.nodes) }
    ensures kept { AddsNodes circuit.old.nodes circuit.new.nodes 1 }
{
    circuit.and(x, y)
}

/// The exclusive or of two gates.
pub fn xor(circuit: &mut Circuit, x: Gate, y: Gate) -> Result<Gate, AllocError>
    requires left { x.number < length circuit.old.nodes }
    requires right { y.number < length circuit.old.nodes }
    ensures made { IfOk result (λ gate. (gate, circuit.new.nodes) ≡ xor_made circuit.old.nodes x y) }
    ensures there { IfOk result (λ gate. gate.number < length circuit.new.nodes) }
    ensures kept { AddsNodes circuit.old.nodes circuit.new.nodes 1 }
{
    circuit.xor(x, y)
}

/// The or of two gates.
pub fn or(circuit: &mut Circuit, x: Gate, y: Gate) -> Result<Gate, AllocError>
    requires left { x.number < length circuit.old.nodes }
    requires right { y.number < length circuit.old.nodes }
    ensures made { IfOk result (λ gate. (gate, circuit.new.nodes) ≡ or_made circuit.old.nodes x y) }
    ensures there { IfOk result (λ gate. gate.number < length circuit.new.nodes) }
    ensures kept { AddsNodes circuit.old.nodes circuit.new.nodes 1 }
{
    let not_x = circuit.not(x);
    let not_y = circuit.not(y);
    let neither = and(circuit, not_x, not_y)?;
    Ok(circuit.not(neither))
}

/// `x` where the choice is true, else `y`.
pub fn choose(circuit: &mut Circuit, choice: Gate, x: Gate, y: Gate) -> Result<Gate, AllocError>
    requires choice { choice.number < length circuit.old.nodes }
    requires left { x.number < length circuit.old.nodes }
    requires right { y.number < length circuit.old.nodes }
    ensures made { IfOk result (λ gate. (gate, circuit.new.nodes) ≡ choice_made choice circuit.old.nodes x y) }
    ensures there { IfOk result (λ gate. gate.number < length circuit.new.nodes) }
    ensures kept { AddsNodes circuit.old.nodes circuit.new.nodes 3 }
{
    let left = and(circuit, choice, x)?;
    let not_choice = circuit.not(choice);
    let right = and(circuit, not_choice, y)?;
    or(circuit, left, right)
}

/// The carry out of the sum of two gates and a carry, where `half` is the exclusive or of the two.
pub fn carry_out(
    circuit: &mut Circuit,
    x: Gate,
    y: Gate,
    half: Gate,
    carry: Gate,
) -> Result<Gate, AllocError>
    requires left { x.number < length circuit.old.nodes }
    requires right { y.number < length circuit.old.nodes }
    requires half { half.number < length circuit.old.nodes }
    requires carry { carry.number < length circuit.old.nodes }
    ensures made { IfOk result (λ gate. (gate, circuit.new.nodes) ≡ carry_made circuit.old.nodes x y half carry) }
    ensures there { IfOk result (λ gate. gate.number < length circuit.new.nodes) }
    ensures kept { AddsNodes circuit.old.nodes circuit.new.nodes 3 }
{
    let both = and(circuit, x, y)?;
    let passed = and(circuit, half, carry)?;
    or(circuit, both, passed)
}

/// The carry into the bits that are left, which is not built where none is left.
pub fn carry_into(
    circuit: &mut Circuit,
    rest: &[Gate],
    x: Gate,
    y: Gate,
    half: Gate,
    carry: Gate,
) -> Result<Gate, AllocError>
    requires left { x.number < length circuit.old.nodes }
    requires right { y.number < length circuit.old.nodes }
    requires half { half.number < length circuit.old.nodes }
    requires carry { carry.number < length circuit.old.nodes }
    ensures made { IfOk result (λ gate. (gate, circuit.new.nodes) ≡ carry_into_made rest.now circuit.old.nodes x y half carry) }
    ensures there { IfOk result (λ gate. gate.number < length circuit.new.nodes) }
    ensures kept { AddsNodes circuit.old.nodes circuit.new.nodes 3 }
{
    if rest.is_empty() {
        Ok(carry)
    } else {
        carry_out(circuit, x, y, half, carry)
    }
}
