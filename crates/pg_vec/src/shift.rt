//! Shifts, in stages: a barrel shifter.
//!
//! A shift by a number that is not known yet is a row of choices: stage k moves the string by `2^k` places where bit k of
//! the number is true. Six stages move it by up to 63 places, and a string has at most 64, so where any higher bit is
//! true the result is zeros, by one more choice. A stage that moves a string by its width or more leaves zeros by itself,
//! and stages one after another add up, so that no number has to be compared with the width.
//!
//! `shift` serves `shl` and `shr` of `ops`, which differ in the way that a stage moves the string: a `Direction`. To move a
//! string by a known number of places needs no node, and `moved_up` by one place is also the step from row to row of
//! a product.

ghost use Rattle.std.specs.Prelude.{◌≡◌, ◌*◌, ◌+◌, ◌<◌, ◌≤◌, ◌^◌, length, take, IfOk, false};
ghost use Rattle.pg_circuit.specs.Made.{constant_gate};
ghost use Rattle.pg_vec.specs.There.{AreThere};
ghost use Rattle.pg_vec.specs.AddsNodes.{AddsNodes};
ghost use Rattle.pg_vec.specs.Direction.{move_of};
ghost use Rattle.pg_vec.specs.Strings.{moved_up, moved_down, any_made, stages_made, shift_made};

use crate::gate::or;
use crate::pairwise::{Pairing, pairwise};
use pg_circuit::{Circuit, Gate};
use std::alloc::{AllocError, Global};

/// The way of a shift.
#[derive(Clone, Copy, Debug, PartialEq, Eq)]
pub enum Direction {
    /// To the higher bits.
    Up,
    /// To the lower bits.
    Down,
}

/// The constant false, which every circuit has.
pub const ZERO: Gate = Gate {
    number: 0,
    negated: false,
};

/// A string moved up, zeros moved in.
pub fn moved_up(alloc: Global, x: &[Gate], places: usize) -> Result<Vec<Gate>, AllocError>
    ensures { IfOk result (λ bits. bits.items ≡ moved_up places x.now) }
{
    let mut bits = Vec::new(alloc);
    bits.resize(places, ZERO)?;
    bits.extend_from_slice(x)?;
    bits.truncate(x.len());
    Ok(bits)
}

/// A string moved down, zeros moved in.
fn moved_down(alloc: Global, x: &[Gate], places: usize) -> Result<Vec<Gate>, AllocError>
    ensures { IfOk result (λ bits. bits.items ≡ moved_down places x.now) }
{
    let mut bits = Vec::from_slice(alloc, &x[places.min(x.len())..])?;
    let zeros = vec![in alloc; ZERO; places]?;
    bits.extend_from_slice(zeros.as_slice())?;
    bits.truncate(x.len());
    Ok(bits)
}

/// A string moved one way, zeros moved in.
fn moved(alloc: Global, way: Direction, x: &[Gate], places: usize) -> Result<Vec<Gate>, AllocError>
    ensures { IfOk result (λ bits. bits.items ≡ move_of way places x.now) }
{
    match way {
        Direction::Up => moved_up(alloc, x, places),
        Direction::Down => moved_down(alloc, x, places),
    }
}

/// A string moved, by each of at most six bits that is true: by one place for bit 0, and twice as far for each bit after it.
fn stages(
    alloc: Global,
    circuit: &mut Circuit,
    way: Direction,
    x: &[Gate],
    by: &[Gate],
) -> Result<Vec<Gate>, AllocError>
    requires left { AreThere (length circuit.old.nodes) x.now }
    requires right { AreThere (length circuit.old.nodes) by.now }
    requires few { length by.now ≤ 6 }
    ensures made { IfOk result (λ bits. (bits.items, circuit.new.nodes) ≡ stages_made (move_of way) circuit.old.nodes 1 x.now by.now) }
    ensures there { IfOk result (λ bits. AreThere (length circuit.new.nodes) bits.items) }
    ensures width { IfOk result (λ bits. length bits.items ≡ length x.now) }
    ensures kept { AddsNodes circuit.old.nodes circuit.new.nodes (length by.now * (length x.now * 3)) }
{
    let mut bits = Vec::from_slice(alloc, x)?;
    let mut step = 1;
    for choice in by {
        let far = moved(alloc, way, bits.as_slice(), step)?;
        let make = Pairing::Choose(*choice);
        bits = pairwise(alloc, circuit, make, far.as_slice(), bits.as_slice())?;
        step *= 2;
    }
    Ok(bits)
}

/// Whether any of the bits is true.
fn any(circuit: &mut Circuit, x: &[Gate]) -> Result<Gate, AllocError>
    requires { AreThere (length circuit.old.nodes) x.now }
    ensures made { IfOk result (λ gate. (gate, circuit.new.nodes) ≡ any_made circuit.old.nodes (constant_gate false) x.now) }
    ensures there { IfOk result (λ gate. gate.number < length circuit.new.nodes) }
    ensures kept { AddsNodes circuit.old.nodes circuit.new.nodes (length x.now) }
{
    let mut so_far = circuit.constant(false);
    for bit in x {
        so_far = or(circuit, so_far, *bit)?;
    }
    Ok(so_far)
}

/// A string moved by a number: in stages by its bits 0 to 5, and zeros where a higher bit is true.
pub fn shift(
    alloc: Global,
    circuit: &mut Circuit,
    way: Direction,
    x: &[Gate],
    by: &[Gate],
) -> Result<Vec<Gate>, AllocError>
    requires left { AreThere (length circuit.old.nodes) x.now }
    requires right { AreThere (length circuit.old.nodes) by.now }
    ensures made { IfOk result (λ bits. (bits.items, circuit.new.nodes) ≡ shift_made (move_of way) circuit.old.nodes x.now by.now) }
    ensures there { IfOk result (λ bits. AreThere (length circuit.new.nodes) bits.items) }
    ensures width { IfOk result (λ bits. length bits.items ≡ length x.now) }
    ensures kept { AddsNodes circuit.old.nodes circuit.new.nodes (length x.now * 21 + length by.now) }
{
    let (low, high) = by.split_at(by.len().min(6));
    let near = stages(alloc, circuit, way, x, low)?;
    let far = any(circuit, high)?;
    let zeros = vec![in alloc; ZERO; x.len()]?;
    let make = Pairing::Choose(far);
    pairwise(alloc, circuit, make, zeros.as_slice(), near.as_slice())
}
