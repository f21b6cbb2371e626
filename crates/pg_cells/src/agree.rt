//! Gates that cells agree: where their addresses are equal, so are their words.
//!
//! Each function lays one more condition on a gate so far, so that no gate is built for the conjunction of none. Addresses
//! come first: where the circuit itself tells them apart, as it does of two constants, nothing is built for the words.

ghost use Rattle.std.specs.Prelude.{◌≡◌, ◌+◌, ◌*◌, ◌<◌, length, IfOk};
ghost use Rattle.std.specs.List.{All};
ghost use Rattle.pg_vec.specs.There.{AreThere};
ghost use Rattle.pg_vec.specs.AddsNodes.{AddsNodes};
ghost use Rattle.pg_cells.specs.Over.{IsWhole};
ghost use Rattle.pg_cells.specs.Made.{alike_made, pair_made, row_made};
ghost use Rattle.pg_cells.specs.Means.{each_pair};

use crate::cell::Cell;
use crate::find::is_same;
use pg_circuit::{Circuit, Gate};
use pg_vec::compare;
use pg_vec::gate::and;
use std::alloc::AllocError;

/// A gate, and that two words are the same where the gate `at` is true.
fn alike(
    circuit: &mut Circuit,
    so_far: Gate,
    at: Gate,
    x: &[Gate],
    y: &[Gate],
) -> Result<Gate, AllocError>
    requires so_far { so_far.number < length circuit.old.nodes }
    requires at { at.number < length circuit.old.nodes }
    requires left { AreThere (length circuit.old.nodes) x.now }
    requires right { AreThere (length circuit.old.nodes) y.now }
    requires same_width { length x.now ≡ length y.now }
    ensures made { IfOk result (λ gate. (gate, circuit.new.nodes) ≡ alike_made circuit.old.nodes so_far at x.now y.now) }
    ensures there { IfOk result (λ gate. gate.number < length circuit.new.nodes) }
    ensures kept { AddsNodes circuit.old.nodes circuit.new.nodes (length x.now * 2 + 2) }
{
    let same = compare::same(circuit, x, y)?;
    let differ = circuit.not(same);
    let odd = and(circuit, at, differ)?;
    let fine = circuit.not(odd);
    and(circuit, so_far, fine)
}

/// A gate, and that two cells agree.
fn agree(circuit: &mut Circuit, so_far: Gate, c: &Cell, d: &Cell) -> Result<Gate, AllocError>
    requires so_far { so_far.number < length circuit.old.nodes }
    requires left { IsWhole (length circuit.old.nodes) (length c.now.word) (length c.now.address) c.now }
    requires right { IsWhole (length circuit.old.nodes) (length c.now.word) (length c.now.address) d.now }
    ensures made { IfOk result (λ gate. (gate, circuit.new.nodes) ≡ pair_made circuit.old.nodes so_far c.now d.now) }
    ensures there { IfOk result (λ gate. gate.number < length circuit.new.nodes) }
    ensures kept { AddsNodes circuit.old.nodes circuit.new.nodes (each_pair (length c.now.word) (length c.now.address)) }
{
    let at = compare::same(circuit, c.address.as_slice(), d.address.as_slice())?;
    let never = circuit.constant(false);
    if is_same(at, never) {
        Ok(so_far)
    } else {
        alike(circuit, so_far, at, c.word.as_slice(), d.word.as_slice())
    }
}

/// A gate, and that a cell agrees with each of some others.
pub fn agree_with_all(
    circuit: &mut Circuit,
    so_far: Gate,
    cell: &Cell,
    others: &[Cell],
) -> Result<Gate, AllocError>
    requires so_far { so_far.number < length circuit.old.nodes }
    requires cell { IsWhole (length circuit.old.nodes) (length cell.now.word) (length cell.now.address) cell.now }
    requires others { All (IsWhole (length circuit.old.nodes) (length cell.now.word) (length cell.now.address)) others.now }
    ensures made { IfOk result (λ gate. (gate, circuit.new.nodes) ≡ row_made circuit.old.nodes so_far cell.now others.now) }
    ensures there { IfOk result (λ gate. gate.number < length circuit.new.nodes) }
    ensures kept { AddsNodes circuit.old.nodes circuit.new.nodes (length others.now * each_pair (length cell.now.word) (length cell.now.address)) }
{
    let mut all = so_far;
    for other in others {
        all = agree(circuit, all, cell, other)?;
    }
    Ok(all)
}
