//! The cell that has an address, by its gates.
//!
//! Two addresses are one where they are the same list of gates. Whether they are one number is for the values of the inputs
//! to say, and no matter of this search. The cells are gone through one by one: an instruction touches a few.

ghost use Rattle.std.specs.Prelude.{◌≡◌, MatchOption, None};
ghost use Rattle.pg_circuit.specs.Nodes.{same_gate};
ghost use Rattle.pg_cells.specs.Made.{same_gates, found_word, IsFoundAt};

use crate::cell::Cell;
use pg_circuit::Gate;

/// The place of the first cell whose address is these gates.
pub fn find(cells: &[Cell], address: &[Gate]) -> Option<usize>
    ensures { MatchOption result (found_word cells.now address.now ≡ None) (IsFoundAt cells.now address.now) }
{
    for (place, cell) in cells.iter().enumerate() {
        if are_same(cell.address.as_slice(), address) {
            return Some(place);
        }
    }
    None
}

/// Whether two strings are the same gates.
fn are_same(x: &[Gate], y: &[Gate]) -> bool
    ensures { result ≡ same_gates x.now y.now }
{
    if x.len() != y.len() {
        return false;
    }
    for (i, gate) in x.iter().enumerate() {
        if !is_same(*gate, y[i]) {
            return false;
        }
    }
    true
}

/// Whether two gates are one.
pub fn is_same(x: Gate, y: Gate) -> bool
    ensures { result ≡ same_gate x y }
{
    x == y
}
