//! What follows from the definitions alone, for those who read them: none of it does anything when it runs.

ghost use Rattle.std.specs.Prelude.{◌≡◌, ◌^◌, ◌<◌, ◌∷◌, [], true, false, length};
ghost use Rattle.pg_circuit.specs.Values.{values_of};
ghost use Rattle.pg_circuit.specs.Grown.{GrowsTo};
ghost use Rattle.pg_circuit.specs.Made.{gate_at, constant_gate};
ghost use Rattle.pg_vec.specs.Number.{number};
ghost use Rattle.pg_vec.specs.There.{AreThere, AreValues};
ghost use Rattle.pg_vec.specs.Strings.{add_made};

use pg_circuit::{Gate, Node};

/// The values of a circuit are values of each that it grew from.
pub fn later_values_are_values(nodes: &[Node], later: &[Node], inputs: &[bool])
    requires { GrowsTo nodes.now later.now }
    ensures { AreValues inputs.now nodes.now (values_of inputs.now later.now) }
{}

/// Where nodes stay in front, a string over them stays there, and keeps its number.
pub fn string_stays(nodes: &[Node], later: &[Node], inputs: &[bool], gates: &[Gate])
    requires front { GrowsTo nodes.now later.now }
    requires there { AreThere (length nodes.now) gates.now }
    ensures there { AreThere (length later.now) gates.now }
    ensures number { number (values_of inputs.now later.now) gates.now ≡ number (values_of inputs.now nodes.now) gates.now }
{}

/// A string of n gates is a number of n bits.
pub fn number_fits(values: &[bool], gates: &[Gate])
    ensures { number values.now gates.now < 2 ^ length gates.now }
{}

/// Sums and numbers that can be worked out by hand: in the sum of two strings of two inputs, bit 0 needs an exclusive or,
/// the carry out of it an and, and bit 1 two exclusive ors.
pub fn worked_sums()
    ensures number { number (false ∷ true ∷ true ∷ []) (gate_at 1 ∷ constant_gate false ∷ gate_at 2 ∷ []) ≡ 5 }
    ensures sum { add_made (Node.Constant ∷ Node.Input 0 ∷ Node.Input 1 ∷ Node.Input 2 ∷ Node.Input 3 ∷ []) (gate_at 1 ∷ gate_at 2 ∷ []) (gate_at 3 ∷ gate_at 4 ∷ []) ≡ (gate_at 5 ∷ gate_at 8 ∷ [], Node.Constant ∷ Node.Input 0 ∷ Node.Input 1 ∷ Node.Input 2 ∷ Node.Input 3 ∷ Node.Xor (gate_at 1) (gate_at 3) ∷ Node.And (gate_at 1) (gate_at 3) ∷ Node.Xor (gate_at 2) (gate_at 4) ∷ Node.Xor (gate_at 7) (gate_at 6) ∷ []) }
{}
