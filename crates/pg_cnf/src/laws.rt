//! What the clauses of a circuit say: a law, which does nothing when it runs.

ghost use Rattle.std.specs.Prelude.{◌≡◌, ◌↔◌, ◌<◌, true, length};
ghost use Rattle.pg_circuit.specs.Nodes.{IsCircuit};
ghost use Rattle.pg_cnf.specs.Truth.{clauses_true};
ghost use Rattle.pg_cnf.specs.Encoded.{clauses_of, IsRun};

use pg_circuit::{Gate, Node};

/// An assignment makes all clauses true exactly where it is what the nodes are worth on some values of the inputs, and the
/// root is true.
pub fn true_on_runs(nodes: &[Node], root: Gate, assignment: &[bool])
    requires circuit { IsCircuit nodes.now }
    requires root { root.number < length nodes.now }
    requires places { length assignment.now ≡ length nodes.now }
    ensures { (clauses_true assignment.now (clauses_of nodes.now root) ≡ true) ↔ IsRun nodes.now root assignment.now }
{}
