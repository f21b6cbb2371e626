//! The clauses of a circuit: Tseitin's encoding (1968).
//!
//! Each node of the circuit has a variable of its own, and clauses that tie it to those of its operands: three for an and,
//! four for an exclusive or, one for the constant and none for an input. One more clause says that the root is true. So the
//! clauses are as many as the nodes, but for a small factor, where the formula of the root itself may be far longer. Every
//! node has its clauses, also one that the root does not need, so that an assignment that makes all of them true is an
//! evaluation of the whole circuit.
//!
//! `encode` is the one call, for whoever asks a solver whether a gate can be true. Nothing is simplified here: the circuit
//! did that when it was built, so both operands of a node vary and differ, and no clause has a literal twice.

ghost use Rattle.std.specs.Prelude.{◌≡◌, ◌+◌, ◌*◌, ◌<◌, ◌≤◌, ◌^◌, ◌++◌, ◌∷◌, [], length, IfOk, OnOk};
ghost use Rattle.pg_circuit.specs.Made.{not_gate};
ghost use Rattle.pg_cnf.specs.Encoded.{literal_of, clause_of, and_clauses, xor_clauses, node_clauses, clauses_of, IsPlaced, AreApart};

use crate::clause::{Clause, Cnf};
use pg_circuit::{Circuit, Gate, Node};
use smallvec::SmallVec;
use std::alloc::{AllocError, Global};

/// The clauses that say that a gate of the circuit, the root, is true: they are all true exactly on the values of the circuit's nodes where
/// the root is. Variable k + 1 stands for node k. The circuit has fewer than 2^29 nodes, and there are at most 4 clauses a node and 2 more.
/// This is Tseitin's encoding (1968).
pub fn encode(alloc: Global, circuit: &Circuit, root: Gate) -> Result<Cnf, AllocError>
    requires root { root.number < length circuit.now.nodes }
    requires small { length circuit.now.nodes < 2 ^ 29 }
    ensures clauses { IfOk result (λ cnf. cnf.clauses ≡ clauses_of circuit.now.nodes root) }
    ensures variables { IfOk result (λ cnf. cnf.variables ≡ length circuit.now.nodes) }
    ensures few { IfOk result (λ cnf. length cnf.clauses ≤ 4 * length circuit.now.nodes + 2) }
{
    let nodes = circuit.nodes();
    let mut cnf = Cnf::new(alloc, nodes.len() as u32);
    for (number, node) in nodes.iter().enumerate() {
        add_node(alloc, &mut cnf, number as u32, *node)?;
    }
    add(alloc, &mut cnf, &[root])?;
    Ok(cnf)
}

/// Adds the clauses of the node with a number.
fn add_node(alloc: Global, cnf: &mut Cnf, number: u32, node: Node) -> Result<(), AllocError>
    requires there { number < cnf.old.variables }
    requires room { length cnf.old.clauses + 4 < 2 ^ 31 }
    requires placed { IsPlaced number node }
    ensures clauses { OnOk result (cnf.new.clauses ≡ cnf.old.clauses ++ node_clauses number node) }
    ensures variables { cnf.new.variables ≡ cnf.old.variables }
{
    let own = Gate {
        number,
        negated: false,
    };
    match node {
        Node::Constant => add(alloc, cnf, &[negation(own)]),
        Node::Input(_) => Ok(()),
        Node::And(x, y) => add_and(alloc, cnf, own, x, y),
        Node::Xor(x, y) => add_xor(alloc, cnf, own, x, y),
    }
}

/// Adds that v is true exactly where x and y both are.
fn add_and(alloc: Global, cnf: &mut Cnf, v: Gate, x: Gate, y: Gate) -> Result<(), AllocError>
    requires room { length cnf.old.clauses + 4 < 2 ^ 31 }
    requires apart { AreApart cnf.old.variables (v ∷ x ∷ y ∷ []) }
    ensures clauses { OnOk result (cnf.new.clauses ≡ cnf.old.clauses ++ and_clauses v x y) }
    ensures variables { cnf.new.variables ≡ cnf.old.variables }
{
    add(alloc, cnf, &[negation(v), x])?;
    add(alloc, cnf, &[negation(v), y])?;
    add(alloc, cnf, &[v, negation(x), negation(y)])?;
    Ok(())
}

/// Adds that v is true exactly where one of x and y is.
fn add_xor(alloc: Global, cnf: &mut Cnf, v: Gate, x: Gate, y: Gate) -> Result<(), AllocError>
    requires room { length cnf.old.clauses + 4 < 2 ^ 31 }
    requires apart { AreApart cnf.old.variables (v ∷ x ∷ y ∷ []) }
    ensures clauses { OnOk result (cnf.new.clauses ≡ cnf.old.clauses ++ xor_clauses v x y) }
    ensures variables { cnf.new.variables ≡ cnf.old.variables }
{
    add(alloc, cnf, &[negation(v), x, y])?;
    add(alloc, cnf, &[negation(v), negation(x), negation(y)])?;
    add(alloc, cnf, &[v, negation(x), y])?;
    add(alloc, cnf, &[v, x, negation(y)])?;
    Ok(())
}

/// Adds that one of some gates is true.
fn add(alloc: Global, cnf: &mut Cnf, gates: &[Gate]) -> Result<(), AllocError>
    requires room { length cnf.old.clauses + 1 < 2 ^ 31 }
    requires apart { AreApart cnf.old.variables gates.now }
    ensures clauses { OnOk result (cnf.new.clauses ≡ cnf.old.clauses ++ clause_of gates.now ∷ []) }
    ensures variables { cnf.new.variables ≡ cnf.old.variables }
{
    let literals = literals_of(alloc, gates, cnf.variables)?;
    cnf.push(Clause::new(literals))
}

/// The literals of gates.
fn literals_of(
    alloc: Global,
    gates: &[Gate],
    variables: u32,
) -> Result<SmallVec<i32, 3>, AllocError>
    requires few { variables < 2 ^ 31 }
    requires apart { AreApart variables gates.now }
    ensures { IfOk result (λ literals. literals.items ≡ clause_of gates.now) }
{
    let mut literals = SmallVec::new(alloc);
    for gate in gates {
        literals.push(literal_of(*gate))?;
    }
    Ok(literals)
}

/// The literal of a gate: the variable of its node, or the negation.
fn literal_of(gate: Gate) -> i32
    requires { gate.number + 1 < 2 ^ 31 }
    ensures { result ≡ literal_of gate }
{
    let variable = (gate.number + 1) as i32;
    if gate.negated { -variable } else { variable }
}

/// The negation of a gate.
fn negation(gate: Gate) -> Gate
    ensures { result ≡ not_gate gate }
{
    Gate {
        number: gate.number,
        negated: !gate.negated,
    }
}
