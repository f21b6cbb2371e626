//! The nodes and the clauses of operations on strings of 64 bits, and of a large circuit.

use crate::Fault;
use crate::strings::{inputs, is_there};
use pg_circuit::Circuit;
use pg_cnf::encode;
use pg_vec::{Bits, ops};
use std::alloc::Global;

/// As many nodes as a large circuit has.
const MANY: usize = 1_000_000;

/// The bits of a string.
const WIDTH: u32 = 64;

/// Writes the counts of each operation.
pub fn show_operations(rt: &HostRuntime) -> Result<(), Fault> {
    show(rt, "add", small(rt.alloc(), Op::Add))?;
    show(rt, "mul", small(rt.alloc(), Op::Mul))?;
    show(rt, "shl", small(rt.alloc(), Op::Shl))
}

/// Writes the counts of a product of products.
pub fn show_products(rt: &HostRuntime) -> Result<(), Fault> {
    show(rt, "products", large(rt.alloc()))
}

/// Counts in a line, or that there was no memory.
fn show(rt: &HostRuntime, name: &str, counts: Option<Counts>) -> Result<(), Fault> {
    let shown = match counts {
        None => println!(rt; "{name}: no memory"),
        Some(counts) => println!(rt;
            "{name}: {} nodes, {} clauses",
            counts.nodes, counts.clauses
        ),
    };
    shown.map_err(|_| Fault::Output)
}

/// What is counted of a circuit.
#[derive(Clone, Copy)]
struct Counts {
    /// Its nodes, but those of the inputs and the constant.
    nodes: usize,
    /// The clauses that say that its root is true.
    clauses: usize,
}

/// An operation that is counted.
#[derive(Clone, Copy)]
enum Op {
    Add,
    Mul,
    Shl,
}

/// The counts of one operation on two strings of 64 inputs.
fn small(alloc: Global, op: Op) -> Option<Counts> {
    let mut circuit = Circuit::new(alloc).ok()?;
    let x = inputs(alloc, &mut circuit, WIDTH).ok()?;
    let y = inputs(alloc, &mut circuit, WIDTH).ok()?;
    let before = circuit.len();
    let bits = made(alloc, &mut circuit, op, &x, &y)?;
    counted(alloc, &circuit, before, &bits)
}

/// The counts of a product of products.
fn large(alloc: Global) -> Option<Counts> {
    let mut circuit = Circuit::new(alloc).ok()?;
    let mut x = inputs(alloc, &mut circuit, WIDTH).ok()?;
    let y = inputs(alloc, &mut circuit, WIDTH).ok()?;
    let before = circuit.len();
    for _ in 0..MANY {
        if circuit.len() >= MANY {
            break;
        }
        x = made(alloc, &mut circuit, Op::Mul, &x, &y)?;
    }
    counted(alloc, &circuit, before, &x)
}

/// The string of an operation.
fn made(alloc: Global, circuit: &mut Circuit, op: Op, x: &Bits, y: &Bits) -> Option<Bits> {
    if !is_there(circuit, x) || !is_there(circuit, y) || x.width() != y.width() {
        return None;
    }
    match op {
        Op::Add => ops::add(alloc, circuit, x, y).ok(),
        Op::Mul => ops::mul(alloc, circuit, x, y).ok(),
        Op::Shl => ops::shl(alloc, circuit, x, y).ok(),
    }
}

/// The counts of a circuit that had so many nodes before, with the last bit of a string for its root.
fn counted(alloc: Global, circuit: &Circuit, before: usize, bits: &Bits) -> Option<Counts> {
    let gates = bits.as_slice();
    let root = gates[gates.len() - 1];
    let size = circuit.len();
    if root.number as usize >= size || size >= 0x2000_0000 {
        return None;
    }
    let cnf = encode(alloc, circuit, root).ok()?;
    Some(Counts {
        nodes: size.saturating_sub(before),
        clauses: cnf.clauses.len(),
    })
}
