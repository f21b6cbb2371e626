//! Cells and writes, as gates.

use pg_circuit::Gate;
use pg_vec::Bits;

/// A cell that was touched: its address, and the inputs that stand for the word that it holds before all writes.
#[derive(Debug, Drop)]
pub struct Cell {
    /// The address.
    pub address: Bits,
    /// The word: inputs, one after another, bit 0 first.
    pub word: Bits,
}

/// A write that stands.
#[derive(Debug, Drop)]
pub struct Write {
    /// Whether it is done.
    pub guard: Gate,
    /// The address.
    pub address: Bits,
    /// The word that it puts there.
    pub value: Bits,
}
