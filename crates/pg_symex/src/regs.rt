//! Registers as gates.

use pg_vec::Bits;

/// What a run begins with: a bit for the mode, and the bits of an address for each of the others.
#[derive(Debug, Drop)]
pub struct Regs {
    /// The mode: 0 supervisor, 1 user.
    pub mode: Bits,
    /// The address of the instruction.
    pub p: Bits,
    /// The relocation.
    pub l: Bits,
    /// The bound.
    pub b: Bits,
    /// How many cells are usable: those of the addresses below it.
    pub v: Bits,
}

/// The registers that a run leaves, of the same widths.
#[derive(Debug, Drop)]
pub struct Next {
    /// The mode.
    pub mode: Bits,
    /// The address of the instruction that follows.
    pub p: Bits,
    /// The relocation.
    pub l: Bits,
    /// The bound.
    pub b: Bits,
}
