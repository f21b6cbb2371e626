//! The nodes of a circuit, and the handles on them.

/// A gate of a circuit, or its negation: a handle, which takes no memory.
#[derive(Clone, Copy, Debug, PartialEq, Eq, Hash)]
pub struct Gate {
    /// The place of the gate among the circuit's nodes.
    pub number: u32,
    /// Whether its value is negated.
    pub negated: bool,
}

/// One gate of a circuit, whose operands are handles on earlier ones.
#[derive(Clone, Copy, Debug, PartialEq, Eq, Hash)]
pub enum Node {
    /// The constant, false.
    Constant,
    /// An input, with its number among the inputs.
    Input(u32),
    /// True where both are.
    And(Gate, Gate),
    /// True where exactly one is.
    Xor(Gate, Gate),
}
