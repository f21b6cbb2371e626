//! The numbers of a machine.
//!
//! The head of a description gives them, and they go through all layers as one value. That they are those of a machine that
//! there can be is `IsShape` (`specs/Shape.antt`): a call that is lent a shape asks for it, and the shape of a valid
//! description has it. It is what makes the word of a program status word exact: P, l, b, the mode and a cause stand in it
//! beside each other.

/// The numbers of a machine. Calls that are lent a shape ask that each is in its range, and that P, l, b and the mode fit a
/// word, with two more bits where causes are on: `3 a + 1 <= w`, or `3 a + 3 <= w`.
#[derive(Clone, Copy, Debug, PartialEq, Eq)]
pub struct Shape {
    /// The bits of a word: 16, 24, 32, 40, 48, 56 or 64.
    pub w: u32,
    /// The bits of an address, and of P, l and b: 4 to 20.
    pub a: u32,
    /// The greatest size of a storage, in cells: 4 to `2^a - 1`.
    pub q: u32,
    /// Whether a trap stores its cause, 1 to 3, in the two bits above the mode.
    pub causes: bool,
}
