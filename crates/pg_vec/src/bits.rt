//! Strings of 1 to 64 gates.
//!
//! Contracts see a string as the list of its gates. That it has 1 to 64 of them is kept by its type; that they are gates of
//! some circuit is a condition of the calls that take one, since a string does not know its circuit.

ghost use Rattle.std.specs.Prelude.{◌≡◌, ◌∷◌, [], length, IfOk};
ghost use Rattle.pg_word.specs.Bits.{IsWidth};

use pg_circuit::Gate;
use std::alloc::{AllocError, Global};
use std::marker::Model;

/// A string of 1 to 64 gates, bit 0 first.
#[derive(Debug, Drop)]
pub struct Bits {
    gates: Vec<Gate>,
}

impl Model for Bits {
    ghost use Rattle.std.specs.Prelude.{List, length};
    ghost use Rattle.pg_circuit.specs.declared.node.Gate.{Gate};
    ghost use Rattle.pg_word.specs.Bits.{IsWidth};

    ghost Value = { List Gate };

    ghost view = { λ b. b.gates.items };

    ghost invariant = { λ b. IsWidth (length b.gates.items) };
}

impl Bits {
    /// The string of these gates, bit 0 first: 1 to 64 of them, of any circuit.
    pub fn from_slice(alloc: Global, gates: &[Gate]) -> Result<Bits, AllocError>
        requires { IsWidth (length gates.now) }
        ensures { IfOk result (λ bits. bits ≡ gates.now) }
    {
        Ok(Bits {
            gates: Vec::from_slice(alloc, gates)?,
        })
    }

    /// The string of these gates, bit 0 first: 1 to 64 of them, of any circuit. It takes the vector over, and no memory.
    pub fn from_vec(gates: Vec<Gate>) -> Bits
        requires { IsWidth (length gates.items) }
        ensures { result ≡ gates.items }
    {
        Bits { gates }
    }

    /// The vector of the gates, bit 0 first, which takes no memory.
    pub fn into_vec(self) -> Vec<Gate>
        ensures gates { result.items ≡ self }
        ensures width { IsWidth (length self) }
    {
        self.gates
    }

    /// The string of one gate.
    pub(crate) fn one(alloc: Global, gate: Gate) -> Result<Bits, AllocError>
        ensures { IfOk result (λ bits. bits ≡ gate ∷ []) }
    {
        let mut gates = Vec::new(alloc);
        gates.push(gate)?;
        Ok(Bits { gates })
    }

    /// The gates, bit 0 first.
    pub fn as_slice(&self) -> &[Gate]
        ensures gates { result.now ≡ self.now }
        ensures width { IsWidth (length self.now) }
    {
        self.gates.as_slice()
    }

    /// How many bits there are, 1 to 64.
    pub fn width(&self) -> u32
        ensures width { result ≡ length self.now }
        ensures bounds { IsWidth (length self.now) }
    {
        self.gates.len() as u32
    }
}
