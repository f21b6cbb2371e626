//! Literals as gates.

ghost use Rattle.std.specs.Prelude.{◌≡◌, ◌≤◌, IfOk};
ghost use Rattle.pg_circuit.specs.Made.{constant_gate};
ghost use Rattle.pg_symex.specs.Exprs.{literal_bits};

use pg_circuit::Gate;
use pg_vec::Bits;
use std::alloc::{AllocError, Global};

/// The lowest bits of a value, so many, as constants.
#[tactic(auto, using(crate::proofs::Steps::literal_next, crate::proofs::Steps::literal_all))]
pub fn literal(alloc: Global, value: u64, width: u64) -> Result<Bits, AllocError>
    requires some { 1 ≤ width }
    requires most { width ≤ 64 }
    ensures { IfOk result (λ bits. bits ≡ literal_bits value width) }
{
    let mut gates = Vec::new(alloc);
    let mut rest = value;
    for _ in 0..width {
        gates.push(constant(rest % 2 == 1))?;
        rest /= 2;
    }
    Ok(Bits::from_vec(gates))
}

/// The constant, which stands first in every circuit.
fn constant(value: bool) -> Gate
    ensures { result ≡ constant_gate value }
{
    Gate {
        number: 0,
        negated: value,
    }
}
