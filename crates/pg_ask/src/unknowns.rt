//! What is not known of a pair of states, as gates.

ghost use Rattle.std.specs.Prelude.{◌≡◌, ◌∷◌, [], length, IfOk, OnOk};
ghost use Rattle.pg_circuit.specs.Grown.{GrowsTo};
ghost use Rattle.pg_circuit.specs.Made.{constant_gate};
ghost use Rattle.pg_word.specs.Bits.{IsWidth};
ghost use Rattle.pg_cells.specs.Made.{inputs_made};
ghost use Rattle.pg_symex.specs.There.{AreBits};
ghost use Rattle.pg_ask.specs.There.{AreUnknowns, LeavesBits};
ghost use Rattle.pg_ask.specs.Unknowns.{modes_made, moves, rebounds, other_made, unknowns_made};

use pg_cells::inputs::inputs;
use pg_circuit::Circuit;
use pg_type::Kind;
use pg_vec::Bits;
use std::alloc::{AllocError, Global};

/// The registers and sizes of two states, and an address at which their windows are compared. What a kind makes equal is the
/// same gates. The mode has one bit, all others those of an address.
#[derive(Debug, Drop)]
pub struct Unknowns {
    /// The mode of the first state: 0 supervisor, 1 user.
    pub first_mode: Bits,
    /// The mode of the second.
    pub second_mode: Bits,
    /// P, the same in both.
    pub p: Bits,
    /// Where the first state's window begins.
    pub first_l: Bits,
    /// Where the second's begins.
    pub second_l: Bits,
    /// The bound of the first.
    pub first_b: Bits,
    /// The bound of the second.
    pub second_b: Bits,
    /// How many cells the first state's storage has.
    pub first_size: Bits,
    /// How many the second's has.
    pub second_size: Bits,
    /// The address whose word is compared after both runs.
    pub compared: Bits,
}

/// The unknowns of a kind, over addresses of so many bits.
pub fn unknowns_of(
    alloc: Global,
    circuit: &mut Circuit,
    kind: Kind,
    a: u32,
) -> Result<Unknowns, AllocError>
    requires { IsWidth a }
    ensures made { IfOk result (λ u. (u, circuit.new.nodes) ≡ unknowns_made kind a circuit.old.nodes) }
    ensures there { IfOk result (λ u. AreUnknowns (length circuit.new.nodes) a u) }
    ensures kept { OnOk result (GrowsTo circuit.old.nodes circuit.new.nodes) }
{
    let pair = modes(alloc, circuit, kind)?;
    let p = string(alloc, circuit, a)?;
    let first_l = string(alloc, circuit, a)?;
    let second_l = other(alloc, circuit, moves(kind), &first_l)?;
    let first_b = string(alloc, circuit, a)?;
    let second_b = other(alloc, circuit, rebounds(kind), &first_b)?;
    let first_size = string(alloc, circuit, a)?;
    let second_size = other(alloc, circuit, rebounds(kind), &first_size)?;
    let compared = string(alloc, circuit, a)?;
    let (first_mode, second_mode) = pair;
    Ok(Unknowns {
        first_mode,
        second_mode,
        p,
        first_l,
        second_l,
        first_b,
        second_b,
        first_size,
        second_size,
        compared,
    })
}

/// A string of new inputs.
fn string(alloc: Global, circuit: &mut Circuit, width: u32) -> Result<Bits, AllocError>
    requires { IsWidth width }
    ensures made { IfOk result (λ bits. (bits, circuit.new.nodes) ≡ inputs_made circuit.old.nodes width) }
    ensures there { IfOk result (λ bits. LeavesBits circuit.old.nodes circuit.new.nodes width bits) }
{
    let gates = inputs(alloc, circuit, width)?;
    Ok(Bits::from_vec(gates))
}

/// The modes of both states: supervisor and user, the same input, or user.
fn modes(alloc: Global, circuit: &mut Circuit, kind: Kind) -> Result<(Bits, Bits), AllocError>
    ensures made { IfOk result (λ modes. (modes, circuit.new.nodes) ≡ modes_made kind circuit.old.nodes) }
    ensures first { IfOk result (λ modes. LeavesBits circuit.old.nodes circuit.new.nodes 1 modes.0) }
    ensures second { IfOk result (λ modes. LeavesBits circuit.old.nodes circuit.new.nodes 1 modes.1) }
{
    match kind {
        Kind::Privileged | Kind::ModeDep => {
            let supervisor = bit(alloc, circuit, false)?;
            let user = bit(alloc, circuit, true)?;
            Ok((supervisor, user))
        }
        Kind::Control | Kind::Location | Kind::Bound => {
            let mode = string(alloc, circuit, 1)?;
            let same = Bits::from_slice(alloc, mode.as_slice())?;
            Ok((mode, same))
        }
        Kind::UControl | Kind::ULocation | Kind::UBound => {
            let user = bit(alloc, circuit, true)?;
            let same = bit(alloc, circuit, true)?;
            Ok((user, same))
        }
    }
}

/// A constant bit.
fn bit(alloc: Global, circuit: &Circuit, value: bool) -> Result<Bits, AllocError>
    ensures bit { IfOk result (λ bits. bits ≡ constant_gate value ∷ []) }
    ensures there { IfOk result (λ bits. AreBits (length circuit.now.nodes) 1 bits) }
{
    Bits::from_slice(alloc, &[circuit.constant(value)])
}

/// What the second state has in the place of a string: inputs of its own, or the same gates.
fn other(alloc: Global, circuit: &mut Circuit, own: bool, same: &Bits) -> Result<Bits, AllocError>
    requires { AreBits (length circuit.old.nodes) (length same.now) same.now }
    ensures made { IfOk result (λ bits. (bits, circuit.new.nodes) ≡ other_made own (length same.now) circuit.old.nodes same.now) }
    ensures there { IfOk result (λ bits. LeavesBits circuit.old.nodes circuit.new.nodes (length same.now) bits) }
{
    if own {
        string(alloc, circuit, same.width())
    } else {
        Bits::from_slice(alloc, same.as_slice())
    }
}

/// Whether the two states of a kind lie at different places.
pub fn moves(kind: Kind) -> bool
    ensures { result ≡ moves kind }
{
    matches!(kind, Kind::Location | Kind::ULocation)
}

/// Whether they have different bounds, and sizes of their own.
pub fn rebounds(kind: Kind) -> bool
    ensures { result ≡ rebounds kind }
{
    matches!(kind, Kind::Bound | Kind::UBound)
}
