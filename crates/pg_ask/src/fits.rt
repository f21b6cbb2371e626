//! What must hold of the registers and sizes of a pair, and of the word at P.

ghost use Rattle.std.specs.Prelude.{◌≡◌, ◌+◌, ◌<◌, ◌≤◌, ◌^◌, true, length, IfOk};
ghost use Rattle.pg_circuit.specs.Values.{IsThere};
ghost use Rattle.pg_circuit.specs.Made.{constant_gate};
ghost use Rattle.pg_word.specs.Bits.{IsWidth};
ghost use Rattle.pg_symex.specs.There.{AreBits};
ghost use Rattle.pg_symex.specs.Exprs.{bit_0};
ghost use Rattle.pg_ask.specs.There.{AreUnknowns, LeavesBits, LeavesGate};
ghost use Rattle.pg_ask.specs.Fits.{usable_made, size_made, alike_made, differ_made, apart_made, place_made, matches_made, fits_made};

use crate::unknowns::{Unknowns, moves, rebounds};
use pg_ast::Instr;
use pg_circuit::{Circuit, Gate};
use pg_mach_ready::Machine;
use pg_symex::literal::literal;
use pg_type::Kind;
use pg_vec::compare::same;
use pg_vec::gate::and;
use pg_vec::{Bits, ops};
use std::alloc::{AllocError, Global};

/// The number of cells that are usable in both states, and whether all fits.
#[derive(Drop)]
pub struct Fits {
    /// How many cells are usable.
    pub usable: Bits,
    /// Whether registers, sizes and the word at P are as asked.
    pub gate: Gate,
}

/// The bit of a string of one.
pub fn bit_0(bits: &Bits) -> Gate
    ensures { result ≡ bit_0 bits.now }
{
    bits.as_slice()[0]
}

/// How many cells are usable: min(b, max(0, n - l)).
fn usable(
    alloc: Global,
    circuit: &mut Circuit,
    l: &Bits,
    b: &Bits,
    n: &Bits,
) -> Result<Bits, AllocError>
    requires l { AreBits (length circuit.old.nodes) (length n.now) l.now }
    requires b { AreBits (length circuit.old.nodes) (length n.now) b.now }
    requires n { AreBits (length circuit.old.nodes) (length n.now) n.now }
    ensures made { IfOk result (λ v. (v, circuit.new.nodes) ≡ usable_made circuit.old.nodes l.now b.now n.now) }
    ensures there { IfOk result (λ v. LeavesBits circuit.old.nodes circuit.new.nodes (length n.now) v) }
{
    let room = ops::sub(alloc, circuit, n, l)?;
    let past = ops::lt(alloc, circuit, n, l)?;
    let none = literal(alloc, 0, u64::from(n.width()))?;
    let cells = ops::mux(alloc, circuit, bit_0(&past), &none, &room)?;
    let less = ops::lt(alloc, circuit, b, &cells)?;
    ops::mux(alloc, circuit, bit_0(&less), b, &cells)
}

/// A gate, and that a size is 2 to q.
fn size(
    alloc: Global,
    circuit: &mut Circuit,
    q: u32,
    so_far: Gate,
    n: &Bits,
) -> Result<Gate, AllocError>
    requires so_far { IsThere (length circuit.old.nodes) so_far }
    requires n { AreBits (length circuit.old.nodes) (length n.now) n.now }
    ensures made { IfOk result (λ gate. (gate, circuit.new.nodes) ≡ size_made q (length n.now) circuit.old.nodes so_far n.now) }
    ensures there { IfOk result (λ gate. LeavesGate circuit.old.nodes circuit.new.nodes gate) }
{
    let width = u64::from(n.width());
    let least = literal(alloc, 2, width)?;
    let few = ops::lt(alloc, circuit, n, &least)?;
    let enough = and(circuit, so_far, circuit.not(bit_0(&few)))?;
    let most = literal(alloc, u64::from(q), width)?;
    let many = ops::lt(alloc, circuit, &most, n)?;
    and(circuit, enough, circuit.not(bit_0(&many)))
}

/// A gate, and that two strings of one width are the same.
pub fn alike(circuit: &mut Circuit, so_far: Gate, x: &Bits, y: &Bits) -> Result<Gate, AllocError>
    requires so_far { IsThere (length circuit.old.nodes) so_far }
    requires x { AreBits (length circuit.old.nodes) (length y.now) x.now }
    requires y { AreBits (length circuit.old.nodes) (length y.now) y.now }
    ensures made { IfOk result (λ gate. (gate, circuit.new.nodes) ≡ alike_made circuit.old.nodes so_far x.now y.now) }
    ensures there { IfOk result (λ gate. LeavesGate circuit.old.nodes circuit.new.nodes gate) }
{
    let together = same(circuit, x.as_slice(), y.as_slice())?;
    and(circuit, so_far, together)
}

/// A gate, and that two strings of one width differ.
fn differ(circuit: &mut Circuit, so_far: Gate, x: &Bits, y: &Bits) -> Result<Gate, AllocError>
    requires so_far { IsThere (length circuit.old.nodes) so_far }
    requires x { AreBits (length circuit.old.nodes) (length y.now) x.now }
    requires y { AreBits (length circuit.old.nodes) (length y.now) y.now }
    ensures made { IfOk result (λ gate. (gate, circuit.new.nodes) ≡ differ_made circuit.old.nodes so_far x.now y.now) }
    ensures there { IfOk result (λ gate. LeavesGate circuit.old.nodes circuit.new.nodes gate) }
{
    let alike = same(circuit, x.as_slice(), y.as_slice())?;
    and(circuit, so_far, circuit.not(alike))
}

/// A gate, and that what the kind makes differ does.
fn apart(circuit: &mut Circuit, kind: Kind, so_far: Gate, u: &Unknowns) -> Result<Gate, AllocError>
    requires so_far { IsThere (length circuit.old.nodes) so_far }
    requires unknowns { AreUnknowns (length circuit.old.nodes) (length u.now.p) u.now }
    ensures made { IfOk result (λ gate. (gate, circuit.new.nodes) ≡ apart_made kind circuit.old.nodes so_far u.now) }
    ensures there { IfOk result (λ gate. LeavesGate circuit.old.nodes circuit.new.nodes gate) }
{
    match kind {
        Kind::Location | Kind::ULocation => differ(circuit, so_far, &u.first_l, &u.second_l),
        Kind::Bound | Kind::UBound => differ(circuit, so_far, &u.first_b, &u.second_b),
        Kind::Privileged | Kind::Control | Kind::ModeDep | Kind::UControl => Ok(so_far),
    }
}

/// A gate, and that a bit of the word is as its place in the pattern wants it.
fn place(circuit: &mut Circuit, so_far: Gate, byte: u8, bit: Gate) -> Result<Gate, AllocError>
    requires so_far { IsThere (length circuit.old.nodes) so_far }
    requires bit { IsThere (length circuit.old.nodes) bit }
    ensures made { IfOk result (λ gate. (gate, circuit.new.nodes) ≡ place_made circuit.old.nodes so_far byte bit) }
    ensures there { IfOk result (λ gate. LeavesGate circuit.old.nodes circuit.new.nodes gate) }
{
    match byte {
        b'0' => and(circuit, so_far, circuit.not(bit)),
        b'1' => and(circuit, so_far, bit),
        _ => Ok(so_far),
    }
}

/// A gate, and that the pattern, which has a place for each bit and lists them from the highest, matches the word.
fn matches(
    circuit: &mut Circuit,
    so_far: Gate,
    pattern: &[u8],
    word: &[Gate],
) -> Result<Gate, AllocError>
    requires so_far { IsThere (length circuit.old.nodes) so_far }
    requires word { AreBits (length circuit.old.nodes) (length pattern.now) word.now }
    ensures made { IfOk result (λ gate. (gate, circuit.new.nodes) ≡ matches_made circuit.old.nodes so_far pattern.now word.now) }
    ensures there { IfOk result (λ gate. LeavesGate circuit.old.nodes circuit.new.nodes gate) }
{
    let mut gate = so_far;
    for (i, byte) in pattern.iter().enumerate() {
        gate = place(circuit, gate, *byte, word[pattern.len() - 1 - i])?;
    }
    Ok(gate)
}

/// The number of usable cells, and whether all of it fits: both sizes are sizes of the machine, both states have as many usable cells, P is
/// usable, the registers differ as the kind asks, and the word at P matches the instruction's pattern.
pub fn fit(
    alloc: Global,
    circuit: &mut Circuit,
    m: &Machine,
    instr: &Instr,
    kind: Kind,
    u: &Unknowns,
    word: &Bits,
) -> Result<Fits, AllocError>
    requires unknowns { AreUnknowns (length circuit.old.nodes) m.now.desc.address u.now }
    requires word { AreBits (length circuit.old.nodes) (length instr.now.pattern.bytes) word.now }
    ensures made { IfOk result (λ f. ((f.usable, f.gate), circuit.new.nodes) ≡ fits_made m.now.desc instr.now kind u.now word.now circuit.old.nodes) }
    ensures there { IfOk result (λ f. LeavesBits circuit.old.nodes circuit.new.nodes m.now.desc.address f.usable) }
    ensures gate { IfOk result (λ f. IsThere (length circuit.new.nodes) f.gate) }
{
    let v = usable(alloc, circuit, &u.first_l, &u.first_b, &u.first_size)?;
    let second_v = usable(alloc, circuit, &u.second_l, &u.second_b, &u.second_size)?;
    let q = m.shape().q;
    let one = size(alloc, circuit, q, circuit.constant(true), &u.first_size)?;
    let two = size(alloc, circuit, q, one, &u.second_size)?;
    let equal = alike(circuit, two, &v, &second_v)?;
    let inside = ops::lt(alloc, circuit, &u.p, &v)?;
    let placed = and(circuit, equal, bit_0(&inside))?;
    let related = apart(circuit, kind, placed, u)?;
    let gate = matches(circuit, related, instr.pattern.as_bytes(), word.as_slice())?;
    Ok(Fits { usable: v, gate })
}
