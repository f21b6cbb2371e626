//! Two runs of one body over one storage, and whether they end as a kind asks.

ghost use Rattle.std.specs.Prelude.{◌≡◌, ◌<◌, [], length, slice_get, Some, IfOk, OnOk};
ghost use Rattle.pg_circuit.specs.Grown.{GrowsTo};
ghost use Rattle.pg_circuit.specs.Values.{IsThere};
ghost use Rattle.pg_ast.specs.declared.tree.Instr.{Instr as Instrs};
ghost use Rattle.pg_cells.specs.Over.{IsOver};
ghost use Rattle.pg_symex.specs.There.{AreBits, AreRegs};
ghost use Rattle.pg_ask.specs.There.{AreUnknowns, AreEnd, LeavesGate};
ghost use Rattle.pg_ask.specs.Ended.{AreEnds, IsEnded, AreBoth};
ghost use Rattle.pg_ask.specs.Unknowns.{first_regs, second_regs};
ghost use Rattle.pg_ask.specs.Ends.{view_for, end_made, both_made, done_made, control_made, seen_apart_made, broken_made, mode_made, either_made, ends_made};

use crate::fits::{alike, bit_0};
use crate::unknowns::Unknowns;
use pg_cells::Touched;
use pg_circuit::{Circuit, Gate};
use pg_mach_ready::Machine;
use pg_symex::{Regs, SymOutcome, run_symbolic};
use pg_type::Kind;
use pg_vec::compare::same;
use pg_vec::gate::{and, or, xor};
use pg_vec::{Bits, ops};
use std::alloc::{AllocError, Global};

/// How a run ended, as gates, and the word that it leaves at the compared address. Where both traps are false it is done.
#[derive(Debug, Drop)]
pub struct End {
    /// Whether an access outside the window ended it.
    pub mem_trap: Gate,
    /// Whether `trap;` did.
    pub trap: Gate,
    /// The mode that follows.
    pub mode: Bits,
    /// P that follows.
    pub p: Bits,
    /// The relocation that follows.
    pub l: Bits,
    /// The bound that follows.
    pub b: Bits,
    /// The word at the compared address.
    pub word: Bits,
}

/// How two runs ended.
#[derive(Debug, Drop)]
pub struct BothEnds {
    /// From the first state.
    pub first: End,
    /// From the second.
    pub second: End,
}

/// Done: neither trap.
fn done(circuit: &mut Circuit, end: &End) -> Result<Gate, AllocError>
    requires mem_trap { IsThere (length circuit.old.nodes) end.now.mem_trap }
    requires trap { IsThere (length circuit.old.nodes) end.now.trap }
    ensures made { IfOk result (λ gate. (gate, circuit.new.nodes) ≡ done_made circuit.old.nodes end.now) }
    ensures there { IfOk result (λ gate. LeavesGate circuit.old.nodes circuit.new.nodes gate) }
{
    and(circuit, circuit.not(end.mem_trap), circuit.not(end.trap))
}

/// The first run is done, with another mode or another R than before.
fn control(circuit: &mut Circuit, u: &Unknowns, first: &End) -> Result<Gate, AllocError>
    requires unknowns { AreUnknowns (length circuit.old.nodes) (length u.now.p) u.now }
    requires first { AreEnd (length circuit.old.nodes) (length first.now.word) (length u.now.p) first.now }
    ensures made { IfOk result (λ gate. (gate, circuit.new.nodes) ≡ control_made circuit.old.nodes u.now first.now) }
    ensures there { IfOk result (λ gate. LeavesGate circuit.old.nodes circuit.new.nodes gate) }
{
    let gate = done(circuit, first)?;
    let mode = same(circuit, first.mode.as_slice(), u.first_mode.as_slice())?;
    let l = alike(circuit, mode, &first.l, &u.first_l)?;
    let b = alike(circuit, l, &first.b, &u.first_b)?;
    and(circuit, gate, circuit.not(b))
}

/// What two done runs leave differs: P, or the word at the compared address, where that is usable.
fn seen_apart(
    alloc: Global,
    circuit: &mut Circuit,
    u: &Unknowns,
    v: &Bits,
    first: &End,
    second: &End,
) -> Result<Gate, AllocError>
    requires unknowns { AreUnknowns (length circuit.old.nodes) (length v.now) u.now }
    requires usable { AreBits (length circuit.old.nodes) (length v.now) v.now }
    requires first { AreEnd (length circuit.old.nodes) (length first.now.word) (length v.now) first.now }
    requires second { AreEnd (length circuit.old.nodes) (length first.now.word) (length v.now) second.now }
    ensures made { IfOk result (λ gate. (gate, circuit.new.nodes) ≡ seen_apart_made circuit.old.nodes u.now v.now first.now second.now) }
    ensures there { IfOk result (λ gate. LeavesGate circuit.old.nodes circuit.new.nodes gate) }
{
    let same_p = same(circuit, first.p.as_slice(), second.p.as_slice())?;
    let same_word = same(circuit, first.word.as_slice(), second.word.as_slice())?;
    let inside = ops::lt(alloc, circuit, &u.compared, v)?;
    let odd = and(circuit, bit_0(&inside), circuit.not(same_word))?;
    or(circuit, circuit.not(same_p), odd)
}

/// The second is done; or it does not memory trap, and the first traps.
fn broken(circuit: &mut Circuit, first: &End, second: &End) -> Result<Gate, AllocError>
    requires trap { IsThere (length circuit.old.nodes) first.now.trap }
    requires second_mem_trap { IsThere (length circuit.old.nodes) second.now.mem_trap }
    requires second_trap { IsThere (length circuit.old.nodes) second.now.trap }
    ensures made { IfOk result (λ gate. (gate, circuit.new.nodes) ≡ broken_made circuit.old.nodes first.now second.now) }
    ensures there { IfOk result (λ gate. LeavesGate circuit.old.nodes circuit.new.nodes gate) }
{
    let second_done = done(circuit, second)?;
    let odd = and(circuit, first.trap, circuit.not(second.mem_trap))?;
    or(circuit, second_done, odd)
}

/// The second is done, and the first is not, or leaves something else.
fn mode(
    alloc: Global,
    circuit: &mut Circuit,
    u: &Unknowns,
    v: &Bits,
    first: &End,
    second: &End,
) -> Result<Gate, AllocError>
    requires unknowns { AreUnknowns (length circuit.old.nodes) (length v.now) u.now }
    requires usable { AreBits (length circuit.old.nodes) (length v.now) v.now }
    requires first { AreEnd (length circuit.old.nodes) (length first.now.word) (length v.now) first.now }
    requires second { AreEnd (length circuit.old.nodes) (length first.now.word) (length v.now) second.now }
    ensures made { IfOk result (λ gate. (gate, circuit.new.nodes) ≡ mode_made circuit.old.nodes u.now v.now first.now second.now) }
    ensures there { IfOk result (λ gate. LeavesGate circuit.old.nodes circuit.new.nodes gate) }
{
    let first_done = done(circuit, first)?;
    let second_done = done(circuit, second)?;
    let apart = seen_apart(alloc, circuit, u, v, first, second)?;
    let differ = or(circuit, circuit.not(first_done), apart)?;
    and(circuit, second_done, differ)
}

/// One of both is done; or both are, and leave different things.
fn either(
    alloc: Global,
    circuit: &mut Circuit,
    u: &Unknowns,
    v: &Bits,
    first: &End,
    second: &End,
) -> Result<Gate, AllocError>
    requires unknowns { AreUnknowns (length circuit.old.nodes) (length v.now) u.now }
    requires usable { AreBits (length circuit.old.nodes) (length v.now) v.now }
    requires first { AreEnd (length circuit.old.nodes) (length first.now.word) (length v.now) first.now }
    requires second { AreEnd (length circuit.old.nodes) (length first.now.word) (length v.now) second.now }
    ensures made { IfOk result (λ gate. (gate, circuit.new.nodes) ≡ either_made circuit.old.nodes u.now v.now first.now second.now) }
    ensures there { IfOk result (λ gate. LeavesGate circuit.old.nodes circuit.new.nodes gate) }
{
    let first_done = done(circuit, first)?;
    let second_done = done(circuit, second)?;
    let apart = seen_apart(alloc, circuit, u, v, first, second)?;
    let one = xor(circuit, first_done, second_done)?;
    let two = and(circuit, first_done, second_done)?;
    let differ = and(circuit, two, apart)?;
    or(circuit, one, differ)
}

/// Both runs end as the kind asks.
pub fn ends(
    alloc: Global,
    circuit: &mut Circuit,
    kind: Kind,
    u: &Unknowns,
    v: &Bits,
    both: &BothEnds,
) -> Result<Gate, AllocError>
    requires unknowns { AreUnknowns (length circuit.old.nodes) (length v.now) u.now }
    requires usable { AreBits (length circuit.old.nodes) (length v.now) v.now }
    requires first { AreEnd (length circuit.old.nodes) (length both.now.first.word) (length v.now) both.now.first }
    requires second { AreEnd (length circuit.old.nodes) (length both.now.first.word) (length v.now) both.now.second }
    ensures made { IfOk result (λ gate. (gate, circuit.new.nodes) ≡ ends_made kind circuit.old.nodes u.now v.now both.now.first both.now.second) }
    ensures there { IfOk result (λ gate. LeavesGate circuit.old.nodes circuit.new.nodes gate) }
{
    let (first, second) = (&both.first, &both.second);
    match kind {
        Kind::Privileged => broken(circuit, first, second),
        Kind::Control | Kind::UControl => control(circuit, u, first),
        Kind::ModeDep => mode(alloc, circuit, u, v, first, second),
        Kind::Location | Kind::Bound | Kind::ULocation | Kind::UBound => {
            either(alloc, circuit, u, v, first, second)
        }
    }
}

/// How one run ends, over cells under no write, which it leaves so.
fn end_of(
    alloc: Global,
    m: &Machine,
    instr: usize,
    circuit: &mut Circuit,
    touched: &mut Touched,
    regs: &Regs,
    compared: &Bits,
) -> Result<End, AllocError>
    requires instr { instr < length m.now.desc.instrs }
    requires view { touched.old ≡ view_for m.now.desc touched.old.cells [] }
    requires over { IsOver circuit.old.nodes touched.old }
    requires regs { AreRegs (length circuit.old.nodes) m.now.desc.address regs.now }
    requires compared { AreBits (length circuit.old.nodes) m.now.desc.address compared.now }
    ensures made { IfOk result (λ e. (i : Instrs) → slice_get m.now.desc.instrs instr ≡ Some i → IsEnded (end_made m.now.desc i regs.now compared.now circuit.old.nodes touched.old.cells) e circuit.new.nodes touched.new.cells) }
    ensures view { OnOk result (touched.new ≡ view_for m.now.desc touched.new.cells []) }
    ensures over { OnOk result (IsOver circuit.new.nodes touched.new) }
    ensures there { IfOk result (λ e. AreEnd (length circuit.new.nodes) m.now.desc.word m.now.desc.address e) }
    ensures kept { OnOk result (GrowsTo circuit.old.nodes circuit.new.nodes) }
{
    let outcome = run_symbolic(alloc, m, instr, circuit, touched, regs)?;
    let word = touched.touch(circuit, compared)?;
    touched.rewind();
    let SymOutcome {
        mem_trap,
        trap,
        mode,
        p,
        l,
        b,
        writes: _,
    } = outcome;
    Ok(End {
        mem_trap,
        trap,
        mode,
        p,
        l,
        b,
        word,
    })
}

/// How both runs end, over cells under no write, which they leave so.
pub fn both(
    alloc: Global,
    m: &Machine,
    instr: usize,
    circuit: &mut Circuit,
    touched: &mut Touched,
    u: &Unknowns,
    v: &Bits,
) -> Result<BothEnds, AllocError>
    requires instr { instr < length m.now.desc.instrs }
    requires view { touched.old ≡ view_for m.now.desc touched.old.cells [] }
    requires over { IsOver circuit.old.nodes touched.old }
    requires unknowns { AreUnknowns (length circuit.old.nodes) m.now.desc.address u.now }
    requires usable { AreBits (length circuit.old.nodes) m.now.desc.address v.now }
    ensures made { IfOk result (λ e. (i : Instrs) → slice_get m.now.desc.instrs instr ≡ Some i → AreBoth (both_made m.now.desc i u.now v.now circuit.old.nodes touched.old.cells) e circuit.new.nodes touched.new.cells) }
    ensures view { OnOk result (touched.new ≡ view_for m.now.desc touched.new.cells []) }
    ensures over { OnOk result (IsOver circuit.new.nodes touched.new) }
    ensures there { IfOk result (λ e. AreEnds (length circuit.new.nodes) m.now.desc.word m.now.desc.address e) }
    ensures kept { OnOk result (GrowsTo circuit.old.nodes circuit.new.nodes) }
{
    let first = first_end(alloc, m, instr, circuit, touched, u, v)?;
    let second = second_end(alloc, m, instr, circuit, touched, u, v)?;
    Ok(BothEnds { first, second })
}

/// How the run from the first state ends, over cells under no write, which it leaves so.
fn first_end(
    alloc: Global,
    m: &Machine,
    instr: usize,
    circuit: &mut Circuit,
    touched: &mut Touched,
    u: &Unknowns,
    v: &Bits,
) -> Result<End, AllocError>
    requires instr { instr < length m.now.desc.instrs }
    requires view { touched.old ≡ view_for m.now.desc touched.old.cells [] }
    requires over { IsOver circuit.old.nodes touched.old }
    requires unknowns { AreUnknowns (length circuit.old.nodes) m.now.desc.address u.now }
    requires usable { AreBits (length circuit.old.nodes) m.now.desc.address v.now }
    ensures made { IfOk result (λ e. (i : Instrs) → slice_get m.now.desc.instrs instr ≡ Some i → IsEnded (end_made m.now.desc i (first_regs u.now v.now) u.now.compared circuit.old.nodes touched.old.cells) e circuit.new.nodes touched.new.cells) }
    ensures view { OnOk result (touched.new ≡ view_for m.now.desc touched.new.cells []) }
    ensures over { OnOk result (IsOver circuit.new.nodes touched.new) }
    ensures there { IfOk result (λ e. AreEnd (length circuit.new.nodes) m.now.desc.word m.now.desc.address e) }
    ensures kept { OnOk result (GrowsTo circuit.old.nodes circuit.new.nodes) }
{
    let regs = first_regs(alloc, u, v)?;
    end_of(alloc, m, instr, circuit, touched, &regs, &u.compared)
}

/// How the run from the second state ends, over cells under no write, which it leaves so.
fn second_end(
    alloc: Global,
    m: &Machine,
    instr: usize,
    circuit: &mut Circuit,
    touched: &mut Touched,
    u: &Unknowns,
    v: &Bits,
) -> Result<End, AllocError>
    requires instr { instr < length m.now.desc.instrs }
    requires view { touched.old ≡ view_for m.now.desc touched.old.cells [] }
    requires over { IsOver circuit.old.nodes touched.old }
    requires unknowns { AreUnknowns (length circuit.old.nodes) m.now.desc.address u.now }
    requires usable { AreBits (length circuit.old.nodes) m.now.desc.address v.now }
    ensures made { IfOk result (λ e. (i : Instrs) → slice_get m.now.desc.instrs instr ≡ Some i → IsEnded (end_made m.now.desc i (second_regs u.now v.now) u.now.compared circuit.old.nodes touched.old.cells) e circuit.new.nodes touched.new.cells) }
    ensures view { OnOk result (touched.new ≡ view_for m.now.desc touched.new.cells []) }
    ensures over { OnOk result (IsOver circuit.new.nodes touched.new) }
    ensures there { IfOk result (λ e. AreEnd (length circuit.new.nodes) m.now.desc.word m.now.desc.address e) }
    ensures kept { OnOk result (GrowsTo circuit.old.nodes circuit.new.nodes) }
{
    let regs = second_regs(alloc, u, v)?;
    end_of(alloc, m, instr, circuit, touched, &regs, &u.compared)
}

/// The registers of the first state.
fn first_regs(alloc: Global, u: &Unknowns, v: &Bits) -> Result<Regs, AllocError>
    ensures { IfOk result (λ r. r ≡ first_regs u.now v.now) }
{
    registers(alloc, &u.first_mode, &u.p, &u.first_l, &u.first_b, v)
}

/// The registers of the second.
fn second_regs(alloc: Global, u: &Unknowns, v: &Bits) -> Result<Regs, AllocError>
    ensures { IfOk result (λ r. r ≡ second_regs u.now v.now) }
{
    registers(alloc, &u.second_mode, &u.p, &u.second_l, &u.second_b, v)
}

/// These registers once more.
fn registers(
    alloc: Global,
    mode: &Bits,
    p: &Bits,
    l: &Bits,
    b: &Bits,
    v: &Bits,
) -> Result<Regs, AllocError>
    ensures { IfOk result (λ r. r ≡ record { mode = mode.now; p = p.now; l = l.now; b = b.now; v = v.now }) }
{
    let mode = Bits::from_slice(alloc, mode.as_slice())?;
    let p = Bits::from_slice(alloc, p.as_slice())?;
    let l = Bits::from_slice(alloc, l.as_slice())?;
    let b = Bits::from_slice(alloc, b.as_slice())?;
    let v = Bits::from_slice(alloc, v.as_slice())?;
    Ok(Regs { mode, p, l, b, v })
}
