//! Questions: the clauses that two states show a kind of an instruction.

ghost use Rattle.std.specs.Prelude.{◌≡◌, ◌∷◌, ◌<◌, ◌^◌, Bool, List, [], length, slice_get, Some, IfOk, OnOk};
ghost use Rattle.pg_circuit.specs.declared.node.Node.{Node};
ghost use Rattle.pg_circuit.specs.declared.node.Node.TheVariants.{Constant};
ghost use Rattle.pg_circuit.specs.Values.{IsThere};
ghost use Rattle.pg_cnf.specs.Encoded.{clauses_of};
ghost use Rattle.pg_ast.specs.declared.tree.Instr.{Instr as Instrs};
ghost use Rattle.pg_cells.specs.Made.{touch_made, cells_after};
ghost use Rattle.pg_cells.specs.Over.{IsOver};
ghost use Rattle.pg_symex.specs.There.{AreBits};
ghost use Rattle.pg_ask.specs.There.{AreUnknowns, LeavesBits, LeavesGate};
ghost use Rattle.pg_ask.specs.Unknowns.{unknowns_made};
ghost use Rattle.pg_ask.specs.Fits.{fits_made};
ghost use Rattle.pg_ask.specs.Ends.{view_for, both_made};
ghost use Rattle.pg_ask.specs.Ended.{AreEnds, IsRoot, AreWritten};
ghost use Rattle.pg_ask.specs.Question.{root_made, question};
ghost use Rattle.pg_ask.specs.Asked.{IsAsked, IsQuestionOf, Decides};

use crate::ends::{BothEnds, both, ends};
use crate::fits::{Fits, fit};
use crate::unknowns::{Unknowns, unknowns_of};
use pg_cells::{Cell, Touched};
use pg_circuit::{Circuit, Gate};
use pg_cnf::{Cnf, encode};
use pg_mach_ready::Machine;
use pg_type::Kind;
use pg_vec::Bits;
use pg_vec::gate::and;
use std::alloc::{AllocError, Global};

/// A question: whether two states show a kind of an instruction. Its clauses are numbered from 1 in their order.
#[derive(Drop)]
pub struct Asked<'m> {
    machine: &'m Machine,
    instr: usize,
    kind: Kind,
    cnf: Cnf,
    unknowns: Unknowns,
    usable: Bits,
    touched: Touched,
    pub ghost asked: { IsAsked machine.now.desc instr kind cnf.clauses unknowns usable touched.cells },
}

impl<'m> Asked<'m> {
    /// The clauses. They can all be true exactly where two states show the kind.
    pub fn cnf(&self) -> &Cnf
        ensures { result.now ≡ self.now.cnf }
    {
        &self.cnf
    }

    /// The machine of whose description it is asked.
    pub fn machine(&self) -> &'m Machine
        ensures { result.now ≡ self.now.machine.now }
    {
        self.machine
    }

    /// The number of the instruction.
    pub fn instr(&self) -> usize
        ensures { result ≡ self.now.instr }
    {
        self.instr
    }

    /// The kind.
    pub fn kind(&self) -> Kind
        ensures { result ≡ self.now.kind }
    {
        self.kind
    }

    /// The registers and sizes of the two states, as gates.
    pub fn unknowns(&self) -> &Unknowns
        ensures { result.now ≡ self.now.unknowns }
    {
        &self.unknowns
    }

    /// How many cells are usable in both, as gates.
    pub fn usable(&self) -> &Bits
        ensures { result.now ≡ self.now.usable }
    {
        &self.usable
    }

    /// The cells that a run touched, in the order of the first touch.
    pub fn cells(&self) -> &[Cell]
        ensures { result.now ≡ self.now.touched.cells }
    {
        self.touched.cells()
    }
}

/// The question of an instruction, of a number below `count()`, and a kind: clauses that can all be true exactly where two
/// states of the machine, of sizes from 2 to q, show the kind (`Shows`, `pg_type`). It is the same at each call, and that of the
/// same description with causes or without (`causes`). Linear in the body, but that touched cells are compared in pairs. The
/// error is out of memory; a circuit of 2^29 nodes is more than there is room for.
pub fn ask<'m>(
    alloc: Global,
    machine: &'m Machine,
    instr: usize,
    kind: Kind,
) -> Result<Asked<'m>, AllocError>
    requires { instr < length machine.now.desc.instrs }
    ensures question { IfOk result (λ a. (i : Instrs) → slice_get machine.now.desc.instrs instr ≡ Some i → a.cnf.clauses ≡ question machine.now.desc i kind) }
    ensures causes { IfOk result (λ a. (i : Instrs) (causes : Bool) → slice_get machine.now.desc.instrs instr ≡ Some i → a.cnf.clauses ≡ question (record machine.now.desc { causes = causes }) i kind) }
    ensures exact { IfOk result (λ a. (i : Instrs) → slice_get machine.now.desc.instrs instr ≡ Some i → Decides machine.now.desc i kind a.cnf.clauses) }
    ensures variables { IfOk result (λ a. a.cnf.variables < 2 ^ 29) }
    ensures machine { IfOk result (λ a. a.machine.now ≡ machine.now) }
    ensures instr { IfOk result (λ a. a.instr ≡ instr) }
    ensures kind { IfOk result (λ a. a.kind ≡ kind) }
{
    let shape = machine.shape();
    let mut touched = Touched::new(alloc, shape.w, shape.a);
    let drawn = draw(alloc, machine, instr, kind, &mut touched)?;
    let Drawn {
        cnf,
        unknowns,
        usable,
    } = drawn;
    Ok(Asked {
        machine,
        instr,
        kind,
        cnf,
        unknowns,
        usable,
        touched,
    })
}

/// What is kept of a question beside the touched cells.
#[derive(Drop)]
struct Drawn {
    cnf: Cnf,
    unknowns: Unknowns,
    usable: Bits,
}

/// The question, over no touched cell, in a circuit of its own.
fn draw(
    alloc: Global,
    machine: &Machine,
    instr: usize,
    kind: Kind,
    touched: &mut Touched,
) -> Result<Drawn, AllocError>
    requires instr { instr < length machine.now.desc.instrs }
    requires view { touched.old ≡ view_for machine.now.desc [] [] }
    requires over { (nodes : List Node) → IsOver nodes touched.old }
    ensures made { IfOk result (λ q. (i : Instrs) → slice_get machine.now.desc.instrs instr ≡ Some i → IsQuestionOf machine.now.desc i kind q.cnf.clauses q.unknowns q.usable touched.new.cells) }
    ensures variables { IfOk result (λ q. q.cnf.variables < 2 ^ 29) }
{
    let mut circuit = Circuit::new(alloc)?;
    draw_in(alloc, machine, instr, kind, &mut circuit, touched)
}

/// The same in a circuit of the constant alone.
fn draw_in(
    alloc: Global,
    machine: &Machine,
    instr: usize,
    kind: Kind,
    circuit: &mut Circuit,
    touched: &mut Touched,
) -> Result<Drawn, AllocError>
    requires instr { instr < length machine.now.desc.instrs }
    requires nodes { circuit.old.nodes ≡ Constant ∷ [] }
    requires view { touched.old ≡ view_for machine.now.desc [] [] }
    requires over { (nodes : List Node) → IsOver nodes touched.old }
    ensures made { IfOk result (λ q. (i : Instrs) → slice_get machine.now.desc.instrs instr ≡ Some i → IsQuestionOf machine.now.desc i kind q.cnf.clauses q.unknowns q.usable touched.new.cells) }
    ensures variables { IfOk result (λ q. q.cnf.variables < 2 ^ 29) }
{
    let unknowns = unknowns_of(alloc, circuit, kind, machine.shape().a)?;
    let pair = show(alloc, machine, instr, kind, circuit, touched, &unknowns)?;
    let (cnf, usable) = pair;
    Ok(Drawn {
        cnf,
        unknowns,
        usable,
    })
}

/// The clauses, and how many cells are usable, of unknowns that are all that was made so far.
fn show(
    alloc: Global,
    machine: &Machine,
    instr: usize,
    kind: Kind,
    circuit: &mut Circuit,
    touched: &mut Touched,
    u: &Unknowns,
) -> Result<(Cnf, Bits), AllocError>
    requires instr { instr < length machine.now.desc.instrs }
    requires view { touched.old ≡ view_for machine.now.desc [] [] }
    requires over { IsOver circuit.old.nodes touched.old }
    requires unknowns { AreUnknowns (length circuit.old.nodes) machine.now.desc.address u.now }
    requires begun { (u.now, circuit.old.nodes) ≡ unknowns_made kind machine.now.desc.address (Constant ∷ []) }
    ensures made { IfOk result (λ q. (i : Instrs) → slice_get machine.now.desc.instrs instr ≡ Some i → IsQuestionOf machine.now.desc i kind q.0.clauses u.now q.1 touched.new.cells) }
    ensures variables { IfOk result (λ q. q.0.variables < 2 ^ 29) }
{
    let fits = fit_at_p(alloc, machine, instr, kind, circuit, touched, u)?;
    let Fits { usable, gate } = fits;
    let cnf = clauses(
        alloc, machine, instr, kind, circuit, touched, u, &usable, gate,
    )?;
    Ok((cnf, usable))
}

/// The clauses, from the gate that all of it fits.
fn clauses(
    alloc: Global,
    machine: &Machine,
    instr: usize,
    kind: Kind,
    circuit: &mut Circuit,
    touched: &mut Touched,
    u: &Unknowns,
    v: &Bits,
    gate: Gate,
) -> Result<Cnf, AllocError>
    requires instr { instr < length machine.now.desc.instrs }
    requires view { touched.old ≡ view_for machine.now.desc touched.old.cells [] }
    requires over { IsOver circuit.old.nodes touched.old }
    requires unknowns { AreUnknowns (length circuit.old.nodes) machine.now.desc.address u.now }
    requires usable { AreBits (length circuit.old.nodes) machine.now.desc.address v.now }
    requires gate { IsThere (length circuit.old.nodes) gate }
    ensures made { IfOk result (λ cnf. (i : Instrs) → slice_get machine.now.desc.instrs instr ≡ Some i → AreWritten kind u.now v.now gate (both_made machine.now.desc i u.now v.now circuit.old.nodes touched.old.cells) cnf.clauses touched.new.cells) }
    ensures variables { IfOk result (λ cnf. cnf.variables < 2 ^ 29) }
{
    let root = end_so(alloc, machine, instr, kind, circuit, touched, u, v, gate)?;
    written(alloc, circuit, root)
}

/// How many nodes a circuit has at most whose clauses are written.
const NODES_AT_MOST: usize = 1 << 29;

/// The clauses that say that the root is true. The error is out of memory; a circuit of 2^29 nodes is more than there is room
/// for.
fn written(alloc: Global, circuit: &Circuit, root: Gate) -> Result<Cnf, AllocError>
    requires { IsThere (length circuit.now.nodes) root }
    ensures clauses { IfOk result (λ cnf. cnf.clauses ≡ clauses_of circuit.now.nodes root) }
    ensures variables { IfOk result (λ cnf. cnf.variables < 2 ^ 29) }
{
    if circuit.len() >= NODES_AT_MOST {
        return Err(AllocError);
    }
    encode(alloc, circuit, root)
}

/// What fits, with the word at P, whose cell is touched first of all.
fn fit_at_p(
    alloc: Global,
    machine: &Machine,
    instr: usize,
    kind: Kind,
    circuit: &mut Circuit,
    touched: &mut Touched,
    u: &Unknowns,
) -> Result<Fits, AllocError>
    requires instr { instr < length machine.now.desc.instrs }
    requires view { touched.old ≡ view_for machine.now.desc [] [] }
    requires over { IsOver circuit.old.nodes touched.old }
    requires unknowns { AreUnknowns (length circuit.old.nodes) machine.now.desc.address u.now }
    ensures made { IfOk result (λ f. (i : Instrs) → slice_get machine.now.desc.instrs instr ≡ Some i → let t = touch_made circuit.old.nodes touched.old u.now.p in ((f.usable, f.gate), circuit.new.nodes) ≡ fits_made machine.now.desc i kind u.now t.0 t.1) }
    ensures cells { OnOk result (touched.new ≡ record touched.old { cells = cells_after circuit.old.nodes touched.old.w touched.old.cells u.now.p }) }
    ensures over { OnOk result (IsOver circuit.new.nodes touched.new) }
    ensures there { IfOk result (λ f. LeavesBits circuit.old.nodes circuit.new.nodes machine.now.desc.address f.usable) }
    ensures gate { IfOk result (λ f. IsThere (length circuit.new.nodes) f.gate) }
{
    let word = touched.touch(circuit, &u.p)?;
    let instrs = machine.desc.instrs.as_slice();
    fit(alloc, circuit, machine, &instrs[instr], kind, u, &word)
}

/// All of it, from what fits on: the gate that it does, that both runs end as the kind asks, and that the touched cells are those of one
/// storage.
fn end_so(
    alloc: Global,
    machine: &Machine,
    instr: usize,
    kind: Kind,
    circuit: &mut Circuit,
    touched: &mut Touched,
    u: &Unknowns,
    v: &Bits,
    gate: Gate,
) -> Result<Gate, AllocError>
    requires instr { instr < length machine.now.desc.instrs }
    requires view { touched.old ≡ view_for machine.now.desc touched.old.cells [] }
    requires over { IsOver circuit.old.nodes touched.old }
    requires unknowns { AreUnknowns (length circuit.old.nodes) machine.now.desc.address u.now }
    requires usable { AreBits (length circuit.old.nodes) machine.now.desc.address v.now }
    requires gate { IsThere (length circuit.old.nodes) gate }
    ensures made { IfOk result (λ root. (i : Instrs) → slice_get machine.now.desc.instrs instr ≡ Some i → IsRoot kind u.now v.now gate (both_made machine.now.desc i u.now v.now circuit.old.nodes touched.old.cells) root circuit.new.nodes touched.new.cells) }
    ensures there { IfOk result (λ root. IsThere (length circuit.new.nodes) root) }
{
    let ended = both(alloc, machine, instr, circuit, touched, u, v)?;
    root(alloc, circuit, touched, kind, u, v, gate, &ended)
}

/// All of it: what fits, that both runs end as the kind asks, and that the touched cells are those of one storage.
fn root(
    alloc: Global,
    circuit: &mut Circuit,
    touched: &Touched,
    kind: Kind,
    u: &Unknowns,
    v: &Bits,
    gate: Gate,
    both: &BothEnds,
) -> Result<Gate, AllocError>
    requires over { IsOver circuit.old.nodes touched.now }
    requires unknowns { AreUnknowns (length circuit.old.nodes) (length v.now) u.now }
    requires usable { AreBits (length circuit.old.nodes) (length v.now) v.now }
    requires gate { IsThere (length circuit.old.nodes) gate }
    requires ends { AreEnds (length circuit.old.nodes) touched.now.w (length v.now) both.now }
    ensures made { IfOk result (λ root. (root, circuit.new.nodes) ≡ root_made kind u.now v.now gate circuit.old.nodes touched.now.cells both.now.first both.now.second) }
    ensures there { IfOk result (λ root. LeavesGate circuit.old.nodes circuit.new.nodes root) }
{
    let ended = ends(alloc, circuit, kind, u, v, both)?;
    let whole = touched.consistent(circuit)?;
    let shown = and(circuit, gate, ended)?;
    and(circuit, shown, whole)
}
