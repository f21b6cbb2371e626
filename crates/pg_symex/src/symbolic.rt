//! Whole runs: the fetch, and the body of an instruction.

ghost use Rattle.std.specs.Prelude.{◌≡◌, ◌+◌, ◌^◌, ◌<◌, ◌≤◌, List, [], length, slice_get, Some, IfOk, OnOk};
ghost use Rattle.pg_circuit.specs.declared.node.Node.{Node};
ghost use Rattle.pg_circuit.specs.Grown.{GrowsTo};
ghost use Rattle.pg_word.specs.Bits.{IsWidth};
ghost use Rattle.pg_ast.specs.declared.tree.Instr.{Instr as Instrs};
ghost use Rattle.pg_lang_valid.specs.Limits.{instr_tally};
ghost use Rattle.pg_cells.specs.Over.{IsOver};
ghost use Rattle.pg_cells.specs.View.{View};
ghost use Rattle.pg_vec.specs.Strings.{add_made};
ghost use Rattle.pg_symex.specs.There.{AreRegs, AreBits};
ghost use Rattle.pg_symex.specs.Exprs.{literal_bits};
ghost use Rattle.pg_symex.specs.Body.{run_begun, body_made, run_made};
ghost use Rattle.pg_symex.specs.Calls.{AddsFew, stmts_cost};
ghost use Rattle.pg_symex.specs.Runs.{RunsAs};
ghost use Rattle.pg_symex.specs.RunView.{run_as};
ghost use Rattle.pg_symex.specs.Outcome.{IsOutcome, MayRun};

use crate::entry::Entry;
use crate::guards::Guards;
use crate::lets::Lets;
use crate::literal::literal;
use crate::regs::{Next, Regs};
use crate::run::Run;
use crate::stmts::in_order;
use pg_ast::Instr;
use pg_cells::{Touched, Write};
use pg_circuit::{Circuit, Gate};
use pg_lang_meaning::Decoder;
use pg_mach_ready::Machine;
use pg_vec::{Bits, ops};
use std::alloc::{AllocError, Global};

/// The writes of a run, in order.
pub type SymWriteList = Vec<Write>;

/// What a run leaves. Where both traps are false the run is done, and the registers and the writes are what it leaves.
#[derive(Drop)]
pub struct SymOutcome {
    /// Whether an access outside the window ended the body.
    pub mem_trap: Gate,
    /// Whether `trap;` ended it.
    pub trap: Gate,
    /// The mode that follows.
    pub mode: Bits,
    /// The address of the instruction that follows.
    pub p: Bits,
    /// The relocation that follows.
    pub l: Bits,
    /// The bound that follows.
    pub b: Bits,
    /// The writes, in order.
    pub writes: SymWriteList,
}

/// Makes the run of an instruction, of a number below `count()`, from registers over cells of its machine: the word at P is
/// touched first, so that a store over P does not change the word that is executed, and its fields are those of the
/// instruction's pattern, whatever the word is. That P is usable, and that the word matches the pattern, is asked elsewhere.
///
/// Where no write stood, the outcome tells for all inputs, and every storage that agrees with the cells, what the body comes
/// to (`runs`). The error is out of memory: the circuit may hold further gates, and the cells are only to be dropped.
///
/// In any case the nodes that were there stay, and where at most 64 writes stood, at most `2^27` are added (`few`): an
/// instruction has at most 8 accesses, so never more than 72 writes stand; each of its 1,024 expressions costs at most
/// `3 * 2^15` nodes, each of its 200 statements `2^16` beside them, and the fetch with P + 1 `2^16`.
pub fn run_symbolic(
    alloc: Global,
    m: &Machine,
    instr: usize,
    c: &mut Circuit,
    t: &mut Touched,
    regs: &Regs,
) -> Result<SymOutcome, AllocError>
    requires instr { instr < length m.now.desc.instrs }
    requires word_width { t.old.w ≡ m.now.desc.word }
    requires address_width { t.old.a ≡ m.now.desc.address }
    requires over { IsOver c.old.nodes t.old }
    requires regs { AreRegs (length c.old.nodes) m.now.desc.address regs.now }
    ensures made { IfOk result (λ o. (i : Instrs) → slice_get m.now.desc.instrs instr ≡ Some i → IsOutcome (run_made m.now.desc i regs.now c.old.nodes t.old.cells t.old.writes) c.new.nodes t.new o) }
    ensures runs { (i : Instrs) → slice_get m.now.desc.instrs instr ≡ Some i → t.old.writes ≡ [] → RunsAs m.now.desc i regs.now c.old.nodes t.old.cells (run_made m.now.desc i regs.now c.old.nodes t.old.cells []) }
    ensures view { OnOk result (t.new ≡ record t.old { cells = t.new.cells; writes = t.new.writes }) }
    ensures kept { GrowsTo c.old.nodes c.new.nodes }
    ensures few { length t.old.writes ≤ 64 → length c.new.nodes ≤ length c.old.nodes + 2 ^ 27 }
{
    let instrs = m.desc.instrs.as_slice();
    run_instr(alloc, m, &instrs[instr], m.decoder(instr), c, t, regs)
}

/// The same of an instruction and its decoder.
fn run_instr(
    alloc: Global,
    m: &Machine,
    instr: &Instr,
    decoder: &Decoder,
    c: &mut Circuit,
    t: &mut Touched,
    regs: &Regs,
) -> Result<SymOutcome, AllocError>
    requires may { MayRun m.now.desc instr.now decoder.now c.old.nodes t.old regs.now }
    ensures made { IfOk result (λ o. IsOutcome (run_made m.now.desc instr.now regs.now c.old.nodes t.old.cells t.old.writes) c.new.nodes t.new o) }
    ensures view { OnOk result (t.new ≡ record t.old { cells = t.new.cells; writes = t.new.writes }) }
    ensures kept { GrowsTo c.old.nodes c.new.nodes }
    ensures few { AddsFew t.old.writes (instr_tally instr.now).accesses c.old.nodes c.new.nodes (2 ^ 16 + stmts_cost (instr_tally instr.now)) }
{
    let shape = m.shape();
    let word = t.touch(c, &regs.p)?;
    let one = literal(alloc, 1, u64::from(shape.a))?;
    let p = ops::add(alloc, c, &regs.p, &one)?;
    let mut run = begin(alloc, c, regs, p)?;
    let at = Entry {
        w: shape.w,
        a: shape.a,
        regs,
        pattern: instr.pattern.as_bytes(),
        decoder,
        word: &word,
    };
    in_order(alloc, &at, c, t, &mut run, instr.body.as_slice())?;
    outcome(alloc, t, run)
}

/// A body begins with the next P, and with no let; its place is reached, and no trap has ended it.
fn begin<'m>(alloc: Global, c: &Circuit, regs: &Regs, p: Bits) -> Result<Run<'m>, AllocError>
    ensures { IfOk result (λ r. (nodes : List Node) (v : View) → run_as nodes v r ≡ run_begun regs.now p nodes v.cells v.writes) }
{
    let mode = Bits::from_slice(alloc, regs.mode.as_slice())?;
    let l = Bits::from_slice(alloc, regs.l.as_slice())?;
    let b = Bits::from_slice(alloc, regs.b.as_slice())?;
    let guards = Guards {
        live: c.constant(true),
        mem_trap: c.constant(false),
    };
    Ok(Run {
        guards,
        trap: c.constant(false),
        next: Next { mode, p, l, b },
        lets: Lets::new(alloc),
    })
}

/// What is left of a run. The error is out of memory for the writes.
fn outcome(alloc: Global, t: &Touched, run: Run<'_>) -> Result<SymOutcome, AllocError>
    ensures { IfOk result (λ o. (nodes : List Node) → IsOutcome (run_as nodes t.now run.entry) nodes t.now o) }
{
    let writes = copied(alloc, t.writes())?;
    Ok(SymOutcome {
        mem_trap: run.guards.mem_trap,
        trap: run.trap,
        mode: run.next.mode,
        p: run.next.p,
        l: run.next.l,
        b: run.next.b,
        writes,
    })
}

/// The same writes once more.
fn copied(alloc: Global, writes: &[Write]) -> Result<SymWriteList, AllocError>
    ensures { IfOk result (λ all. all.items ≡ writes.now) }
{
    let mut all = Vec::new(alloc);
    for write in writes {
        let copy = copy_of(alloc, write)?;
        all.push(copy)?;
    }
    Ok(all)
}

/// The same write once more.
fn copy_of(alloc: Global, write: &Write) -> Result<Write, AllocError>
    ensures { IfOk result (λ copy. copy ≡ write.now) }
{
    let address = Bits::from_slice(alloc, write.address.as_slice())?;
    let value = Bits::from_slice(alloc, write.value.as_slice())?;
    Ok(Write {
        guard: write.guard,
        address,
        value,
    })
}
