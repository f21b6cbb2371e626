//! Two runs of one instruction over one storage, as gates.
//!
//! Both runs have the same registers but for the mode, which is an input of its own in each; and both touch the cells of the
//! same storage. The last gates say that the cells are those of one storage.

ghost use Rattle.std.specs.Prelude.{◌≡◌, ◌<◌, [], length, IsTrue, OnOk};
ghost use Rattle.pg_vec.specs.There.{AreThere};
ghost use Rattle.pg_cells.specs.Over.{IsOver};
ghost use Rattle.pg_symex.specs.There.{AreBits, AreRegs};

use crate::strings::{inputs, is_there};
use pg_cells::Touched;
use pg_circuit::Circuit;
use pg_mach_ready::Machine;
use pg_symex::{Regs, run_symbolic};
use pg_vec::Bits;
use std::alloc::{AllocError, Global};

/// What is counted of a circuit.
#[derive(Clone, Copy)]
pub struct Counts {
    /// All its nodes, the inputs and the constant among them.
    pub nodes: usize,
    /// Its inputs.
    pub inputs: usize,
    /// The cells that are touched.
    pub cells: usize,
}

/// The counts of the circuit of an instruction, of a number below `count()`.
pub fn counted(alloc: Global, machine: &Machine, instr: usize) -> Result<Counts, AllocError>
    requires { instr < length machine.now.desc.instrs }
{
    let shape = machine.shape();
    let mut circuit = Circuit::new(alloc)?;
    let mut touched = Touched::new(alloc, shape.w, shape.a);
    let mut regs = Regs {
        mode: inputs(alloc, &mut circuit, 1)?,
        p: inputs(alloc, &mut circuit, shape.a)?,
        l: inputs(alloc, &mut circuit, shape.a)?,
        b: inputs(alloc, &mut circuit, shape.a)?,
        v: inputs(alloc, &mut circuit, shape.a)?,
    };
    let other_mode = inputs(alloc, &mut circuit, 1)?;
    run(alloc, machine, instr, &mut circuit, &mut touched, &regs)?;
    touched.rewind();
    regs.mode = other_mode;
    run(alloc, machine, instr, &mut circuit, &mut touched, &regs)?;
    touched.consistent(&mut circuit)?;
    Ok(Counts {
        nodes: circuit.len(),
        inputs: circuit.inputs(),
        cells: touched.cells().len(),
    })
}

/// One run of an instruction, over cells of its machine without a write; they stay such. That registers have the widths of the machine is
/// tested, since no type says it, and answered the same way where they have not.
fn run(
    alloc: Global,
    machine: &Machine,
    instr: usize,
    circuit: &mut Circuit,
    touched: &mut Touched,
    regs: &Regs,
) -> Result<(), AllocError>
    requires instr { instr < length machine.now.desc.instrs }
    requires word_width { touched.old.w ≡ machine.now.desc.word }
    requires address_width { touched.old.a ≡ machine.now.desc.address }
    requires over { IsOver circuit.old.nodes touched.old }
    requires no_write { touched.old.writes ≡ [] }
    ensures over { OnOk result (IsOver circuit.new.nodes touched.new) }
    ensures word_width { OnOk result (touched.new.w ≡ touched.old.w) }
    ensures address_width { OnOk result (touched.new.a ≡ touched.old.a) }
{
    if !are_regs(circuit, machine.shape().a, regs) {
        return Err(AllocError);
    }
    let _outcome = run_symbolic(alloc, machine, instr, circuit, touched, regs)?;
    Ok(())
}

/// Whether registers are of the circuit and of these widths.
fn are_regs(circuit: &Circuit, a: u32, regs: &Regs) -> bool
    ensures { IsTrue result → AreRegs (length circuit.now.nodes) a regs.now }
{
    are_bits(circuit, 1, &regs.mode)
        && are_bits(circuit, a, &regs.p)
        && are_bits(circuit, a, &regs.l)
        && are_bits(circuit, a, &regs.b)
        && are_bits(circuit, a, &regs.v)
}

/// Whether a string is of the circuit and of this width.
fn are_bits(circuit: &Circuit, width: u32, bits: &Bits) -> bool
    ensures { IsTrue result → AreBits (length circuit.now.nodes) width bits.now }
{
    bits.width() == width && is_there(circuit, bits)
}
