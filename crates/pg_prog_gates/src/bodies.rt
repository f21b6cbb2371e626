//! What two runs of each instruction of a description are as gates.
//!
//! A question about an instruction is asked of a circuit that holds two runs of its body over one storage. Here such circuits
//! are built (`runs`) and counted.

ghost use Rattle.std.specs.Prelude.{◌<◌, length};

use crate::Fault;
use crate::runs::{Counts, counted};
use pg_edge::{LoadFault, Shelf};
use pg_io_host::DirShelf;
use pg_mach_ready::{Machine, check};
use pg_read::{DESC_BYTES, DescFault, read_desc};
use std::alloc::Global;
use std::rt::Files;
use std::str;

/// Writes a line for each instruction of the description of a file.
pub fn show_bodies(rt: &HostRuntime, name: &str) -> Result<(), Fault> {
    let machine = load(rt.alloc(), rt, name)?;
    for instr in 0..machine.count() {
        show(rt, &machine, instr)?;
    }
    Ok(())
}

/// The machine of a file.
fn load<R: Files>(alloc: Global, system: &R, name: &str) -> Result<Machine, Fault> {
    let mut bytes = Vec::new(alloc);
    match DirShelf::new(system).load(name, DESC_BYTES as u64, &mut bytes) {
        Ok(()) => {}
        Err(LoadFault::Missing) => return Err(Fault::Missing),
        Err(LoadFault::Long) => return Err(Fault::Text(DescFault::Long)),
        Err(LoadFault::Failed) => return Err(Fault::Unread),
        Err(LoadFault::Memory) => return Err(Fault::Memory),
    }
    let desc = read_desc(alloc, bytes.as_slice()).map_err(Fault::Text)?;
    match check(alloc, desc) {
        Ok(machine) => Ok(machine),
        Err((_, fault)) => Err(Fault::Invalid(fault)),
    }
}

/// The line of an instruction.
fn show(rt: &HostRuntime, machine: &Machine, instr: usize) -> Result<(), Fault>
    requires { instr < length machine.now.desc.instrs }
{
    let Counts {
        nodes,
        inputs,
        cells,
    } = counted(rt.alloc(), machine, instr)?;
    let name = str::from_utf8(machine.name(instr)).unwrap_or("");
    println!(rt; "{name} nodes {nodes} inputs {inputs} cells {cells}").map_err(|_| Fault::Output)
}
