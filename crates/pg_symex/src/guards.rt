//! The guards of a place of a body: whether it is reached, and whether a memory trap ended the body before.

ghost use Rattle.std.specs.Prelude.{◌≡◌, ◌+◌, ◌^◌, ◌<◌, length, List, OnOk};
ghost use Rattle.pg_cells.specs.declared.cell.Cell.{Cell};
ghost use Rattle.pg_vec.specs.AddsNodes.{AddsNodes};
ghost use Rattle.pg_symex.specs.Exprs.{bit_0, guarded_made, access_made};
ghost use Rattle.pg_symex.specs.EntryView.{entry_as};
ghost use Rattle.pg_symex.specs.FlowView.{flow_as};
ghost use Rattle.pg_symex.specs.There.{AreBits};

use crate::entry::Entry;
use pg_circuit::{Circuit, Gate};
use pg_vec::gate::{and, or};
use pg_vec::{Bits, ops};
use std::alloc::{AllocError, Global};

/// Whether a place of a body is reached, and whether a memory trap ended the body before it.
#[derive(Clone, Copy, Debug)]
pub struct Guards {
    pub live: Gate,
    pub mem_trap: Gate,
}

/// The gate of bit 0.
pub fn bit_0(bits: &Bits) -> Gate
    ensures { result ≡ bit_0 bits.now }
{
    bits.as_slice()[0]
}

/// The guards after an access that is usable where a gate is true.
#[tactic(auto, unfolding(crate::specs::Exprs::guarded_made))]
fn guard(circuit: &mut Circuit, guards: &mut Guards, usable: Gate) -> Result<(), AllocError>
    requires live { guards.old.live.number < length circuit.old.nodes }
    requires mem_trap { guards.old.mem_trap.number < length circuit.old.nodes }
    requires usable { usable.number < length circuit.old.nodes }
    ensures made { OnOk result ((cells : List Cell) → flow_as circuit.new.nodes cells guards.new ≡ guarded_made (flow_as circuit.old.nodes cells guards.old) usable circuit.old.nodes) }
    ensures kept { AddsNodes circuit.old.nodes circuit.new.nodes 3 }
{
    let unusable = circuit.not(usable);
    let outside = and(circuit, guards.live, unusable)?;
    let mem_trap = or(circuit, guards.mem_trap, outside)?;
    let live = and(circuit, guards.live, usable)?;
    *guards = Guards { live, mem_trap };
    Ok(())
}

/// The guards after an access to an address, which is usable where it is below v.
#[tactic(auto, unfolding(crate::specs::Exprs::access_made))]
pub fn access(
    alloc: Global,
    at: &Entry<'_>,
    circuit: &mut Circuit,
    guards: &mut Guards,
    address: &Bits,
) -> Result<(), AllocError>
    requires live { guards.old.live.number < length circuit.old.nodes }
    requires mem_trap { guards.old.mem_trap.number < length circuit.old.nodes }
    requires address { AreBits (length circuit.old.nodes) at.now.a address.now }
    requires bound { AreBits (length circuit.old.nodes) at.now.a (entry_as at.now).regs.v }
    ensures made { OnOk result ((cells : List Cell) → flow_as circuit.new.nodes cells guards.new ≡ access_made (entry_as at.now) (flow_as circuit.old.nodes cells guards.old) address.now) }
    ensures kept { AddsNodes circuit.old.nodes circuit.new.nodes (2 ^ 15 + 3) }
{
    let usable = ops::lt(alloc, circuit, address, &at.regs.v)?;
    guard(circuit, guards, bit_0(&usable))
}
