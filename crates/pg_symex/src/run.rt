//! Bodies under way, and what single statements make of bits that are there already.

ghost use Rattle.std.specs.Prelude.{◌≡◌, ◌+◌, ◌^◌, ◌<◌, length, IfOk, OnOk};
ghost use Rattle.pg_cells.specs.View.{View};
ghost use Rattle.pg_vec.specs.AddsNodes.{AddsNodes};
ghost use Rattle.pg_vec.specs.There.{AreThere};
ghost use Rattle.pg_vec.specs.Strings.{mux_made};
ghost use Rattle.pg_symex.specs.EntryView.{entry_as};
ghost use Rattle.pg_symex.specs.Stmts.{trap_made, store_made};
ghost use Rattle.pg_symex.specs.There.{AreBits};
ghost use Rattle.pg_symex.specs.Calls.{IsTyped, Adds, expr_cost};
ghost use Rattle.pg_symex.specs.RunView.{run_as, IsUnderWay, IsTaken};

use crate::entry::Entry;
use crate::exprs::expr;
use crate::guards::{Guards, access};
use crate::lets::Lets;
use crate::regs::Next;
use pg_ast::Expr;
use pg_cells::Touched;
use pg_circuit::{Circuit, Gate};
use pg_vec::gate::or;
use pg_vec::{Bits, ops};
use std::alloc::{AllocError, Global};

/// A body under way: its guards, whether `trap` ended it before, the registers that it will leave, and the lets that are
/// visible.
#[derive(Drop)]
pub struct Run<'m> {
    pub guards: Guards,
    pub trap: Gate,
    pub next: Next,
    pub lets: Lets<'m>,
}

/// The bits of an expression of a body under way.
pub fn take(
    alloc: Global,
    at: &Entry<'_>,
    c: &mut Circuit,
    t: &mut Touched,
    run: &mut Run<'_>,
    e: &Expr,
) -> Result<Bits, AllocError>
    requires ready { IsUnderWay (entry_as at.now) c.old.nodes t.old run.old }
    requires typed { IsTyped (entry_as at.now) run.old.lets e.now }
    ensures taken { IfOk result (λ bits. IsTaken (entry_as at.now) e.now c.old.nodes t.old run.old bits c.new.nodes t.new run.new) }
    ensures kept { Adds t.old.writes c.old.nodes c.new.nodes (expr_cost e.now) }
{
    expr(alloc, at, &run.lets, c, t, &mut run.guards, e)
}

/// A register after an assignment: the bits where its place is reached, else what it was.
pub fn assign(
    alloc: Global,
    c: &mut Circuit,
    live: Gate,
    bits: &Bits,
    register: &mut Bits,
) -> Result<(), AllocError>
    requires live { live.number < length c.old.nodes }
    requires bits { AreThere (length c.old.nodes) bits.now }
    requires register { AreThere (length c.old.nodes) register.old }
    requires same_width { length bits.now ≡ length register.old }
    ensures made { OnOk result ((register.new, c.new.nodes) ≡ mux_made c.old.nodes live bits.now register.old) }
    ensures kept { AddsNodes c.old.nodes c.new.nodes (2 ^ 15) }
{
    let chosen = ops::mux(alloc, c, live, bits, register)?;
    *register = chosen;
    Ok(())
}

/// A trap, after which no place is reached.
#[tactic(auto, unfolding(crate::specs::Stmts::trap_made))]
pub fn trap(c: &mut Circuit, run: &mut Run<'_>) -> Result<(), AllocError>
    requires trap { run.old.trap.number < length c.old.nodes }
    requires live { run.old.guards.live.number < length c.old.nodes }
    ensures made { OnOk result ((v : View) → run_as c.new.nodes v run.new ≡ trap_made (run_as c.old.nodes v run.old)) }
    ensures kept { AddsNodes c.old.nodes c.new.nodes 1 }
{
    run.trap = or(c, run.trap, run.guards.live)?;
    run.guards.live = c.constant(false);
    Ok(())
}

/// A store of a word at an address: the access, and then the write.
pub fn store(
    alloc: Global,
    at: &Entry<'_>,
    c: &mut Circuit,
    t: &mut Touched,
    run: &mut Run<'_>,
    address: &Bits,
    value: &Bits,
) -> Result<(), AllocError>
    requires ready { IsUnderWay (entry_as at.now) c.old.nodes t.old run.old }
    requires address { AreBits (length c.old.nodes) at.now.a address.now }
    requires value { AreBits (length c.old.nodes) at.now.w value.now }
    ensures made { OnOk result (run_as c.new.nodes t.new run.new ≡ store_made (entry_as at.now) address.now value.now (run_as c.old.nodes t.old run.old)) }
    ensures view { OnOk result (t.new ≡ record t.old { writes = t.new.writes }) }
    ensures kept { AddsNodes c.old.nodes c.new.nodes (2 ^ 15 + 3) }
{
    access(alloc, at, c, &mut run.guards, address)?;
    t.write(c, run.guards.live, address, value)
}
