//! What statements are made of.
//!
//! There is one way through a body, which takes both arms of each if: what is reached only where a test is true stands under
//! a guard. So a statement never asks which way a run goes, and a trap ends nothing here but the places after it.

ghost use Rattle.std.specs.Prelude.{◌≡◌, ◌+◌, ◌<◌, length, map, OnOk};
ghost use Rattle.std.specs.Option.{option_map};
ghost use Rattle.pg_circuit.specs.Grown.{GrowsTo};
ghost use Rattle.pg_lang_valid.specs.Limits.{both, all_of, if_any, stmt_tally};
ghost use Rattle.pg_lang_valid.specs.Widths.{fare_of, fares_in_order, fares_if_any};
ghost use Rattle.pg_symex.specs.EntryView.{entry_as};
ghost use Rattle.pg_symex.specs.There.{sym_setting};
ghost use Rattle.pg_symex.specs.Stmts.{stmt_made, in_order_made, block_made, else_made, if_made};
ghost use Rattle.pg_symex.specs.Calls.{AddsFew, stmts_cost};
ghost use Rattle.pg_symex.specs.RunView.{run_as, IsUnderWay, Fares, FaresInBlock, IsDone};

use crate::entry::Entry;
use crate::guards::bit_0;
use crate::run::{Run, assign, store, take, trap};
use pg_ast::{Stmt, StmtList};
use pg_cells::Touched;
use pg_circuit::{Circuit, Gate};
use pg_vec::gate::{and, or};
use std::alloc::{AllocError, Global};

/// Makes a statement of a body under way.
#[cycle(stmts)]
fn stmt<'m>(
    alloc: Global,
    at: &Entry<'_>,
    c: &mut Circuit,
    t: &mut Touched,
    run: &mut Run<'m>,
    s: &'m Stmt,
) -> Result<(), AllocError>
    requires ready { IsUnderWay (entry_as at.now) c.old.nodes t.old run.old }
    requires typed { Fares (fare_of (sym_setting (entry_as at.now)) s.now) run.old }
    ensures made { OnOk result (IsDone (stmt_made s.now (entry_as at.now) (run_as c.old.nodes t.old run.old)) t.old c.new.nodes t.new run.new) }
    ensures kept { GrowsTo c.old.nodes c.new.nodes }
    ensures few { AddsFew t.old.writes (stmt_tally s.now).accesses c.old.nodes c.new.nodes (stmts_cost (stmt_tally s.now)) }
{
    match s {
        Stmt::Let(name, e) => {
            let bits = take(alloc, at, c, t, run, e)?;
            run.lets.push(name.as_bytes(), bits)
        }
        Stmt::Store(a, e) => {
            let address = take(alloc, at, c, t, run, a)?;
            let value = take(alloc, at, c, t, run, e)?;
            store(alloc, at, c, t, run, &address, &value)
        }
        Stmt::Pc(e) => {
            let bits = take(alloc, at, c, t, run, e)?;
            assign(alloc, c, run.guards.live, &bits, &mut run.next.p)
        }
        Stmt::Mode(e) => {
            let bits = take(alloc, at, c, t, run, e)?;
            assign(alloc, c, run.guards.live, &bits, &mut run.next.mode)
        }
        Stmt::Rel(e) => {
            let bits = take(alloc, at, c, t, run, e)?;
            assign(alloc, c, run.guards.live, &bits, &mut run.next.l)
        }
        Stmt::Bound(e) => {
            let bits = take(alloc, at, c, t, run, e)?;
            assign(alloc, c, run.guards.live, &bits, &mut run.next.b)
        }
        Stmt::Trap => trap(c, run),
        Stmt::If(test, held, other) => {
            let bits = take(alloc, at, c, t, run, test)?;
            arms(alloc, at, c, t, run, bit_0(&bits), held.as_slice(), other)
        }
    }
}

/// Makes the arms of an if, of which each is reached by its own side of the test.
#[cycle(stmts)]
#[tactic(auto, using(pg_vec::proofs::Kept::front_then))]
fn arms<'m>(
    alloc: Global,
    at: &Entry<'_>,
    c: &mut Circuit,
    t: &mut Touched,
    run: &mut Run<'m>,
    test: Gate,
    held: &'m [Stmt],
    other: &'m Option<StmtList>,
) -> Result<(), AllocError>
    requires ready { IsUnderWay (entry_as at.now) c.old.nodes t.old run.old }
    requires test { test.number < length c.old.nodes }
    requires held { FaresInBlock (fares_in_order (map (fare_of (sym_setting (entry_as at.now))) held.now)) run.old }
    requires other { FaresInBlock (fares_if_any (option_map (map (fare_of (sym_setting (entry_as at.now)))) other.now)) run.old }
    ensures made { OnOk result (IsDone (if_made (block_made (map stmt_made held.now)) (else_made (option_map (map stmt_made) other.now)) (entry_as at.now) test (run_as c.old.nodes t.old run.old)) t.old c.new.nodes t.new run.new) }
    ensures kept { GrowsTo c.old.nodes c.new.nodes }
    ensures few { AddsFew t.old.writes (both (all_of (map stmt_tally held.now)) (if_any (option_map (map stmt_tally) other.now))).accesses c.old.nodes c.new.nodes (stmts_cost (both (all_of (map stmt_tally held.now)) (if_any (option_map (map stmt_tally) other.now))) + 3) }
{
    let first = and(c, run.guards.live, test)?;
    let not_test = c.not(test);
    let second = and(c, run.guards.live, not_test)?;
    run.guards.live = first;
    block(alloc, at, c, t, run, held)?;
    let reached = run.guards.live;
    run.guards.live = second;
    otherwise(alloc, at, c, t, run, other)?;
    let live = or(c, reached, run.guards.live)?;
    run.guards.live = live;
    Ok(())
}

/// Makes the other arm of an if, where there is one.
#[cycle(stmts)]
fn otherwise<'m>(
    alloc: Global,
    at: &Entry<'_>,
    c: &mut Circuit,
    t: &mut Touched,
    run: &mut Run<'m>,
    other: &'m Option<StmtList>,
) -> Result<(), AllocError>
    requires ready { IsUnderWay (entry_as at.now) c.old.nodes t.old run.old }
    requires typed { FaresInBlock (fares_if_any (option_map (map (fare_of (sym_setting (entry_as at.now)))) other.now)) run.old }
    ensures made { OnOk result (IsDone (else_made (option_map (map stmt_made) other.now) (entry_as at.now) (run_as c.old.nodes t.old run.old)) t.old c.new.nodes t.new run.new) }
    ensures kept { GrowsTo c.old.nodes c.new.nodes }
    ensures few { AddsFew t.old.writes (if_any (option_map (map stmt_tally) other.now)).accesses c.old.nodes c.new.nodes (stmts_cost (if_any (option_map (map stmt_tally) other.now))) }
{
    match other {
        None => Ok(()),
        Some(stmts) => block(alloc, at, c, t, run, stmts.as_slice()),
    }
}

/// Makes the statements of a block inside a body, whose lets end with it.
#[cycle(stmts)]
fn block<'m>(
    alloc: Global,
    at: &Entry<'_>,
    c: &mut Circuit,
    t: &mut Touched,
    run: &mut Run<'m>,
    stmts: &'m [Stmt],
) -> Result<(), AllocError>
    requires ready { IsUnderWay (entry_as at.now) c.old.nodes t.old run.old }
    requires typed { FaresInBlock (fares_in_order (map (fare_of (sym_setting (entry_as at.now))) stmts.now)) run.old }
    ensures made { OnOk result (IsDone (block_made (map stmt_made stmts.now) (entry_as at.now) (run_as c.old.nodes t.old run.old)) t.old c.new.nodes t.new run.new) }
    ensures kept { GrowsTo c.old.nodes c.new.nodes }
    ensures few { AddsFew t.old.writes (all_of (map stmt_tally stmts.now)).accesses c.old.nodes c.new.nodes (stmts_cost (all_of (map stmt_tally stmts.now))) }
{
    let outer = run.lets.len();
    in_order(alloc, at, c, t, run, stmts)?;
    run.lets.truncate(outer);
    Ok(())
}

/// Makes statements in order.
#[cycle(stmts)]
pub fn in_order<'m>(
    alloc: Global,
    at: &Entry<'_>,
    c: &mut Circuit,
    t: &mut Touched,
    run: &mut Run<'m>,
    stmts: &'m [Stmt],
) -> Result<(), AllocError>
    requires ready { IsUnderWay (entry_as at.now) c.old.nodes t.old run.old }
    requires typed { Fares (fares_in_order (map (fare_of (sym_setting (entry_as at.now))) stmts.now)) run.old }
    ensures made { OnOk result (IsDone (in_order_made (map stmt_made stmts.now) (entry_as at.now) (run_as c.old.nodes t.old run.old)) t.old c.new.nodes t.new run.new) }
    ensures kept { GrowsTo c.old.nodes c.new.nodes }
    ensures few { AddsFew t.old.writes (all_of (map stmt_tally stmts.now)).accesses c.old.nodes c.new.nodes (stmts_cost (all_of (map stmt_tally stmts.now))) }
{
    for s in stmts {
        stmt(alloc, at, c, t, run, s)?;
    }
    Ok(())
}
