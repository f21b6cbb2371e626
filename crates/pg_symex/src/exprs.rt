//! What expressions are made of.
//!
//! Each form is a function that makes what the definition of that form says, in that order: its parts from left to right, all
//! of them, and then its own gates. That the gates are right is not said again here: it follows from what is made.

ghost use Rattle.std.specs.Prelude.{◌≡◌, ◌≤◌, length, IfOk, IsSome};
ghost use Rattle.pg_ast.specs.declared.tree.Expr.TheVariants.{Load, Not, Bin, Cat, Cut, Ext, Sext, Sel};
ghost use Rattle.pg_symex.specs.Exprs.{expr_made, op_made};
ghost use Rattle.pg_symex.specs.EntryView.{entry_as};
ghost use Rattle.pg_symex.specs.FlowView.{flow_as};
ghost use Rattle.pg_symex.specs.Calls.{IsReady, IsTyped, IsMade, IsValue, Adds, expr_cost};

use crate::entry::Entry;
use crate::guards::{Guards, access, bit_0};
use crate::lets::Lets;
use crate::literal::literal;
use crate::names::name_gates;
use crate::operate::operate;
use pg_ast::{Expr, Op};
use pg_cells::Touched;
use pg_circuit::Circuit;
use pg_vec::{Bits, ops};
use sqlite_items::Boxed;
use std::alloc::{AllocError, Global};

/// The bits of an expression, and what is kept after it. The error is out of memory: the circuit may hold further gates, and
/// cells may have been touched.
#[cycle(exprs)]
pub fn expr(
    alloc: Global,
    at: &Entry<'_>,
    lets: &Lets<'_>,
    c: &mut Circuit,
    t: &mut Touched,
    g: &mut Guards,
    e: &Expr,
) -> Result<Bits, AllocError>
    requires ready { IsReady (entry_as at.now) lets.now c.old.nodes t.old g.old }
    requires typed { IsTyped (entry_as at.now) lets.now e.now }
    ensures made { IfOk result (λ bits. IsMade (expr_made e.now (entry_as at.now) lets.now t.old.writes (flow_as c.old.nodes t.old.cells g.old)) bits t.old c.new.nodes t.new g.new) }
    ensures value { IfOk result (λ bits. IsValue (entry_as at.now) lets.now e.now c.old.nodes bits c.new.nodes t.new g.new) }
    ensures kept { Adds t.old.writes c.old.nodes c.new.nodes (expr_cost e.now) }
{
    match e {
        Expr::Lit(value, width) => literal(alloc, *value, *width),
        Expr::Name(name) => name_gates(alloc, at, lets, name.as_bytes()),
        Expr::Pc => Bits::from_slice(alloc, at.regs.p.as_slice()),
        Expr::Mode => Bits::from_slice(alloc, at.regs.mode.as_slice()),
        Expr::Rel => Bits::from_slice(alloc, at.regs.l.as_slice()),
        Expr::Bound => Bits::from_slice(alloc, at.regs.b.as_slice()),
        Expr::Load(x) => load(alloc, at, lets, c, t, g, x),
        Expr::Not(x) => not(alloc, at, lets, c, t, g, x),
        Expr::Bin(op, x, y) => bin(alloc, at, lets, c, t, g, *op, x, y),
        Expr::Cat(x, y) => cat(alloc, at, lets, c, t, g, x, y),
        Expr::Cut(x, high, low) => cut(alloc, at, lets, c, t, g, x, *high, *low),
        Expr::Ext(x, to) => ext(alloc, at, lets, c, t, g, x, *to),
        Expr::Sext(x, to) => sext(alloc, at, lets, c, t, g, x, *to),
        Expr::Sel(test, x, y) => sel(alloc, at, lets, c, t, g, test, x, y),
    }
}

/// The word at the address that an expression means.
#[cycle(exprs)]
fn load(
    alloc: Global,
    at: &Entry<'_>,
    lets: &Lets<'_>,
    c: &mut Circuit,
    t: &mut Touched,
    g: &mut Guards,
    x: &Boxed<Expr>,
) -> Result<Bits, AllocError>
    requires ready { IsReady (entry_as at.now) lets.now c.old.nodes t.old g.old }
    requires typed { IsTyped (entry_as at.now) lets.now (Load x.now) }
    ensures made { IfOk result (λ bits. IsMade (expr_made (Load x.now) (entry_as at.now) lets.now t.old.writes (flow_as c.old.nodes t.old.cells g.old)) bits t.old c.new.nodes t.new g.new) }
    ensures kept { Adds t.old.writes c.old.nodes c.new.nodes (expr_cost (Load x.now)) }
{
    let address = expr(alloc, at, lets, c, t, g, x.get())?;
    access(alloc, at, c, g, &address)?;
    t.touch(c, &address)
}

/// Each bit of an expression changed.
#[cycle(exprs)]
fn not(
    alloc: Global,
    at: &Entry<'_>,
    lets: &Lets<'_>,
    c: &mut Circuit,
    t: &mut Touched,
    g: &mut Guards,
    x: &Boxed<Expr>,
) -> Result<Bits, AllocError>
    requires ready { IsReady (entry_as at.now) lets.now c.old.nodes t.old g.old }
    requires typed { IsTyped (entry_as at.now) lets.now (Not x.now) }
    ensures made { IfOk result (λ bits. IsMade (expr_made (Not x.now) (entry_as at.now) lets.now t.old.writes (flow_as c.old.nodes t.old.cells g.old)) bits t.old c.new.nodes t.new g.new) }
    ensures kept { Adds t.old.writes c.old.nodes c.new.nodes (expr_cost (Not x.now)) }
{
    let bits = expr(alloc, at, lets, c, t, g, x.get())?;
    ops::not(alloc, c, &bits)
}

/// What an operator makes of two expressions.
#[cycle(exprs)]
fn bin(
    alloc: Global,
    at: &Entry<'_>,
    lets: &Lets<'_>,
    c: &mut Circuit,
    t: &mut Touched,
    g: &mut Guards,
    op: Op,
    x: &Boxed<Expr>,
    y: &Boxed<Expr>,
) -> Result<Bits, AllocError>
    requires ready { IsReady (entry_as at.now) lets.now c.old.nodes t.old g.old }
    requires typed { IsTyped (entry_as at.now) lets.now (Bin op x.now y.now) }
    ensures made { IfOk result (λ bits. IsMade (expr_made (Bin op x.now y.now) (entry_as at.now) lets.now t.old.writes (flow_as c.old.nodes t.old.cells g.old)) bits t.old c.new.nodes t.new g.new) }
    ensures kept { Adds t.old.writes c.old.nodes c.new.nodes (expr_cost (Bin op x.now y.now)) }
{
    let left = expr(alloc, at, lets, c, t, g, x.get())?;
    let right = expr(alloc, at, lets, c, t, g, y.get())?;
    operate(alloc, c, op, &left, &right)
}

/// The first expression above the second.
#[cycle(exprs)]
fn cat(
    alloc: Global,
    at: &Entry<'_>,
    lets: &Lets<'_>,
    c: &mut Circuit,
    t: &mut Touched,
    g: &mut Guards,
    x: &Boxed<Expr>,
    y: &Boxed<Expr>,
) -> Result<Bits, AllocError>
    requires ready { IsReady (entry_as at.now) lets.now c.old.nodes t.old g.old }
    requires typed { IsTyped (entry_as at.now) lets.now (Cat x.now y.now) }
    ensures made { IfOk result (λ bits. IsMade (expr_made (Cat x.now y.now) (entry_as at.now) lets.now t.old.writes (flow_as c.old.nodes t.old.cells g.old)) bits t.old c.new.nodes t.new g.new) }
    ensures kept { Adds t.old.writes c.old.nodes c.new.nodes (expr_cost (Cat x.now y.now)) }
{
    let left = expr(alloc, at, lets, c, t, g, x.get())?;
    let right = expr(alloc, at, lets, c, t, g, y.get())?;
    ops::cat(alloc, c, &left, &right)
}

/// Bits `low` to `high` of an expression.
#[cycle(exprs)]
fn cut(
    alloc: Global,
    at: &Entry<'_>,
    lets: &Lets<'_>,
    c: &mut Circuit,
    t: &mut Touched,
    g: &mut Guards,
    x: &Boxed<Expr>,
    high: u64,
    low: u64,
) -> Result<Bits, AllocError>
    requires ready { IsReady (entry_as at.now) lets.now c.old.nodes t.old g.old }
    requires typed { IsTyped (entry_as at.now) lets.now (Cut x.now high low) }
    ensures made { IfOk result (λ bits. IsMade (expr_made (Cut x.now high low) (entry_as at.now) lets.now t.old.writes (flow_as c.old.nodes t.old.cells g.old)) bits t.old c.new.nodes t.new g.new) }
    ensures kept { Adds t.old.writes c.old.nodes c.new.nodes (expr_cost (Cut x.now high low)) }
{
    let bits = expr(alloc, at, lets, c, t, g, x.get())?;
    ops::cut(alloc, c, &bits, high as u32, low as u32)
}

/// An expression widened to `to` bits by zeros.
#[cycle(exprs)]
fn ext(
    alloc: Global,
    at: &Entry<'_>,
    lets: &Lets<'_>,
    c: &mut Circuit,
    t: &mut Touched,
    g: &mut Guards,
    x: &Boxed<Expr>,
    to: u64,
) -> Result<Bits, AllocError>
    requires ready { IsReady (entry_as at.now) lets.now c.old.nodes t.old g.old }
    requires typed { IsTyped (entry_as at.now) lets.now (Ext x.now to) }
    ensures made { IfOk result (λ bits. IsMade (expr_made (Ext x.now to) (entry_as at.now) lets.now t.old.writes (flow_as c.old.nodes t.old.cells g.old)) bits t.old c.new.nodes t.new g.new) }
    ensures kept { Adds t.old.writes c.old.nodes c.new.nodes (expr_cost (Ext x.now to)) }
{
    let bits = expr(alloc, at, lets, c, t, g, x.get())?;
    ops::ext(alloc, c, &bits, to as u32)
}

/// An expression widened to `to` bits by copies of its top bit.
#[cycle(exprs)]
fn sext(
    alloc: Global,
    at: &Entry<'_>,
    lets: &Lets<'_>,
    c: &mut Circuit,
    t: &mut Touched,
    g: &mut Guards,
    x: &Boxed<Expr>,
    to: u64,
) -> Result<Bits, AllocError>
    requires ready { IsReady (entry_as at.now) lets.now c.old.nodes t.old g.old }
    requires typed { IsTyped (entry_as at.now) lets.now (Sext x.now to) }
    ensures made { IfOk result (λ bits. IsMade (expr_made (Sext x.now to) (entry_as at.now) lets.now t.old.writes (flow_as c.old.nodes t.old.cells g.old)) bits t.old c.new.nodes t.new g.new) }
    ensures kept { Adds t.old.writes c.old.nodes c.new.nodes (expr_cost (Sext x.now to)) }
{
    let bits = expr(alloc, at, lets, c, t, g, x.get())?;
    ops::sext(alloc, c, &bits, to as u32)
}

/// The second expression where the first is 1, else the third.
#[cycle(exprs)]
fn sel(
    alloc: Global,
    at: &Entry<'_>,
    lets: &Lets<'_>,
    c: &mut Circuit,
    t: &mut Touched,
    g: &mut Guards,
    test: &Boxed<Expr>,
    x: &Boxed<Expr>,
    y: &Boxed<Expr>,
) -> Result<Bits, AllocError>
    requires ready { IsReady (entry_as at.now) lets.now c.old.nodes t.old g.old }
    requires typed { IsTyped (entry_as at.now) lets.now (Sel test.now x.now y.now) }
    ensures made { IfOk result (λ bits. IsMade (expr_made (Sel test.now x.now y.now) (entry_as at.now) lets.now t.old.writes (flow_as c.old.nodes t.old.cells g.old)) bits t.old c.new.nodes t.new g.new) }
    ensures kept { Adds t.old.writes c.old.nodes c.new.nodes (expr_cost (Sel test.now x.now y.now)) }
{
    let choice = expr(alloc, at, lets, c, t, g, test.get())?;
    let left = expr(alloc, at, lets, c, t, g, x.get())?;
    let right = expr(alloc, at, lets, c, t, g, y.get())?;
    ops::mux(alloc, c, bit_0(&choice), &left, &right)
}
