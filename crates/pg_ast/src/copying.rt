//! Copies of descriptions.
//!
//! A copy is the same description once more, in storage of its own: equal trees are the same description. Each type of the
//! tree has a function here, as `Boxed` and `Items` have no copies of their own. A body keeps the limits on levels, so the
//! walk over it recurses no deeper. The error of each is out of memory.

ghost use Rattle.std.specs.Prelude.{◌≡◌, IfOk};

use crate::name::{Name, PatternText};
use crate::tree::{Desc, Expr, Instr, Stmt, StmtList};
use sqlite_items::{Boxed, Items};
use std::alloc::{AllocError, Global};

impl Desc {
    /// The same description once more. Time and memory are linear in its size.
    ///
    /// # Errors
    /// Only for lack of memory.
    pub fn copied(&self, alloc: Global) -> Result<Desc, AllocError>
        ensures { IfOk result (λ copy. copy ≡ self.now) }
    {
        let mut instrs = Items::new(alloc);
        for instr in self.instrs.as_slice() {
            instrs.push(instr_copied(alloc, instr)?)?;
        }
        Ok(Desc {
            word: self.word,
            address: self.address,
            size: self.size,
            causes: self.causes,
            instrs,
        })
    }
}

/// An instruction.
fn instr_copied(alloc: Global, instr: &Instr) -> Result<Instr, AllocError>
    ensures { IfOk result (λ copy. copy ≡ instr.now) }
{
    let name = name_copied(alloc, &instr.name)?;
    let pattern = pattern_copied(alloc, &instr.pattern)?;
    let body = block_copied(alloc, instr.body.as_slice())?;
    Ok(Instr::new(name, pattern, body))
}

/// A name.
fn name_copied(alloc: Global, name: &Name) -> Result<Name, AllocError>
    ensures { IfOk result (λ copy. copy ≡ name.now) }
{
    let bytes = Items::from_slice(alloc, name.as_bytes())?;
    Ok(Name::new(bytes))
}

/// A pattern.
fn pattern_copied(alloc: Global, pattern: &PatternText) -> Result<PatternText, AllocError>
    ensures { IfOk result (λ copy. copy ≡ pattern.now) }
{
    let bytes = Items::from_slice(alloc, pattern.as_bytes())?;
    Ok(PatternText::new(bytes))
}

/// The statements of a block.
#[cycle(stmts)]
fn block_copied(alloc: Global, stmts: &[Stmt]) -> Result<StmtList, AllocError>
    ensures { IfOk result (λ copy. copy ≡ stmts.now) }
{
    let mut copy = Items::new(alloc);
    for stmt in stmts {
        copy.push(stmt_copied(alloc, stmt)?)?;
    }
    Ok(copy)
}

/// A statement.
#[cycle(stmts)]
fn stmt_copied(alloc: Global, stmt: &Stmt) -> Result<Stmt, AllocError>
    ensures { IfOk result (λ copy. copy ≡ stmt.now) }
{
    match stmt {
        Stmt::Let(name, e) => Ok(Stmt::Let(name_copied(alloc, name)?, expr_copied(alloc, e)?)),
        Stmt::Store(a, e) => Ok(Stmt::Store(expr_copied(alloc, a)?, expr_copied(alloc, e)?)),
        Stmt::Pc(e) => Ok(Stmt::Pc(expr_copied(alloc, e)?)),
        Stmt::Mode(e) => Ok(Stmt::Mode(expr_copied(alloc, e)?)),
        Stmt::Rel(e) => Ok(Stmt::Rel(expr_copied(alloc, e)?)),
        Stmt::Bound(e) => Ok(Stmt::Bound(expr_copied(alloc, e)?)),
        Stmt::Trap => Ok(Stmt::Trap),
        Stmt::If(c, held, other) => {
            let test = expr_copied(alloc, c)?;
            let held = block_copied(alloc, held.as_slice())?;
            match other {
                None => Ok(Stmt::If(test, held, None)),
                Some(other) => {
                    let other = block_copied(alloc, other.as_slice())?;
                    Ok(Stmt::If(test, held, Some(other)))
                }
            }
        }
    }
}

/// An expression.
#[cycle(exprs)]
fn expr_copied(alloc: Global, expr: &Expr) -> Result<Expr, AllocError>
    ensures { IfOk result (λ copy. copy ≡ expr.now) }
{
    match expr {
        Expr::Lit(value, width) => Ok(Expr::Lit(*value, *width)),
        Expr::Name(name) => Ok(Expr::Name(name_copied(alloc, name)?)),
        Expr::Pc => Ok(Expr::Pc),
        Expr::Mode => Ok(Expr::Mode),
        Expr::Rel => Ok(Expr::Rel),
        Expr::Bound => Ok(Expr::Bound),
        Expr::Load(e) => Ok(Expr::Load(boxed(alloc, e)?)),
        Expr::Not(e) => Ok(Expr::Not(boxed(alloc, e)?)),
        Expr::Bin(op, x, y) => Ok(Expr::Bin(*op, boxed(alloc, x)?, boxed(alloc, y)?)),
        Expr::Cat(x, y) => Ok(Expr::Cat(boxed(alloc, x)?, boxed(alloc, y)?)),
        Expr::Cut(e, high, low) => Ok(Expr::Cut(boxed(alloc, e)?, *high, *low)),
        Expr::Ext(e, width) => Ok(Expr::Ext(boxed(alloc, e)?, *width)),
        Expr::Sext(e, width) => Ok(Expr::Sext(boxed(alloc, e)?, *width)),
        Expr::Sel(c, x, y) => {
            Ok(Expr::Sel(boxed(alloc, c)?, boxed(alloc, x)?, boxed(alloc, y)?))
        }
    }
}

/// An expression inside another.
#[cycle(exprs)]
fn boxed(alloc: Global, expr: &Boxed<Expr>) -> Result<Boxed<Expr>, AllocError>
    ensures { IfOk result (λ copy. copy ≡ expr.now) }
{
    Boxed::new(alloc, expr_copied(alloc, expr.get())?)
}
