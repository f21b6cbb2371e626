//! The limits that a body keeps.
//!
//! Each test is given how many levels are left and stops as soon as there are too many, so it counts
//! down and never up: no number can grow too large, however deep the tree is. Expressions and blocks
//! have a limit each. A body is asked for its blocks first, so that the walk to its expressions goes
//! no deeper than the limits either.

ghost use Rattle.std.specs.Prelude.{◌≤◌, ◌↔◌, IsTrue, map};
ghost use Rattle.pg_ast.specs.Levels.{depth_of, expr_levels, block_levels, greatest, IsShallow};

use crate::tree::{Expr, Stmt, StmtList};

/// The greatest number of levels of an expression, which is the first of them itself.
pub const EXPR_LEVELS: u32 = 32;

/// The greatest number of levels of blocks, a body itself being the first.
pub const BLOCK_LEVELS: u32 = 16;

/// Whether an expression has at most so many levels. It looks no deeper than that.
#[tactic(auto, using(crate::proofs::ExprEquations::depth_of_rules, crate::proofs::Depths::depth_some))]
pub fn has_depth_within(expr: &Expr, levels: u32) -> bool
    ensures { IsTrue result ↔ (depth_of expr.now ≤ levels) }
{
    if levels == 0 {
        return false;
    }
    let inner = levels - 1;
    match expr {
        Expr::Lit(..) => true,
        Expr::Name(_) => true,
        Expr::Pc => true,
        Expr::Mode => true,
        Expr::Rel => true,
        Expr::Bound => true,
        Expr::Load(e) => has_depth_within(e.get(), inner),
        Expr::Not(e) => has_depth_within(e.get(), inner),
        Expr::Bin(_, x, y) => has_depth_within(x.get(), inner) && has_depth_within(y.get(), inner),
        Expr::Cat(x, y) => has_depth_within(x.get(), inner) && has_depth_within(y.get(), inner),
        Expr::Cut(e, ..) => has_depth_within(e.get(), inner),
        Expr::Ext(e, _) => has_depth_within(e.get(), inner),
        Expr::Sext(e, _) => has_depth_within(e.get(), inner),
        Expr::Sel(c, x, y) => {
            has_depth_within(c.get(), inner)
                && has_depth_within(x.get(), inner)
                && has_depth_within(y.get(), inner)
        }
    }
}

/// Whether each expression of a statement has at most so many levels.
#[tactic(auto, using(crate::proofs::StmtEquations::expr_levels_rules))]
#[cycle(exprs)]
fn has_exprs_within(stmt: &Stmt, levels: u32) -> bool
    ensures { IsTrue result ↔ (expr_levels stmt.now ≤ levels) }
{
    match stmt {
        Stmt::Let(_, e) => has_depth_within(e, levels),
        Stmt::Store(a, e) => has_depth_within(a, levels) && has_depth_within(e, levels),
        Stmt::Pc(e) => has_depth_within(e, levels),
        Stmt::Mode(e) => has_depth_within(e, levels),
        Stmt::Rel(e) => has_depth_within(e, levels),
        Stmt::Bound(e) => has_depth_within(e, levels),
        Stmt::Trap => true,
        Stmt::If(c, held, other) => {
            if !has_depth_within(c, levels) {
                return false;
            }
            if !have_exprs_within(held.as_slice(), levels) {
                return false;
            }
            match other {
                None => true,
                Some(other) => have_exprs_within(other.as_slice(), levels),
            }
        }
    }
}

/// The same of each of these statements.
#[cycle(exprs)]
fn have_exprs_within(stmts: &[Stmt], levels: u32) -> bool
    ensures { IsTrue result ↔ (greatest (map expr_levels stmts.now) ≤ levels) }
{
    for stmt in stmts {
        if !has_exprs_within(stmt, levels) {
            return false;
        }
    }
    true
}

/// Whether the blocks inside a statement have at most so many levels.
#[tactic(auto, using(crate::proofs::StmtEquations::block_levels_rules))]
#[cycle(blocks)]
fn has_blocks_within(stmt: &Stmt, levels: u32) -> bool
    ensures { IsTrue result ↔ (block_levels stmt.now ≤ levels) }
{
    match stmt {
        Stmt::Let(..) => true,
        Stmt::Store(..) => true,
        Stmt::Pc(_) => true,
        Stmt::Mode(_) => true,
        Stmt::Rel(_) => true,
        Stmt::Bound(_) => true,
        Stmt::Trap => true,
        Stmt::If(_, held, other) => {
            if levels == 0 {
                return false;
            }
            if !have_blocks_within(held.as_slice(), levels - 1) {
                return false;
            }
            match other {
                None => true,
                Some(other) => have_blocks_within(other.as_slice(), levels - 1),
            }
        }
    }
}

/// The same of the blocks inside each of these statements.
#[cycle(blocks)]
fn have_blocks_within(stmts: &[Stmt], levels: u32) -> bool
    ensures { IsTrue result ↔ (greatest (map block_levels stmts.now) ≤ levels) }
{
    for stmt in stmts {
        if !has_blocks_within(stmt, levels) {
            return false;
        }
    }
    true
}

/// Whether a body keeps the limits: its own block is the first of at most `BLOCK_LEVELS`, and no
/// expression in it has more than `EXPR_LEVELS`.
pub fn is_shallow(body: &StmtList) -> bool
    ensures { IsTrue result ↔ IsShallow body.now }
{
    have_blocks_within(body.as_slice(), BLOCK_LEVELS - 1)
        && have_exprs_within(body.as_slice(), EXPR_LEVELS)
}
