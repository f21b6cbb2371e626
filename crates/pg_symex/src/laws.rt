//! What gates mean that are made of bodies. None of it does anything when it runs.

ghost use Rattle.pg_symex.specs.Follows.{IsRight};
ghost use Rattle.pg_symex.specs.Ends.{IsRightStmt};
ghost use Rattle.pg_symex.specs.Runs.{AllRunRight};

use pg_ast::{Desc, Expr, Stmt};

/// In every circuit that begins with what is made of an expression, whatever the inputs are, and for every storage that
/// agrees with the touched cells, the bits are the expression's value, and the guards tell whether it memory traps.
pub fn expressions_are_right(expr: &Expr)
    ensures { IsRight expr.now }
{}

/// The same of a statement, whatever guard it is reached under: where its place is not reached, it changes nothing that
/// counts, and where it is, traps of either kind, the window, the registers that follow and the lets are as it means.
pub fn statements_are_right(stmt: &Stmt)
    ensures { IsRightStmt stmt.now }
{}

/// The same of whole runs: of a valid description, what is made of an instruction from registers that are gates, over cells
/// under no writes, tells what the body comes to, in every circuit that begins with it, whatever the inputs are, and for every
/// storage that agrees with the touched cells.
pub fn runs_are_right(desc: &Desc)
    ensures { AllRunRight desc.now }
{}
