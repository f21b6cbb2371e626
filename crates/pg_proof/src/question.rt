//! What a checker takes of a question: its clauses, and the greatest of their variables.

ghost use Rattle.std.specs.Prelude.{◌≡◌, ◌+◌, ◌<◌, ◌≤◌, ◌^◌, map, max, Some, IfOk};
ghost use Rattle.pg_proof.specs.State.{variables_of_clause, variables_of};

use crate::store::Store;
use pg_cnf::Clause;
use std::alloc::{AllocError, Global};

/// A copy of each clause.
pub fn copies(alloc: Global, clauses: &[Clause]) -> Result<Store, AllocError>
    ensures { IfOk result (λ made. made ≡ map Some clauses.now) }
{
    let mut made = Store::new(alloc);
    for clause in clauses {
        made.push(clause.lits())?;
    }
    Ok(made)
}

/// The greatest variable of a clause, or 0 where it has none.
fn greatest_in(literals: &[i32]) -> u32
    ensures { result ≡ variables_of_clause literals.now }
{
    let mut greatest = 0;
    for literal in literals {
        greatest = greatest.max(literal.unsigned_abs());
    }
    greatest
}

/// The greatest variable of any of the clauses, or 0 where there is none.
pub fn greatest_variable(clauses: &[Clause]) -> u32
    ensures { result ≡ variables_of clauses.now }
{
    let mut greatest = 0;
    for clause in clauses {
        greatest = greatest.max(greatest_in(clause.lits()));
    }
    greatest
}
