//! Literals in order: ascending by variable, none twice.

ghost use Rattle.std.specs.Prelude.{◌≡◌, ◌<◌, ◌^◌, IfOk, IfSome};
ghost use Rattle.pg_cnf.specs.Literals.{IsClause};
ghost use Rattle.pg_proof.specs.Refutation.{are_ascending};

use pg_cnf::Clause;
use pg_proof::LitList;
use smallvec::SmallVec;
use std::alloc::{AllocError, Global};

/// The literals of a clause in order, each once: none where both literals of a variable stand there.
pub fn ordered(alloc: Global, literals: &[i32]) -> Result<Option<LitList>, AllocError> {
    let mut sorted = Vec::from_slice(alloc, literals)?;
    sorted.sort_unstable_by_key(|literal| key(*literal));
    let mut made = LitList::new(alloc);
    let mut last = 0;
    for &literal in sorted.as_slice() {
        if literal == last {
            continue;
        }
        if literal.unsigned_abs() == last.unsigned_abs() {
            return Ok(None);
        }
        made.push(literal)?;
        last = literal;
    }
    Ok(Some(made))
}

/// 2 v for variable v, and 2 v + 1 for its negation.
fn key(literal: i32) -> u64 {
    2 * u64::from(literal.unsigned_abs()) + u64::from(literal < 0)
}

/// The clause of these literals, where they are of variables up to a greatest and strictly ascend by variable.
#[tactic(auto, using(crate::proofs::OrderLemmas::ascending_clause))]
pub fn clause_of(
    alloc: Global,
    variables: u32,
    literals: &[i32],
) -> Result<Option<Clause>, AllocError>
    requires few { variables < 2 ^ 31 }
    ensures clause { IfOk result (λ found. IfSome found (λ clause. IsClause variables clause)) }
{
    if are_ascending(variables, literals) {
        return Ok(Some(Clause::new(SmallVec::from_slice(alloc, literals)?)));
    }
    Ok(None)
}

/// Whether literals are of variables up to a greatest, and strictly ascend by variable from 1 on.
fn are_ascending(variables: u32, literals: &[i32]) -> bool
    ensures { result ≡ are_ascending variables 0 literals.now }
{
    let mut above = 0;
    for literal in literals {
        let variable = literal.unsigned_abs();
        if variable <= above || variables < variable {
            return false;
        }
        above = variable;
    }
    true
}

/// The greatest variable of any of the clauses, or 0 where there is none.
pub fn greatest_variable(clauses: &[Clause]) -> u32 {
    clauses
        .iter()
        .fold(0, |most, clause| most.max(greatest_in(clause.lits())))
}

/// The greatest variable of some literals, or 0 where there are none.
pub fn greatest_in(literals: &[i32]) -> u32 {
    literals
        .iter()
        .fold(0, |most, literal| most.max(literal.unsigned_abs()))
}
