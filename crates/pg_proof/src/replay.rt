//! Whole logs: each act in turn, by a checker of its own.
//!
//! `is_refutation` is for whoever has a log and a question and wants one answer, and for callers of `trim`, which asks for a
//! closed log.

ghost use Rattle.std.specs.Prelude.{◌≡◌, ◌+◌, ◌<◌, ◌^◌, ◌↔◌, List, Bool, length, true, IsTrue, IfOk};
ghost use Rattle.pg_cnf.specs.Truth.{clauses_true};
ghost use Rattle.pg_proof.specs.Log.{IsClosedLog};

use crate::checker::Checker;
use crate::step::{Act, ProofFault};
use pg_cnf::Cnf;
use std::alloc::{AllocError, Global};

/// Whether a log is closed: every act is accepted, and a step has the empty clause. Then no assignment makes all clauses of
/// the question true. The error is out of memory, and says nothing of the log.
///
/// It costs the length of the question, and of the log with its hints' clauses.
pub fn is_refutation(alloc: Global, cnf: &Cnf, acts: &[Act]) -> Result<bool, AllocError>
    requires { length cnf.now.clauses + length acts.now + 1 < 2 ^ 32 }
    ensures closed { IfOk result (λ yes. IsTrue yes ↔ IsClosedLog cnf.now.clauses acts.now) }
    ensures refuted { IfOk result (λ yes. IsTrue yes → (assignment : List Bool) → clauses_true assignment cnf.now.clauses ≡ true → ⊥) }
{
    let mut checker = Checker::new(alloc, cnf)?;
    for act in acts {
        match checker.apply(act) {
            Ok(()) => {}
            Err(ProofFault::Memory) => return Err(AllocError),
            Err(_) => return Ok(false),
        }
    }
    Ok(checker.closed())
}
