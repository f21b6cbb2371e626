//! A proof to a log.

ghost use Rattle.std.specs.Prelude.{◌≡◌, ◌+◌, ◌<◌, ◌≤◌, ◌^◌, length, IfOk, IsTrue};
ghost use Rattle.pg_proof.specs.Log.{IsClosedLog};

use crate::Record;
use crate::elaborator::elaborated;
use crate::rup_fault::RupFault;
use pg_cnf::Cnf;
use pg_proof::{Act, ActList, is_refutation};
use std::alloc::Global;

/// How many steps a log has at most: as many as a certificate has bytes.
const MOST_STEPS: usize = 1 << 28;

/// The log of a proof that the clauses of a question cannot all be true: a closed log of the question, with each clause that the
/// proof adds in its order, up to the first from which on unit propagation alone refutes the clauses; what stands behind it in
/// the proof is not looked at. A clause with both literals of a variable is passed over.
///
/// A refusal is that of the first record at fault: `UnknownLit` or `NotImplied`. `Open` comes where there is none, and the empty
/// clause is not reached. `Many` comes with 2^28 steps or 2^31 clauses. `Memory` says nothing of the proof.
///
/// Each clause that is added costs what unit propagation costs with its literals false, over the clauses that are not removed and
/// at most as many that are. Checking costs the length of the log with its hints' clauses. The log is held whole, and all clauses
/// of it once more in the checker.
pub fn log_of_proof(alloc: Global, cnf: &Cnf, records: &[Record]) -> Result<ActList, RupFault>
    ensures closed { IfOk result (λ acts. IsClosedLog cnf.now.clauses acts) }
    ensures few { IfOk result (λ acts. length acts ≤ 268435456) }
{
    let acts = elaborated(alloc, cnf, records)?;
    if acts.len() > MOST_STEPS {
        return Err(RupFault::Many);
    }
    if is_taken(alloc, cnf, acts.as_slice())? {
        Ok(acts)
    } else {
        Err(RupFault::Unchecked)
    }
}

/// Whether a checker takes all acts, and the last of them closes. The error is out of memory.
fn is_taken(alloc: Global, cnf: &Cnf, acts: &[Act]) -> Result<bool, RupFault>
    ensures closed { IfOk result (λ yes. IsTrue yes → IsClosedLog cnf.now.clauses acts.now) }
{
    if cnf.clauses.len() + acts.len() + 1 >= 1 << 32 {
        return Ok(false);
    }
    Ok(is_refutation(alloc, cnf, acts)?)
}
