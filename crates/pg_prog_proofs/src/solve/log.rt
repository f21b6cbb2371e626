//! A log, given to a checker that shares nothing with the solver.

use pg_cnf::Cnf;
use pg_proof::{Checker, ProofFault, Step};
use std::alloc::{AllocError, Global};

/// Whether a checker takes all steps, and then is closed by them or not, as it has to be.
pub fn is_taken(
    alloc: Global,
    cnf: &Cnf,
    steps: &[Step],
    closed: bool,
) -> Result<bool, AllocError> {
    let mut checker = Checker::new(alloc, cnf)?;
    takes(&mut checker, steps, closed)
}

/// The same of a checker that has taken none yet.
fn takes(checker: &mut Checker, steps: &[Step], closed: bool) -> Result<bool, AllocError> {
    for step in steps {
        if checker.numbered() >= u32::MAX as usize - 1 {
            return Ok(false);
        }
        match checker.add(step) {
            Ok(_) => {}
            Err(ProofFault::Memory) => return Err(AllocError),
            Err(_) => return Ok(false),
        }
    }
    Ok(checker.closed() == closed)
}
