//! What another solver wrote, made a finding.

ghost use Rattle.std.specs.Prelude.{◌≡◌, slice_get, Some, IfOk};
ghost use Rattle.pg_ast.specs.declared.tree.Instr.{Instr};
ghost use Rattle.pg_prog_base.specs.Imported.{IsRight};

use pg_ask::Asked;
use pg_cert::Finding;
use pg_prog_base::{ProofFault, Stop, assignment_of, first_false, refuted, shown};
use pg_sat_foreign::{Foreign, Record, log_of_proof, read};
use std::alloc::Global;

/// The finding of a question that the bytes say.
pub fn finding_of(alloc: Global, asked: &Asked<'_>, bytes: &[u8]) -> Result<Finding, Stop>
    ensures { IfOk result (λ f. (i : Instr) → slice_get asked.now.machine.now.desc.instrs asked.now.instr ≡ Some i → IsRight asked.now.cnf.clauses asked.now.machine.now.desc i asked.now.kind f) }
{
    match read(alloc, bytes) {
        Ok(Foreign::Proof(records)) => refuted_by(alloc, asked, records.as_slice()),
        Ok(Foreign::Model(literals)) => shown_by(alloc, asked, literals.as_slice()),
        Err(fault) => Err(Stop::from(fault)),
    }
}

/// The finding of a proof.
fn refuted_by(alloc: Global, asked: &Asked<'_>, records: &[Record]) -> Result<Finding, Stop>
    ensures { IfOk result (λ f. (i : Instr) → slice_get asked.now.machine.now.desc.instrs asked.now.instr ≡ Some i → IsRight asked.now.cnf.clauses asked.now.machine.now.desc i asked.now.kind f) }
{
    match log_of_proof(alloc, asked.cnf(), records) {
        Ok(log) => match refuted(alloc, asked, &log) {
            Ok(finding) => Ok(finding),
            Err(_) => Err(Stop::Memory),
        },
        Err(fault) => Err(Stop::from(fault)),
    }
}

/// The finding of an assignment that makes these literals true.
fn shown_by(alloc: Global, asked: &Asked<'_>, literals: &[i32]) -> Result<Finding, Stop>
    ensures { IfOk result (λ f. (i : Instr) → slice_get asked.now.machine.now.desc.instrs asked.now.instr ≡ Some i → IsRight asked.now.cnf.clauses asked.now.machine.now.desc i asked.now.kind f) }
{
    let cnf = asked.cnf();
    let assignment = assignment_of(alloc, cnf.variables, literals)?;
    match first_false(assignment.as_slice(), cnf.clauses.as_slice()) {
        Some(clause) => Err(Stop::Proof(ProofFault::False(clause))),
        None => match shown(alloc, asked, assignment.as_slice()) {
            Ok(finding) => Ok(finding),
            Err(_) => Err(Stop::Memory),
        },
    }
}
