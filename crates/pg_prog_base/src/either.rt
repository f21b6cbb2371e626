//! The certificate of a machine, of either family.

ghost use Rattle.std.specs.Prelude.{◌≡◌, ◌*◌, All, IfOk, length};
ghost use Rattle.pg_cert.specs.Verdicts.{kind_count, verdict_of};
ghost use Rattle.pg_cert.specs.declared.cert.Family.{Family};
ghost use Rattle.pg_cert.specs.declared.report.Verdict.TheVariants.{Accepted};
ghost use Rattle.pg_cmd_certs.specs.Certificates.{CertDue};
ghost use Rattle.pg_cmd_certs.specs.Meaning.{IsAcceptedBy};
ghost use Rattle.pg_report.specs.Verdicts.{DoMarkWordsFit};
ghost use Rattle.pg_cmd_base.specs.Answering.{Comes, OnlyReads};
ghost use Rattle.pg_cmd_base.specs.Steps.{Came};

use crate::files::{FamilyFault, family_of};
use pg_cert::Report;
use pg_cli_table::FileName;
use pg_cmd_base::Stop;
use pg_cmd_certs::load_certificate;
use pg_edge::Shelf;
use pg_mach_ready::Machine;
use std::alloc::Global;

/// What is kept of the certificate of a machine that a file holds, of the family that its first bytes say; or why there is none.
pub fn load_either<F: Shelf>(
    alloc: Global,
    machine: &Machine,
    name: &FileName,
    shelf: &mut F,
) -> Result<Report, Stop>
    ensures comes { (family : Family) × Comes (λ report. report) (CertDue machine.now.desc family (F.files shelf.old) name.now)
        (F.reads shelf.old) (F.reads shelf.new) result }
    ensures came { IfOk result (λ report. CertDue machine.now.desc report.family (F.files shelf.old) name.now (Came report)) }
    ensures accepts { IfOk result (λ report.
        verdict_of report.family report.marks ≡ Accepted → IsAcceptedBy report.family machine.now.desc) }
    ensures whole { IfOk result (λ report. length report.marks ≡ length machine.now.desc.instrs * kind_count report.family) }
    ensures fit { IfOk result (λ report. All (DoMarkWordsFit machine.now.desc.word) report.marks) }
    ensures reads { OnlyReads F.Shelf shelf.old shelf.new }
{
    match family_of(alloc, name, shelf) {
        Ok(family) => load_certificate(alloc, family, machine, name, shelf),
        Err(FamilyFault::Failed) => Err(Stop::ReadFault),
        Err(FamilyFault::Memory) => Err(Stop::Memory),
    }
}
