//! All of a certificate.

ghost use Rattle.std.specs.Prelude.{◌≡◌, ◌*◌, ℕ, length, map, Err, IfOk};
ghost use Rattle.pg_type.specs.declared.kind.Kind.{Kind as Kinds};
ghost use Rattle.pg_cert.specs.declared.cert.Family.TheVariants.{Plain};
ghost use Rattle.pg_cert.specs.Verdicts.{mark_of};
ghost use Rattle.pg_verify.specs.declared.fault.VerifyFault.TheVariants.{Missing};
ghost use Rattle.pg_verify.specs.Feeding.{verified_whole, IsReported, IsAnswer};
ghost use Rattle.pg_verify.specs.Verified.{IsAsked};
ghost use Rattle.pg_cert_migrate.specs.Made.{AreReady, AreMade};
ghost use Rattle.pg_cert_migrate.specs.Migrated.{IsMigrated, report_told};

use crate::logs::{LogList, logs_of};
use crate::making::finding;
use pg_cert::{Cert, Family, FindingList, Mark, Report, instr_of, kind_of};
use pg_mach_ready::Machine;
use pg_verify::{VerifyFault, verify};
use std::alloc::{AllocError, Global};

/// A certificate made anew, and what is kept of the one before.
#[derive(Debug, Drop)]
pub struct Migrated {
    /// The report of the text, which is that of the new certificate too.
    pub report: Report,
    /// The new certificate.
    pub cert: Cert,
}

/// What becomes of all findings of a family, in order, of which the marks and the logs are there.
fn findings(
    alloc: Global,
    machine: &Machine,
    family: Family,
    marks: &[Mark],
    logs: LogList,
) -> Result<FindingList, AllocError>
    requires { AreReady machine.now.desc family marks.now logs }
    ensures { IfOk result (AreMade machine.now.desc family marks.now logs) }
{
    let mut made = Vec::new(alloc);
    let mut left = logs;
    while let Some(log) = left.pop() {
        let number = left.len();
        let instr = instr_of(family, number);
        let kind = kind_of(family, number);
        made.push(finding(alloc, machine, instr, kind, &marks[number], log)?)?;
    }
    made.as_mut_slice().reverse();
    Ok(FindingList::from_vec(made))
}

/// The certificate of a text of a family that was taken, with this report, made anew.
pub fn made_anew(
    alloc: Global,
    machine: &Machine,
    family: Family,
    bytes: &[u8],
    report: Report,
) -> Result<Migrated, AllocError>
    requires { IsReported (verified_whole machine.now.desc family bytes.now) report }
    ensures migrated { IfOk result (λ m. IsMigrated machine.now.desc family bytes.now m.cert) }
    ensures report { IfOk result (λ m. m.report ≡ report) }
    ensures marks { IfOk result (λ m. m.report.marks ≡ map mark_of m.cert.findings) }
    ensures family { IfOk result (λ m. m.report.family ≡ m.cert.family) }
{
    let logs = logs_of(alloc, machine.shape(), bytes)?;
    let marks = report.marks.as_slice();
    let findings = findings(alloc, machine, family, marks, logs)?;
    Ok(Migrated {
        report,
        cert: Cert { family, findings },
    })
}

/// The certificate whose text this is, in which the kinds of Theorem 1 are asked about, made anew: the same findings in order,
/// under the heading that is written today, where each log that refutes its question is trimmed. Two states that show a kind
/// stay, and so does a log that spends its budget. With it comes the report of the text, which is that of both.
///
/// The new certificate is valid for the machine, its lines are in range, and its states are listed in the one way, so that it
/// can be written. Where the text is refused, the answer is the refusal that `verify` gives: there is one exactly where the text
/// is that of no valid certificate, or too long. `Memory` comes where memory ran out, and says nothing of the text.
///
/// It costs what verifying costs, the reading of the text once more, and for each log that refutes its question and the
/// trimming. The text, its logs and the new certificate are held at once, and one question at a time.
pub fn migrate(alloc: Global, machine: &Machine, bytes: &[u8]) -> Result<Migrated, VerifyFault>
    ensures migrated { IfOk result (λ m. IsMigrated machine.now.desc Plain bytes.now m.cert) }
    ensures answer { IsAnswer (verified_whole machine.now.desc Plain bytes.now) (report_told result) }
    ensures marks { IfOk result (λ m. m.report.marks ≡ map mark_of m.cert.findings) }
    ensures family { IfOk result (λ m. m.report.family ≡ m.cert.family) }
    ensures asked { (instr : ℕ) (kind : Kinds) → result ≡ Err (Missing instr kind) → IsAsked machine.now.desc Plain instr kind }
{
    match verify(alloc, machine, bytes) {
        Ok(report) => Ok(made_anew(alloc, machine, Family::Plain, bytes, report)?),
        Err(fault) => Err(fault),
    }
}
