//! A certificate with one finding exchanged.

ghost use Rattle.std.specs.Prelude.{◌≡◌, ◌*◌, ◌<◌, All, length, map, slice_set, IfOk};
ghost use Rattle.pg_cert.specs.Texts.{heading_of, cert_text};
ghost use Rattle.pg_cert.specs.Verdicts.{kind_count, mark_of};
ghost use Rattle.pg_report.specs.Verdicts.{DoMarkWordsFit};
ghost use Rattle.pg_prog_base.specs.Imported.{IsRightAt, IsReplaced, IsOfText};

use pg_cert::{Cert, Finding, Report, report_of, write};
use pg_mach_ready::Machine;
use std::alloc::{AllocError, Global};

/// A certificate with a finding of another solver.
#[derive(Drop)]
pub struct Imported {
    /// The new certificate.
    pub cert: Cert,
    /// What is kept of it.
    pub report: Report,
    /// Its text.
    pub text: Vec<u8>,
}

/// A certificate that was made anew of a text, with a finding at a place: the same family, and all other findings as they were. The finding
/// is right for the question of its place. The new certificate is valid under the heading that is written today, so `verify` takes its
/// text, where that is not too long.
///
/// It costs the length of the new text.
pub fn replaced(
    alloc: Global,
    machine: &Machine,
    made: Cert,
    place: usize,
    finding: Finding,
) -> Result<Imported, AllocError>
    requires made { IsOfText machine.now.desc made }
    requires there { place < length made.findings }
    requires right { IsRightAt machine.now.desc made.family place finding }
    ensures replaced { IfOk result (λ m. IsReplaced machine.now.desc made place finding m.cert) }
    ensures text { IfOk result (λ m. m.text.items ≡ cert_text machine.now.desc (heading_of made.family) m.cert) }
    ensures family { IfOk result (λ m. m.report.family ≡ made.family) }
    ensures whole { IfOk result (λ m. length m.report.marks ≡ length machine.now.desc.instrs * kind_count m.report.family) }
    ensures fit { IfOk result (λ m. All (DoMarkWordsFit machine.now.desc.word) m.report.marks) }
    ensures marks { IfOk result (λ m. m.report.marks ≡ map mark_of m.cert.findings) }
{
    let cert = exchanged(made, place, finding);
    let report = report_of(alloc, &cert)?;
    let text = write(alloc, machine, &cert)?;
    Ok(Imported { cert, report, text })
}

/// A certificate with another finding at a place.
fn exchanged(made: Cert, place: usize, finding: Finding) -> Cert
    requires { place < length made.findings }
    ensures family { result.family ≡ made.family }
    ensures findings { result.findings ≡ slice_set made.findings place finding }
{
    let Cert {
        family,
        mut findings,
    } = made;
    findings.set(place, finding);
    Cert { family, findings }
}
