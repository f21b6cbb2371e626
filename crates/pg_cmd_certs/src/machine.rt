//! A machine, and what is kept of a certificate of it.

ghost use Rattle.std.specs.Prelude.{◌≡◌, ◌*◌, All, length};
ghost use Rattle.pg_cert.specs.Verdicts.{kind_count};
ghost use Rattle.pg_report.specs.Verdicts.{DoMarkWordsFit};
ghost use Rattle.pg_cmd_certs.specs.Judged.{DoMarksFit-prop};

use pg_cert::Report;
use pg_mach_ready::Machine;

/// A machine, and the marks of a certificate of it: enough to tell the verdict with no more memory.
#[derive(Drop)]
pub struct JudgedMachine {
    /// The machine.
    pub machine: Machine,
    /// The family of the certificate, and its marks.
    pub report: Report,
    /// Each instruction has its marks.
    pub ghost whole: { length report.marks ≡ length machine.desc.instrs * kind_count report.family },
    /// The states that the marks keep are of words of the machine's width.
    pub ghost fit: { All (DoMarkWordsFit machine.desc.word) report.marks } by { DoMarksFit-prop machine.desc.word report.marks },
}
