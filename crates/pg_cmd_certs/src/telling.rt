//! The verdict of a certificate is told.

ghost use Rattle.std.specs.Prelude.{◌≡◌, ◌≢◌, true, false, ◌≤◌};
ghost use Rattle.pg_cert.specs.declared.report.Verdict.TheVariants.{Accepted};
ghost use Rattle.pg_cmd_certs.specs.Judged.{verdict_status};
ghost use Rattle.pg_cmd_certs.specs.Telling.{ToldAs};
ghost use Rattle.pg_cmd_certs.specs.Views.{judged};
ghost use Rattle.pg_cmd_base.specs.Classes.{class_of};
ghost use Rattle.pg_cmd_base.specs.World.{output};

use crate::machine::JudgedMachine;
use pg_cert::Verdict;
use pg_cmd_base::Status;
use pg_edge::Sink;
use pg_report::put_verdict;

/// Puts the text of the verdict and answers its status, or `WriteFault` where a put failed. It takes no memory.
pub fn tell_verdict<S: Sink>(out: &mut S, told: &JudgedMachine) -> Status
    ensures told { ToldAs (judged told.now) (output S.Sink out.old) (output S.Sink out.new) result (class_of result) }
    ensures later { S.faults out.old ≤ S.faults out.new }
{
    match put_verdict(out, &told.machine, &told.report) {
        Ok(()) => status_of(told.report.verdict()),
        Err(_) => Status::WriteFault,
    }
}

/// The status of a verdict.
pub fn status_of(verdict: Verdict) -> Status
    ensures { result ≡ verdict_status verdict }
{
    match verdict {
        Verdict::Accepted => Status::Done,
        Verdict::Refused(_) => Status::Refused,
        Verdict::Unsettled(..) => Status::Unsettled,
    }
}

/// Whether a verdict is that a monitor may run the machine.
pub fn is_accepted(verdict: Verdict) -> bool
    ensures yes { result ≡ true → verdict ≡ Accepted }
    ensures no { result ≡ false → verdict ≢ Accepted }
{
    matches!(verdict, Verdict::Accepted)
}
